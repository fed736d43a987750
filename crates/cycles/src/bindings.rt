// The rules that are tried, each for every binding of its variables.
ghost use Rattle.std.specs.Prelude.{◌+◌, ◌≤◌, ◌≡◌, length, get_or};
ghost use Rattle.checking.specs.inner_contracts.Directory;
ghost use Rattle.checking.specs.inner_contracts.Directory.{rule_row};
ghost use Rattle.checking.specs.definitions.CountFaults;
ghost use Rattle.cycles.specs.definitions.Planes;
ghost use Rattle.cycles.specs.inner_contracts.AllRules.{complete, candidate, Ranged, Ranges, BindingsWritten, SetWritten, RulesWritten};
ghost use Rattle.cycles.specs.inner_contracts.GuardKinds.{GuardsFound, MarksSet};
ghost use Rattle.cycles.specs.inner_contracts.Evaluation;

use crate::calls::rule_at;
use crate::evaluate::{Binding, with_entity};
use crate::finding::find_guards;
use crate::guards::{Candidates, Guards, narrow};
use crate::quiescence::tried_rules;
use crate::rules::Rules;
use crate::store::{Store, Stores};
use crate::world::Worlds;
use cell_sets::has_bit;
use checking::layout::{
    ENTITY_COUNT_ROW, ENTITY_INTERFACE_ROWS, MOST_ENTITIES, MOST_ENTITIES_8, MOST_INTERFACES,
    MOST_INTERFACES_8, MOST_RULES, MOST_VARIABLES_8, RULE_COUNT_ROW, RULE_ROWS, SCOPE_ROWS,
};

// Does each variable of rule number k have its entity, if the first `level` of them do?
fn is_complete(rules: &Rules<'_>, k: u8, level: u8) -> bool
    ensures { result ≡ complete rules.now.scopes.now k level }
{
    MOST_VARIABLES_8 <= level || rules.scope(SCOPE_ROWS * (k as usize)) == level
}

// Is entity e present, and of the interface of this number?
fn is_candidate(rules: &Rules<'_>, store: &Store<'_>, face: u8, e: u8) -> bool
    ensures { result ≡ candidate rules.now.columns.d.now store.now.flags face e }
{
    store.is_present(e) && rules.row(ENTITY_INTERFACE_ROWS + (e as usize)) == face as usize
}

/// Where among the entities the candidates for an interface stand: from `first` on, below `end`.
#[derive(Clone, Copy)]
pub struct Range {
    pub first: u8,
    pub end: u8,
}

#[tactic(auto, using(crate::proofs::steps::BindingPuts::range_turns))]
fn range_of(rules: &Rules<'_>, store: &Store<'_>, n: u8, face: u8) -> Range
    ensures { Ranged rules.now.columns.d.now store.now.flags n face result.first result.end }
{
    let mut first = 0;
    let mut end = 0;
    for e in 0..n {
        if is_candidate(rules, store, face, e) {
            if end == 0 {
                first = e;
            }
            end = e + 1;
        }
    }
    Range { first, end }
}

// The ranges of all interfaces.
#[tactic(auto, using(crate::proofs::steps::BindingPuts::range_put))]
fn find_ranges(rules: &Rules<'_>, store: &Store<'_>, n: u8) -> [Range; MOST_INTERFACES]
    ensures { Ranges rules.now.columns.d.now store.now.flags n result }
{
    let mut ranges = [Range { first: 0, end: 0 }; MOST_INTERFACES];
    for face in 0..MOST_INTERFACES_8 {
        ranges[face as usize] = range_of(rules, store, n, face);
    }
    ranges
}

// Marks the candidates for an interface, from number `first` on, below `end`.
#[tactic(auto, using(crate::proofs::steps::BindingPuts::marks_more))]
fn mark_candidates(rules: &Rules<'_>, store: &Store<'_>, face: u8, range: Range, marks: &mut [u8])
    requires { range.end ≤ length marks.old }
    ensures { MarksSet rules.now.columns.d.now store.now.flags face range.first range.end marks.new }
{
    for e in range.first..range.end {
        marks[e as usize] = u8::from(is_candidate(rules, store, face, e));
    }
}

// A rule that is tried: its number, the ranges of all interfaces, and its guards.
#[derive(Drop)]
struct Trial<'a> {
    k: u8,
    ranges: &'a [Range; MOST_INTERFACES],
    guards: &'a Guards,
}

// The rule, for every binding that has the entities of its first `level` variables. Its guards save those that would write nothing.
fn bind(worlds: &Worlds<'_, '_>, trial: &Trial<'_>, level: u8, area: &mut [u8])
    requires in_bounds { Evaluation.MOST_PENDING_BYTES ≤ length area.old }
    requires ranges { Ranges worlds.now.rules.now.columns.d.now worlds.now.stores.now.current.flags (get_or worlds.now.rules.now.columns.d.now Directory.ENTITY_COUNT_ROW 0) trial.now.ranges.now }
    requires guards_found { GuardsFound worlds.now.rules.now.columns.classes.now worlds.now.rules.now.references.now (get_or worlds.now.rules.now.columns.d.now (rule_row trial.now.k) 0 + 1) trial.now.guards.now.items }
    ensures { BindingsWritten worlds.now.rules.now worlds.now.stores.now.current worlds.now.stores.now.previous trial.now.k level worlds.now.b area.old area.new }
{
    let Worlds { rules, b, stores } = *worlds;
    if is_complete(rules, trial.k, level) {
        let at = rules.row(RULE_ROWS + (trial.k as usize)) + 1;
        rule_at(worlds, at, area);
        return;
    }
    let face = rules.scope(SCOPE_ROWS * (trial.k as usize) + 1 + (level as usize));
    // a checked bench has no more interfaces and entities
    if MOST_INTERFACES <= face as usize {
        return;
    }
    let range = trial.ranges[face as usize];
    let Range { first, end } = range;
    if MOST_ENTITIES_8 < end {
        return;
    }
    let mut marks = [0u8; MOST_ENTITIES];
    mark_candidates(rules, &stores.current, face, range, &mut marks);
    let candidates = Candidates { level, first, end };
    let guards = trial.guards.as_slice();
    narrow(worlds, guards, candidates, &mut marks);
    for e in first..end {
        let with = Worlds {
            rules: &*rules,
            b: with_entity(b, level, e),
            stores: &*stores,
        };
        if marks[e as usize] != 0 {
            bind(&with, trial, level + 1, area);
        }
    }
}

// The guards of rule number k. With no variable there is one binding, and they would save nothing.
fn rule_guards(rules: &Rules<'_>, k: u8, guards: &mut Guards)
    ensures { GuardsFound rules.now.columns.classes.now rules.now.references.now (get_or rules.now.columns.d.now (rule_row k) 0 + 1) guards.new.items }
{
    if rules.scope(SCOPE_ROWS * (k as usize)) == 0 {
        guards.clear();
        return;
    }
    find_guards(rules, rules.row(RULE_ROWS + (k as usize)) + 1, guards);
}

// The rules of a set, by their numbers, one after another: what they write goes into the area.
#[tactic(auto, using(crate::proofs::steps::RulePuts::rules_in_turn))]
fn try_rules(rules: &Rules<'_>, stores: &Stores<'_>, set: u64, area: &mut [u8])
    requires { Evaluation.MOST_PENDING_BYTES ≤ length area.old }
    ensures { SetWritten rules.now stores.now.current stores.now.previous area.old area.new set }
{
    let n = rules.row(RULE_COUNT_ROW);
    if MOST_RULES < n {
        return;
    }
    let entities = rules.row(ENTITY_COUNT_ROW);
    if MOST_ENTITIES < entities {
        return;
    }
    let ranges = find_ranges(rules, &stores.current, entities as u8);
    let mut guards = Guards::new();
    for k in 0..n as u8 {
        if !has_bit(set, k) {
            continue;
        }
        rule_guards(rules, k, &mut guards);
        let trial = Trial {
            k,
            ranges: &ranges,
            guards: &guards,
        };
        let none = Worlds {
            rules: &*rules,
            b: Binding { entities: 0 },
            stores: &*stores,
        };
        bind(&none, &trial, 0, area);
    }
}

/// What all rules write goes into the area. A rule that reads no cell that moved would write nothing: it is passed over. Answers the set of the rules
/// that are tried.
#[tactic(auto, using(crate::proofs::steps::RulePuts::none_tried))]
pub fn all_rules(rules: &Rules<'_>, stores: &Stores<'_>, area: &mut [u8]) -> u64
    requires in_bounds { Evaluation.MOST_PENDING_BYTES ≤ length area.old }
    requires in_bounds_2 { (CountFaults.MOST_ENTITIES ≤ length stores.now.current.flags) × (CountFaults.MOST_ENTITIES ≤ length stores.now.previous.flags) }
    requires in_bounds_3 { (Planes.MOST_CELL_BYTES ≤ length stores.now.current.cells) × (Planes.MOST_CELL_BYTES ≤ length stores.now.previous.cells) }
    ensures { RulesWritten rules.now stores.now.current stores.now.previous area.old area.new result }
{
    let tried = tried_rules(rules, stores);
    if tried == 0 {
        return tried;
    }
    try_rules(rules, stores, tried, area);
    tried
}
