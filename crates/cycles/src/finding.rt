// Finds the guards of a rule by a walk over its tokens.
ghost use Rattle.std.specs.Prelude.{◌+◌};
ghost use Rattle.text.specs.definitions.Syntax;
ghost use Rattle.text.specs.definitions.Grammar.{clause_reader, atom_reader, conjunction_reader};
ghost use Rattle.cycles.specs.inner_contracts.GuardKinds.{Covered, GuardsFound};
ghost use Rattle.cycles.specs.inner_contracts.Finding.{PartPut, FilterGuardsWalk, TestGuardsWalk, ConditionGuardsWalk, CallGuarded};

use crate::conditions::target_end;
use crate::guards::{Guard, GuardKind, Guards};
use crate::rules::Rules;
use checking::layout::{FIRST_VARIABLE_8, MOST_VARIABLES_8};
use text::classes::{AND, CHANGED, COMMA, OR, ROUND_OPEN, WITH};

// What a guard is about: the tokens that name its cell, and those of its expression or condition, from number `at` up to `next`.
#[derive(Clone, Copy)]
struct Part {
    kind: GuardKind,
    name: usize,
    member: usize,
    at: usize,
    next: usize,
}

// A walk over a rule's condition that puts the guards which are dear to try, or the others.
#[derive(Clone, Copy)]
struct Pass<'a> {
    rules: &'a Rules<'a>,
    dear: bool,
}

// ---- levels

// One more than the variable that token number i refers to, 0 if to none.
fn level_at(rules: &Rules<'_>, i: usize) -> u8
    ensures { Covered rules.now.references.now result i (i + 1) }
{
    match rules.owner(i).checked_sub(FIRST_VARIABLE_8) {
        Some(v) if v < MOST_VARIABLES_8 => v + 1,
        _ => 0,
    }
}

// One more than the last variable that tokens number `from` up to `to` refer to.
fn level_of(rules: &Rules<'_>, from: usize, to: usize) -> u8
    ensures { Covered rules.now.references.now result from to }
{
    let mut level = 0;
    for i in from..to {
        level = level_at(rules, i).max(level);
    }
    level
}

// ---- guards are put

// A guard about this part, if there is still room.
#[tactic(auto, using(crate::proofs::steps::GuardPuts::covered_more))]
fn put_part(rules: &Rules<'_>, part: &Part, guards: &mut Guards)
    ensures { PartPut rules.now.references.now part.now.kind part.now.name part.now.member part.now.at part.now.next
        (record { before = guards.old.items; after = guards.new.items }) }
{
    let inner = level_of(rules, part.at, part.next);
    let own = level_at(rules, part.name).max(1); // without a variable it is tried with the first
    let guard = Guard {
        kind: part.kind,
        level: own.max(inner),
        inner,
        name: part.name,
        member: part.member,
        at: part.at,
    };
    if !guards.is_full() {
        guards.push(guard);
    }
}

// Is what stands from number `at` up to `next` of more than three tokens, and so dear to try?
fn is_dear(at: usize, next: usize) -> bool {
    3 < next.saturating_sub(at)
}

// The same, if it is one of this pass: the guards that are dear to try stand after the others.
#[tactic(auto, using(crate::proofs::steps::GuardPuts::nothing_put))]
fn put_in_pass(pass: &Pass<'_>, part: &Part, guards: &mut Guards)
    ensures { PartPut pass.now.rules.now.references.now part.now.kind part.now.name part.now.member part.now.at part.now.next
        (record { before = guards.old.items; after = guards.new.items }) }
{
    if is_dear(part.at, part.next) == pass.dear {
        put_part(pass.rules, part, guards);
    }
}

// ---- conditions

// After a clause's target, whose name is token number n: nothing, or `with attribute = expression`.
fn filter_guard(pass: &Pass<'_>, n: usize, at: usize, guards: &mut Guards) -> usize
    ensures { FilterGuardsWalk pass.now.rules.now.columns.classes.now pass.now.rules.now.references.now n at
        (record { before = guards.old.items; after = guards.new.items }) result }
{
    if pass.rules.class_at(at) != WITH {
        return at;
    }
    let name = pass.rules.skip(at);
    let inside = pass.rules.skip(pass.rules.skip(name));
    let next = pass.rules.expression_end(inside);
    let part = Part {
        kind: GuardKind::EqualNow,
        name: n,
        member: name,
        at: inside,
        next,
    };
    put_in_pass(pass, &part, guards);
    next
}

// After `value`: what is asked of the event that tokens number n and m name.
fn test_guards(pass: &Pass<'_>, n: usize, m: usize, at: usize, guards: &mut Guards) -> usize
    ensures { TestGuardsWalk pass.now.rules.now.columns.classes.now pass.now.rules.now.references.now n m at
        (record { before = guards.old.items; after = guards.new.items }) result }
{
    let inside = pass.rules.skip(at);
    if pass.rules.class_at(at) == CHANGED {
        let part = Part {
            kind: GuardKind::Changes,
            name: n,
            member: m,
            at: inside,
            next: inside,
        };
        put_in_pass(pass, &part, guards);
        return inside;
    }
    let next = pass.rules.expression_end(inside);
    let now = Part {
        kind: GuardKind::EqualNow,
        name: n,
        member: m,
        at: inside,
        next,
    };
    put_in_pass(pass, &now, guards);
    let before = Part {
        kind: GuardKind::UnequalBefore,
        ..now
    };
    put_in_pass(pass, &before, guards);
    next
}

fn clause_guards(pass: &Pass<'_>, at: usize, guards: &mut Guards) -> usize
    ensures { ConditionGuardsWalk pass.now.rules.now.columns.classes.now pass.now.rules.now.references.now (clause_reader Syntax.OPENERS) at
        (record { before = guards.old.items; after = guards.new.items }) result }
{
    let name = pass.rules.skip(at);
    let target = pass.rules.skip(pass.rules.skip(name));
    let next = filter_guard(pass, target, target_end(pass.rules, target), guards);
    test_guards(pass, target, name, pass.rules.skip(next), guards)
}

fn atom_guards(pass: &Pass<'_>, at: usize, guards: &mut Guards) -> usize
    ensures { ConditionGuardsWalk pass.now.rules.now.columns.classes.now pass.now.rules.now.references.now (atom_reader Syntax.OPENERS) at
        (record { before = guards.old.items; after = guards.new.items }) result }
{
    if pass.rules.class_at(at) != ROUND_OPEN {
        return clause_guards(pass, at, guards);
    }
    let next = pass.rules.atom_end(at);
    let part = Part {
        kind: GuardKind::Holds,
        name: at,
        member: at,
        at,
        next,
    };
    put_in_pass(pass, &part, guards);
    next
}

// The conditions at number `at` with `and` between them.
fn conjuncts(pass: &Pass<'_>, at: usize, guards: &mut Guards) -> usize
    ensures { ConditionGuardsWalk pass.now.rules.now.columns.classes.now pass.now.rules.now.references.now (conjunction_reader Syntax.OPENERS) at
        (record { before = guards.old.items; after = guards.new.items }) result }
{
    let mut i = atom_guards(pass, at, guards);
    while pass.rules.class_at(i) == AND {
        i = atom_guards(pass, pass.rules.skip(i), guards);
    }
    i
}

// ---- a rule

// The `with` of the call at number `at`, if no other call follows.
fn call_guard(rules: &Rules<'_>, at: usize, guards: &mut Guards)
    ensures { CallGuarded rules.now.columns.classes.now rules.now.references.now at
        (record { before = guards.old.items; after = guards.new.items }) }
{
    let opener = rules.skip(rules.skip(at));
    let on = rules.skip(rules.expression_end(rules.skip(opener)));
    let target = rules.skip(on);
    let with = target_end(rules, target);
    if rules.class_at(with) != WITH {
        return;
    }
    let name = rules.skip(with);
    let inside = rules.skip(rules.skip(name));
    let next = rules.expression_end(inside);
    if rules.class_at(next) == COMMA {
        return;
    }
    let part = Part {
        kind: GuardKind::EqualNow,
        name: target,
        member: name,
        at: inside,
        next,
    };
    put_part(rules, &part, guards);
}

/// Finds the guards of the rule whose tokens after `when` begin at number `at`.
pub fn find_guards(rules: &Rules<'_>, at: usize, guards: &mut Guards)
    ensures { GuardsFound rules.now.columns.classes.now rules.now.references.now at guards.new.items }
{
    guards.clear();
    let start = rules.priority_end(at);
    let cheap = Pass {
        rules: &*rules,
        dear: false,
    };
    let next = conjuncts(&cheap, start, guards);
    if rules.class_at(next) == OR {
        guards.clear();
        return;
    }
    call_guard(rules, rules.skip(next), guards);
    let dear = Pass {
        rules: &*rules,
        dear: true,
    };
    conjuncts(&dear, start, guards);
}
