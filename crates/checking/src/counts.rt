// The counts: the earliest first word of an item beyond one, by a scan of the columns. In a grammatical file the class of a token alone
// says which item it begins, once it is known whether `rules` has come.
ghost use Rattle.std.specs.Prelude.{◌≡◌, ◌-◌, length};
ghost use Rattle.checking.specs.definitions.Faults.{earliest};
ghost use Rattle.checking.specs.inner_contracts.FoundFaults.{found_as};
ghost use Rattle.checking.specs.definitions.CountFaults;
ghost use Rattle.checking.specs.inner_contracts.CountScan.{past, declared_scan, ruled_scan};
ghost use Rattle.checking.specs.inner_contracts.CountChecked.{CountChecked};

use crate::faults::{Fault, FaultKind, earlier};
use crate::layout::{
    MOST_CALLS, MOST_CLAUSES, MOST_ENTITIES, MOST_INTERFACES, MOST_MEMBERS, MOST_RULES,
    MOST_VARIABLES,
};
use crate::table::{first_of, row};
use text::classes::{ACTION, ATTRIBUTE, COLON, ENTITY, EVENT, INTERFACE, RULES, WHEN};
use text::walks::class_at;

// A fault at token number i if no more items may come.
#[tactic(auto, using(crate::proofs::steps::CountScanLaws::past_none, crate::proofs::steps::CountScanLaws::past_one), unfolding(crate::specs::inner_contracts::FoundFaults::found_as))]
fn over(offsets: &[u16], left: usize, i: usize) -> Option<Fault>
    ensures { found_as result ≡ earliest (past offsets.now left i) }
{
    if left > 0 {
        return None;
    }
    Some(Fault {
        kind: FaultKind::BeyondCount,
        at: row(offsets, i) as u32,
    })
}

// Interfaces, their members, and entities: of the tokens before number `end`.
#[tactic(auto, using(crate::proofs::steps::CountScanLaws::declared_turns))]
fn declaration_fault(classes: &[u8], offsets: &[u16], end: usize) -> Option<Fault>
    ensures { found_as result
        ≡ earliest (declared_scan classes.now offsets.now end 0 CountFaults.MOST_INTERFACES CountFaults.MOST_MEMBERS CountFaults.MOST_ENTITIES) }
{
    let mut interfaces = MOST_INTERFACES;
    let mut members = MOST_MEMBERS;
    let mut entities = MOST_ENTITIES;
    let mut found = None;
    for i in 0..end {
        match class_at(classes, i) {
            INTERFACE => {
                found = earlier(found, over(offsets, interfaces, i));
                interfaces = interfaces.saturating_sub(1);
                members = MOST_MEMBERS;
            }
            ATTRIBUTE..=ACTION => {
                found = earlier(found, over(offsets, members, i));
                members = members.saturating_sub(1);
            }
            ENTITY => {
                found = earlier(found, over(offsets, entities, i));
                entities = entities.saturating_sub(1);
            }
            _ => {}
        }
    }
    found
}

// Rules, and in each its variables, clauses and calls: of the tokens from number `from` on.
#[tactic(auto, using(crate::proofs::steps::CountScanLaws::ruled_turns))]
fn rule_fault(classes: &[u8], offsets: &[u16], from: usize) -> Option<Fault>
    ensures { found_as result
        ≡ earliest (ruled_scan classes.now offsets.now (length classes.now - from) from CountFaults.MOST_RULES CountFaults.MOST_VARIABLES
        CountFaults.MOST_CLAUSES CountFaults.MOST_CALLS) }
{
    let mut rules = MOST_RULES;
    let mut variables = MOST_VARIABLES;
    let mut clauses = MOST_CLAUSES;
    let mut calls = MOST_CALLS;
    let mut found = None;
    for i in from..classes.len() {
        match class_at(classes, i) {
            WHEN => {
                found = earlier(found, over(offsets, rules, i));
                rules = rules.saturating_sub(1);
                variables = MOST_VARIABLES;
                clauses = MOST_CLAUSES;
                calls = MOST_CALLS;
            }
            COLON => {
                found = earlier(found, over(offsets, variables, i.saturating_sub(1)));
                variables = variables.saturating_sub(1);
            }
            EVENT => {
                found = earlier(found, over(offsets, clauses, i));
                clauses = clauses.saturating_sub(1);
            }
            ACTION => {
                found = earlier(found, over(offsets, calls, i));
                calls = calls.saturating_sub(1);
            }
            _ => {}
        }
    }
    found
}

// The earliest item of a grammatical file beyond a count.
pub fn count_fault(classes: &[u8], offsets: &[u16]) -> Option<Fault>
    ensures { CountChecked classes.now offsets.now result }
{
    let rules = first_of(classes, RULES, 0);
    earlier(
        declaration_fault(classes, offsets, rules),
        rule_fault(classes, offsets, rules),
    )
}
