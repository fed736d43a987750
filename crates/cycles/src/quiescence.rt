// Which rules are tried: those that read a cell that moved.
ghost use Rattle.std.specs.Prelude.{◌≤◌, length};
ghost use Rattle.checking.specs.definitions.CountFaults;
ghost use Rattle.cycles.specs.definitions.Planes;
ghost use Rattle.cycles.specs.inner_contracts.AllRules.{AreTried};

use crate::layout::{ENTITY_CELLS, READ_SET_BYTES, READ_SETS_AT, SCOPES_BYTES};
use crate::rules::Rules;
use crate::store::Stores;
use cell_sets::{Pair, find_moved, rows_met};
use checking::layout::{ENTITY_COUNT_ROW, MOST_ENTITIES, MOST_RULES, RULE_COUNT_ROW};

/// The set of the rules that are tried, by their numbers. No bench has more rules or entities, and its sets have room.
#[tactic(auto, using(crate::proofs::steps::TriedLaws::tried_sets))]
pub fn tried_rules(rules: &Rules<'_>, stores: &Stores<'_>) -> u64
    requires in_bounds { (CountFaults.MOST_ENTITIES ≤ length stores.now.current.flags) × (CountFaults.MOST_ENTITIES ≤ length stores.now.previous.flags) }
    requires in_bounds_2 { (Planes.MOST_CELL_BYTES ≤ length stores.now.current.cells) × (Planes.MOST_CELL_BYTES ≤ length stores.now.previous.cells) }
    ensures { AreTried rules.now stores.now.current stores.now.previous result }
{
    let count = rules.row(RULE_COUNT_ROW);
    if MOST_RULES < count {
        return 0;
    }
    let n = rules.row(ENTITY_COUNT_ROW);
    if MOST_ENTITIES < n {
        return 0;
    }
    if rules.scopes.len() < SCOPES_BYTES {
        return 0;
    }
    let mut moved = [0u8; READ_SET_BYTES];
    let Stores { current, previous } = stores;
    let flags = Pair {
        current: current.flags,
        previous: previous.flags,
    };
    let cells = Pair {
        current: current.cells,
        previous: previous.cells,
    };
    find_moved(n, ENTITY_CELLS, &flags, &cells, &mut moved);
    rows_met(
        rules.scopes,
        READ_SETS_AT,
        READ_SET_BYTES,
        count as u8,
        &moved,
    )
}
