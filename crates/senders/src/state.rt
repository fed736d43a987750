// The state image: memory that stands for a state of a bench.
ghost use Rattle.std.specs.Prelude.{◌≤◌, length};
ghost use Rattle.cycles.specs.inner_contracts.Bundles.{of_members, of_literals};
ghost use Rattle.senders.specs.definitions.StateImage;
ghost use Rattle.senders.specs.inner_contracts.SenderMemory.{StateTest};
ghost use Rattle.senders.specs.inner_contracts.RowMemory.{FreshStatePut};

use crate::layout::{COUNT_AT, HEAD_BYTES, MOST_SENDERS};
use crate::parts::{are_senders, part_at};
use checking::Columns;
use checking::layout::{ENTITY_COUNT_ROW, MOST_ENTITIES};
use cycles::{are_stores, number, put_fresh_stores, put_number};

/// Whether memory is a state of the bench whose text has that fingerprint.
#[tactic(auto, using(crate::proofs::steps::StateSteps::state_read))]
pub fn is_state(columns: &Columns<'_>, print: u32, state: &[u8]) -> bool
    requires { StateImage.STATE ≤ length state.now }
    ensures { of_members (StateTest print) columns.now state.now result }
{
    let n = columns.row(ENTITY_COUNT_ROW);
    if MOST_ENTITIES < n {
        return false;
    }
    if number(state) != print {
        return false;
    }
    let count = state[COUNT_AT] as usize;
    if MOST_SENDERS < count {
        return false;
    }
    if !are_stores(columns.classes, columns.d, &state[HEAD_BYTES..]) {
        return false;
    }
    let senders = part_at(n, 0);
    are_senders(columns, &state[senders..], count)
}

/// Writes the fresh state.
pub fn put_fresh(columns: &Columns<'_>, literals: &[u32], print: u32, state: &mut [u8])
    requires { StateImage.STATE ≤ length state.old }
    ensures { of_literals FreshStatePut columns.now literals.now print state.old state.new }
{
    put_number(state, print);
    state[COUNT_AT] = 0;
    put_fresh_stores(columns, literals, &mut state[HEAD_BYTES..]);
}
