// A record on a checked bench whose rules' names are resolved: what a state says to it, and the memory that it leaves of the state's.
ghost use Rattle.std.specs.Prelude.{◌≤◌, ◌<◌, length};
ghost use Rattle.checking.specs.definitions.CountFaults;
ghost use Rattle.cycles.specs.definitions.Planes;
ghost use Rattle.cycles.specs.inner_contracts.Bundles.{entities_of, of_members, of_rules};
ghost use Rattle.senders.specs.definitions.Sender;
ghost use Rattle.senders.specs.definitions.StateImage;
ghost use Rattle.senders.specs.inner_contracts.Judging.{judged_as};
ghost use Rattle.senders.specs.inner_contracts.Advancing.{LastRead, ResentRead, Followed, Settled, SentTaken, Advanced};

use crate::judge::{in_turn, same_readings, takes_cells};
use crate::layout::{
    COUNT_AT, HEAD_BYTES, MOST_SENDERS, NAME_PLACE, NUMBERS_BELOW, SENDER_HEAD_BYTES,
};
use crate::names::is_sender;
use crate::parts::{part_at, place_of, put_kept, put_sender};
use crate::turn::{LineError, Turn};
use checking::Columns;
use checking::layout::{ENTITY_COUNT_ROW, MOST_ENTITIES};
use cycles::cycle::cycle;
use cycles::header::Header;
use cycles::layout::{ENTITY_BYTES, ENTITY_CELLS, MOST_CELL_BYTES};
use cycles::record::{Sent, clear_cells, clear_flags, read_sent, read_values};
use cycles::{Inputs, Rules, number};

// The last number of the sender at a place; 0 for one that is not known, as the definitions have it: its first line has number 1.
#[tactic(auto, using(crate::proofs::steps::ResentSteps::last_unknown_read))]
fn last_of(state: &[u8], n: usize, place: usize) -> u32
    requires { (n ≤ CountFaults.MOST_ENTITIES) × (place < Sender.MOST_SENDERS) × (StateImage.STATE ≤ length state.now) }
    ensures { LastRead state.now n place result }
{
    if state[COUNT_AT] as usize <= place {
        return 0;
    }
    let at = part_at(n, place) + NAME_PLACE;
    number(&state[at..])
}

// Is a line of that number and those inputs the last one of the sender at that place?
#[tactic(auto, using(crate::proofs::steps::ResentSteps::resent_not_known, crate::proofs::steps::ResentSteps::resent_not_last))]
fn is_resent(
    columns: &Columns<'_>,
    state: &[u8],
    place: usize,
    line: u64,
    inputs: &Inputs<'_>,
) -> bool
    requires state { (entities_of columns.now ≤ CountFaults.MOST_ENTITIES) × (place < Sender.MOST_SENDERS) × (StateImage.STATE ≤ length state.now) }
    requires inputs { (CountFaults.MOST_ENTITIES ≤ length inputs.now.flags.now) × (Planes.MOST_CELL_BYTES ≤ length inputs.now.cells.now) }
    ensures { of_members ResentRead columns.now state.now place line inputs.now.flags.now inputs.now.cells.now result }
{
    let n = columns.row(ENTITY_COUNT_ROW);
    if state[COUNT_AT] as usize <= place {
        return false;
    }
    if line != last_of(state, n, place) as u64 {
        return false;
    }
    let plane = part_at(n, place) + SENDER_HEAD_BYTES;
    same_readings(columns, &state[plane..], inputs)
}

// A new line: the cycle, and the entry of its sender. The memory of its inputs is made to what is kept.
fn follow(
    rules: &Rules<'_>,
    name: &[u8],
    place: usize,
    last: u32,
    flags: &[u8],
    cells: &mut [u8],
    state: &mut [u8],
)
    requires sender { (entities_of rules.now.columns ≤ CountFaults.MOST_ENTITIES) × (place < Sender.MOST_SENDERS) × (length name.now ≤ Sender.MOST_NAME_BYTES) }
    requires room { (CountFaults.MOST_ENTITIES ≤ length flags.now) × (Planes.MOST_CELL_BYTES ≤ length cells.old) × (StateImage.STATE ≤ length state.old) }
    ensures { of_rules Followed rules.now name.now place last flags.now cells.old state.old state.new }
{
    let n = rules.row(ENTITY_COUNT_ROW);
    let known = state[COUNT_AT] as usize;
    let now = HEAD_BYTES + n;
    let part = part_at(n, place);
    let inputs = Inputs { flags, cells };
    cycle(rules, &inputs, &mut state[HEAD_BYTES..]);
    put_kept(&rules.columns, n, &state[now..], cells);
    put_sender(&mut state[part..], n, name, last, flags, cells);
    if known == place {
        state[COUNT_AT] = (place + 1) as u8;
    }
}

// What a state says to a line that is read; `flags` and `cells` have its inputs. A new line moves the state on, a retransmission leaves it.
#[tactic(auto, using(crate::proofs::laws::RecordLaws::settled_early))]
fn settle(
    rules: &Rules<'_>,
    name: &[u8],
    place: usize,
    line: u64,
    flags: &[u8],
    cells: &mut [u8],
    state: &mut [u8],
) -> Result<Turn, LineError>
    requires sender { (entities_of rules.now.columns ≤ CountFaults.MOST_ENTITIES) × (place < Sender.MOST_SENDERS) × (length name.now ≤ Sender.MOST_NAME_BYTES) }
    requires room { (CountFaults.MOST_ENTITIES ≤ length flags.now) × (Planes.MOST_CELL_BYTES ≤ length cells.old) × (StateImage.STATE ≤ length state.old) }
    ensures { of_rules Settled rules.now name.now place line flags.now cells.old state.old state.new (judged_as result) }
{
    let n = rules.row(ENTITY_COUNT_ROW);
    let inputs = Inputs { flags, cells };
    if is_resent(&rules.columns, state, place, line, &inputs) {
        return Ok(Turn::Retransmission { place });
    }
    if !takes_cells(n, &state[HEAD_BYTES..], &inputs) {
        return Err(LineError::IllFormedValue);
    }
    let last = last_of(state, n, place);
    if !in_turn(last, line) {
        return Err(LineError::OutOfTurn);
    }
    if line == last as u64 {
        return Err(LineError::OtherReadings);
    }
    let number = (line % NUMBERS_BELOW) as u32;
    follow(rules, name, place, number, flags, cells, state);
    Ok(Turn::New { place, number })
}

// A record whose sender and number are read. The memory is a state.
#[tactic(auto, using(crate::proofs::laws::SentLaws::sent_refused, crate::proofs::steps::SentSteps::sender_short))]
fn take_sent(
    rules: &Rules<'_>,
    header: &Header<'_>,
    values: &[u8],
    name: &[u8],
    line: u64,
    state: &mut [u8],
) -> Result<Turn, LineError>
    requires { StateImage.STATE ≤ length state.old }
    ensures { of_rules SentTaken rules.now header.now.columns.now (length header.now.columns.now) values.now name.now line state.old state.new (judged_as result) }
{
    let n = rules.row(ENTITY_COUNT_ROW);
    let known = state[COUNT_AT] as usize;
    // neither, where the memory is a state of a bench
    if MOST_ENTITIES < n {
        return Err(LineError::NoState);
    }
    if MOST_SENDERS < known {
        return Err(LineError::NoState);
    }
    if !is_sender(name) {
        return Err(LineError::IllFormedSender);
    }
    let from = part_at(n, 0);
    // a new sender's place is the one after the last
    let place = place_of(
        &state[from..],
        SENDER_HEAD_BYTES + ENTITY_BYTES * n,
        known,
        name,
    )
    .unwrap_or(known);
    let is_full = MOST_SENDERS <= place;
    if is_full {
        return Err(LineError::NinthSender);
    }
    let mut flags = [0u8; MOST_ENTITIES];
    let mut cells = [0u8; MOST_CELL_BYTES];
    clear_flags(&mut flags, n);
    clear_cells(&mut cells, ENTITY_CELLS * n);
    if !read_values(&rules.columns, header, values, &mut flags, &mut cells) {
        return Err(LineError::IllFormedValue);
    }
    settle(rules, name, place, line, &flags, &mut cells, state)
}

/// A record under a header. The memory is a state.
#[tactic(auto, using(crate::proofs::laws::SentLaws::got_size))]
pub fn advance(
    rules: &Rules<'_>,
    header: &Header<'_>,
    values: &[u8],
    state: &mut [u8],
) -> Result<Turn, LineError>
    requires { StateImage.STATE ≤ length state.old }
    ensures { of_rules Advanced rules.now header.now.columns.now (length header.now.columns.now) values.now state.old state.new (judged_as result) }
{
    match read_sent(values, header.columns.len()) {
        None => Err(LineError::IllFormed),
        Some(Sent { size, number }) => {
            take_sent(rules, header, values, &values[0..size], number, state)
        }
    }
}
