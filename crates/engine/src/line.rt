// A line on a bench whose columns are lent: whatever stands in them, and what it comes to where an accepted text does.
ghost use Rattle.std.specs.Prelude.{◌≡◌, ◌≤◌, length};
ghost use Rattle.checking.specs.definitions.Verdict.{accepted_file};
ghost use Rattle.senders.specs.definitions.Fingerprint.{fingerprint};
ghost use Rattle.senders.specs.definitions.StateImage;
ghost use Rattle.engine.specs.definitions.Calls;
ghost use Rattle.engine.specs.definitions.Calls.{line_on_bench};
ghost use Rattle.engine.specs.inner_contracts.LineMemory.{Standing, StandingForAny, ShortRow, RecordTaken, after_line};

use crate::refusal::Refusal;
use cycles::Rules;
use cycles::header::Header;
use cycles::layout::MOST_COLUMNS;
use senders::fingerprint::fingerprint;
use senders::{Turn, advance, is_state, show_place};

/// Takes a record under a header that is read, on memory that is a state: the length of its sender's row, or a refusal.
pub fn take_record(
    rules: &Rules<'_>,
    header: &Header<'_>,
    values: &[u8],
    state: &mut [u8],
    row: &mut [u8],
) -> Result<usize, Refusal>
    requires { (StateImage.STATE ≤ length state.old) × (Calls.ROW ≤ length row.old) }
    ensures short { ShortRow result }
    ensures taken { StandingForAny rules.now (λ text. RecordTaken text header.now.columns.now (length header.now.columns.now) values.now state.old row.old state.new row.new result) }
{
    match advance(rules, header, values, state)? {
        Turn::New { place, .. } => Ok(show_place(&rules.columns, state, place, row)),
        Turn::Retransmission { place } => Ok(show_place(&rules.columns, state, place, row)),
    }
}

/// Takes a header and a record: the length of the sender's row, or a refusal.
pub fn take_line(
    rules: &Rules<'_>,
    names: &[u8],
    values: &[u8],
    state: &mut [u8],
    row: &mut [u8],
) -> Result<usize, Refusal>
    requires { (StateImage.STATE ≤ length state.old) × (Calls.ROW ≤ length row.old) }
    ensures short { ShortRow result }
    ensures taken { Standing rules.now (λ text. after_line result state.new row.new
        ≡ line_on_bench (fingerprint text) (accepted_file text) state.old names.now values.now row.old) }
{
    if !is_state(&rules.columns, fingerprint(rules.columns.text), state) {
        return Err(Refusal::NoState);
    }
    let mut columns = [0u16; MOST_COLUMNS];
    match Header::read(&rules.columns, names, &mut columns) {
        None => Err(Refusal::Header),
        Some(header) => take_record(rules, &header, values, state, row),
    }
}
