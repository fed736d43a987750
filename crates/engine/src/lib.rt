// The engine's entry points: a bench file is checked once; then each line of readings is one call.
//
// Every call that is lent memory to write answers with one number: document 01's number in its low 8 bits, 0 for acceptance, and above them the
// offset of a refused text or the length of a written row or sheet. The two others refuse nothing: `bench_byte_class` answers with the class of a
// byte, `bench_entity_name` with the length and the offset of a name, above low 8 bits that are 0. Nothing lent is trusted: memory may have any bytes
// and any length, and a refusal changes none of it.
#![tactic(auto)]

pub mod bench; // the bench image
pub mod line; // a line on a bench in columns
pub mod refusal; // why a call is refused
pub mod room; // an accepted text in columns
pub mod serve; // a call on a bench's text

ghost use Rattle.engine.specs.definitions.Calls.{CheckContract, FreshContract, LineContract, HeaderContract, RowContract, SheetContract};
ghost use Rattle.engine.specs.definitions.Calls.{ClassContract, EntityContract};
ghost use Rattle.engine.specs.inner_contracts.Refusals.{answer_of};

use bench::text_of;
use checking::entity_span;
use checking::layout::MOST_BYTES;
use cycles::layout::{MOST_ROW_BYTES, NUMBER_BYTES};
use days::sheet::is_short;
use refusal::{Refusal, answer, room_for};
use senders::layout::STATE;
use serve::{Check, Fresh, Header, Line, Row, Sheet, serve};
use text::class_of_byte;

// Stated sizes, as that of a state: memory that is shorter is refused by 31.
const BENCH: usize = NUMBER_BYTES + MOST_BYTES;

const ROW: usize = MOST_ROW_BYTES;

// Checks a bench file and writes its image: 31, 11 to 18 or 44 with the offset of the fault, or 0.
pub fn bench_check(text: &[u8], bench: &mut [u8]) -> u64
    ensures { CheckContract text.now bench.old bench.new result }
{
    answer(check_text(text, bench))
}

#[tactic(auto, using(crate::proofs::steps::EntryLaws::check_short))]
fn check_text(text: &[u8], bench: &mut [u8]) -> Result<usize, Refusal>
    ensures { CheckContract text.now bench.old bench.new (answer_of result) }
{
    room_for(bench, BENCH)?;
    serve(Check, text, &mut [], bench)
}

// Writes the fresh state of a checked bench: 31, 32, or 0.
pub fn bench_fresh(bench: &[u8], state: &mut [u8]) -> u64
    ensures { FreshContract bench.now state.old state.new result }
{
    answer(put_fresh_state(bench, state))
}

#[tactic(auto, using(crate::proofs::steps::EntryLaws::fresh_no_bench, crate::proofs::steps::EntryLaws::fresh_short))]
fn put_fresh_state(bench: &[u8], state: &mut [u8]) -> Result<usize, Refusal>
    ensures { FreshContract bench.now state.old state.new (answer_of result) }
{
    room_for(bench, BENCH)?;
    room_for(state, STATE)?;
    serve(Fresh, text_of(bench), state, &mut [])
}

// Takes one line, a header and a record: moves the state on and writes the row of the line's sender. A line that is sent again leaves the state and
// gives its row again. 31, 32, 33, 22, 21, 43, 42, 23, 24, 25, or 0 with the row's length.
pub fn bench_line(
    bench: &[u8],
    state: &mut [u8],
    names: &[u8],
    values: &[u8],
    row: &mut [u8],
) -> u64
    ensures { LineContract bench.now state.old names.now values.now row.old state.new
        row.new result }
{
    answer(put_line(bench, state, names, values, row))
}

#[tactic(auto, using(crate::proofs::steps::EntryLaws::line_no_bench, crate::proofs::steps::EntryLaws::line_no_state, crate::proofs::steps::EntryLaws::line_short))]
fn put_line(
    bench: &[u8],
    state: &mut [u8],
    names: &[u8],
    values: &[u8],
    row: &mut [u8],
) -> Result<usize, Refusal>
    ensures { LineContract bench.now state.old names.now values.now row.old state.new
        row.new (answer_of result) }
{
    room_for(bench, BENCH)?;
    room_for(state, STATE)?;
    room_for(row, ROW)?;
    serve(Line { names, values }, text_of(bench), state, row)
}

// Writes the row of names: 31, 32, or 0 with its length.
pub fn bench_header(bench: &[u8], row: &mut [u8]) -> u64
    ensures { HeaderContract bench.now row.old row.new result }
{
    answer(put_header(bench, row))
}

#[tactic(auto, using(crate::proofs::steps::EntryLaws::header_no_bench, crate::proofs::steps::EntryLaws::header_short))]
fn put_header(bench: &[u8], row: &mut [u8]) -> Result<usize, Refusal>
    ensures { HeaderContract bench.now row.old row.new (answer_of result) }
{
    room_for(bench, BENCH)?;
    room_for(row, ROW)?;
    serve(Header, text_of(bench), &mut [], row)
}

// Writes the row that the state keeps for a sender: 31, 32, 33, 43, or 0 with its length.
pub fn bench_row(bench: &[u8], state: &[u8], sender: &[u8], row: &mut [u8]) -> u64
    ensures { RowContract bench.now state.now sender.now row.old row.new result }
{
    answer(put_sender_row(bench, state, sender, row))
}

#[tactic(auto, using(crate::proofs::steps::EntryLaws::row_no_bench, crate::proofs::steps::EntryLaws::row_no_state, crate::proofs::steps::EntryLaws::row_short))]
fn put_sender_row(
    bench: &[u8],
    state: &[u8],
    sender: &[u8],
    row: &mut [u8],
) -> Result<usize, Refusal>
    ensures { RowContract bench.now state.now sender.now row.old row.new (answer_of result) }
{
    room_for(bench, BENCH)?;
    room_for(state, STATE)?;
    room_for(row, ROW)?;
    serve(Row { state, sender }, text_of(bench), &mut [], row)
}

// Writes the day sheet of a text of readings, run on from a state that stays: 31, 32, 33, 41, 22, or 0 with its length.
pub fn bench_sheet(
    bench: &[u8],
    state: &[u8],
    readings: &[u8],
    cells: &[u8],
    sheet: &mut [u8],
) -> u64
    ensures { SheetContract bench.now state.now readings.now cells.now sheet.old sheet.new result }
{
    answer(put_day_sheet(bench, state, readings, cells, sheet))
}

#[tactic(auto, using(crate::proofs::steps::EntryLaws::sheet_no_bench, crate::proofs::steps::EntryLaws::sheet_no_state, crate::proofs::steps::EntryLaws::sheet_short))]
fn put_day_sheet(
    bench: &[u8],
    state: &[u8],
    readings: &[u8],
    cells: &[u8],
    sheet: &mut [u8],
) -> Result<usize, Refusal>
    ensures { SheetContract bench.now state.now readings.now cells.now sheet.old sheet.new (answer_of result) }
{
    room_for(bench, BENCH)?;
    room_for(state, STATE)?;
    if is_short(readings, sheet.len()) {
        return Err(Refusal::ShortMemory);
    }
    serve(
        Sheet {
            state,
            readings,
            cells,
        },
        text_of(bench),
        &mut [],
        sheet,
    )
}

// The class of a byte, 0 to 7, as the lexer has it: letter, digit, `_`, mark, blank, `#`, for comments only, not allowed.
pub fn bench_byte_class(byte: u8) -> u64
    ensures { ClassContract byte result }
{
    u64::from(class_of_byte(byte).number())
}

// Where the name of an entity stands in a bench text: 256 times its length and 65536 times its offset; 0 if the text has no entity with that number,
// from 0 in file order, or is refused.
pub fn bench_entity_name(text: &[u8], number: usize) -> u64
    ensures { EntityContract text.now number result }
{
    let span = entity_span(text, number);
    256 * (span.length as u64) + 65536 * (span.at as u64)
}
