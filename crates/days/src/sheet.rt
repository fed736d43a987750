// The day sheet of a text of readings, run on from a state that stays.
ghost use Rattle.std.specs.List.{count_by};
ghost use Rattle.std.specs.Prelude.{eqb, position, ◌≡◌, ℕ, ◌+◌, ◌*◌, ◌≤◌, ◌<◌, ltb, length, get_or, take, drop};
ghost use Rattle.sheets.specs.definitions.Layout;
ghost use Rattle.sheets.specs.definitions.Sizes;
ghost use Rattle.cycles.specs.definitions.Readings.{lines};
ghost use Rattle.senders.specs.definitions.StateImage;
ghost use Rattle.cycles.specs.inner_contracts.Bundles.{of_bench, of_rules};
ghost use Rattle.days.specs.definitions.DaySheet.{sheet_size};
ghost use Rattle.days.specs.inner_contracts.Choosing;
ghost use Rattle.days.specs.inner_contracts.SheetMemory.{code_of, sheeted_as, LineEnd, Stepped, DayPut, SheetPut};

use crate::choosing::{Chosen, choose, read_chosen, real_cells};
use cycles::Rules;
use cycles::header::Header;
use cycles::layout::MOST_COLUMNS;
use senders::fingerprint::fingerprint;
use senders::layout::STATE;
use senders::{Turn, advance, is_state};
use sheets::layout::{MOST_CHOSEN, MOST_CLOSING_BYTES, MOST_LINE_BYTES};
use sheets::{folded_values, no_folds, put_closings, put_line};

// The stated size of a sheet for readings without a line feed.
const LEAST_SIZE: usize = MOST_CHOSEN * MOST_CLOSING_BYTES;

/// Why a day sheet is refused.
#[derive(Clone, Copy, Debug, PartialEq, Eq)]
pub enum SheetError {
    Header,
    NoState,
    Chosen, // the list of chosen cells
}

impl SheetError {
    /// The number that the documents give it.
    pub const fn code(self) -> u8
        ensures { result ≡ code_of self }
    {
        match self {
            SheetError::Header => 22,
            SheetError::NoState => 33,
            SheetError::Chosen => 41,
        }
    }
}

fn line_feeds(readings: &[u8]) -> usize
    ensures { result ≡ count_by (λ b. eqb b 10) readings.now }
{
    readings.iter().filter(|&&b| b == b'\n').count()
}

/// Is memory of so many bytes shorter than the stated size? A product that could overflow is not formed.
#[tactic(auto, using(crate::proofs::steps::LineSteps::size_short, crate::proofs::steps::LineSteps::size_told))]
pub fn is_short(readings: &[u8], size: usize) -> bool
    ensures { result ≡ ltb size (sheet_size readings.now) }
{
    if size < LEAST_SIZE {
        return true;
    }
    (size - LEAST_SIZE) / MOST_LINE_BYTES < line_feeds(readings)
}

// How many bytes stand before the first line feed, if there is one.
fn first_feed(line: &[u8]) -> Option<usize>
    ensures { result ≡ position (λ b. eqb b 10) line.now }
{
    line.iter().position(|&b| b == b'\n')
}

// Where the line that starts at `at` ends: at its line feed, or at the text's end.
fn line_end(readings: &[u8], at: usize) -> usize
    requires { at ≤ length readings.now }
    ensures { LineEnd readings.now at result }
{
    match first_feed(&readings[at..]) {
        Some(size) => at + size,
        None => readings.len(),
    }
}

// Takes a record: the number of a new line; any other leaves the state.
fn step(rules: &Rules<'_>, header: &Header<'_>, values: &[u8], state: &mut [u8]) -> Option<u32>
    requires { StateImage.STATE ≤ length state.old }
    ensures { of_rules Stepped rules.now header.now.columns.now (length header.now.columns.now) values.now state.old state.new result }
{
    match advance(rules, header, values, state) {
        Ok(Turn::New { number, .. }) => Some(number),
        Ok(Turn::Retransmission { .. }) => None,
        Err(_) => None,
    }
}

// The lines from `from` on, and the closing rows: writes the sheet to the front and answers its length. The state moves on.
fn put_day(
    rules: &Rules<'_>,
    header: &Header<'_>,
    chosen: &Chosen<'_>,
    readings: &[u8],
    from: usize,
    state: &mut [u8],
    sheet: &mut [u8],
) -> usize
    requires state { StateImage.STATE ≤ length state.old }
    requires room { Layout.MOST_CHOSEN * Sizes.MOST_CLOSING_BYTES + Sizes.MOST_LINE_BYTES * length (lines (drop from readings.now)) ≤ length sheet.old }
    ensures { of_rules DayPut rules.now header.now.columns.now (length header.now.columns.now) chosen.now.spots.now (length chosen.now.spots.now) readings.now from state.old sheet.old sheet.new result }
{
    let count = chosen.spots.len();
    let mut folds = no_folds();
    let mut end: usize = 0;
    let mut at = from;
    // no loop over parts between line feeds: a last line feed ends a line, and begins none
    while at < readings.len() {
        let stop = line_end(readings, at);
        if let Some(number) = step(rules, header, &readings[at..stop], state) {
            // by second names: the borrow checker does not cover a call's result that is laid in an array
            let read = read_chosen(&rules.columns, state, chosen);
            let values = read;
            end = put_line(sheet, end, number as u64, &values[..count]);
            let more = folded_values(folds, &values[..count]);
            folds = more;
        }
        at = stop + 1;
    }
    let told = real_cells(&rules.columns, chosen.spots);
    let reals = told;
    put_closings(sheet, end, &reals[..count], folds)
}

// The run works on a copy: the state that is lent stays.
fn copy_state(state: &[u8], copy: &mut [u8])
    requires { (StateImage.STATE ≤ length state.now) × (length copy.old ≡ StateImage.STATE) }
    ensures { copy.new ≡ take StateImage.STATE state.now }
{
    copy.copy_from_slice(&state[..STATE]);
}

/// The sheet on a bench in columns, whose rules' names are resolved.
pub fn put_sheet(
    rules: &Rules<'_>,
    state: &[u8],
    readings: &[u8],
    cells: &[u8],
    sheet: &mut [u8],
) -> Result<usize, SheetError>
    requires state { StateImage.STATE ≤ length state.now }
    requires room { sheet_size readings.now ≤ length sheet.old }
    ensures { of_bench SheetPut rules.now state.now readings.now cells.now sheet.old sheet.new (sheeted_as result) }
{
    let bench = &rules.columns;
    if !is_state(bench, fingerprint(bench.text), state) {
        return Err(SheetError::NoState);
    }
    let mut spots = [0u16; MOST_CHOSEN];
    let Some(chosen) = choose(bench, cells, &mut spots) else {
        return Err(SheetError::Chosen);
    };
    let end = line_end(readings, 0);
    let mut columns = [0u16; MOST_COLUMNS];
    let Some(header) = Header::read(bench, &readings[0..end], &mut columns) else {
        return Err(SheetError::Header);
    };
    let mut copy = [0u8; STATE];
    copy_state(state, &mut copy);
    Ok(put_day(rules, &header, &chosen, readings, end + 1, &mut copy, sheet))
}
