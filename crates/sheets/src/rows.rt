// The one or two rows of a printed line, from their parts.
ghost use Rattle.std.specs.List.{list_any};
ghost use Rattle.std.specs.Prelude.{◌≡◌, [], ◌∷◌, ◌++◌, ◌+◌, ◌*◌, ◌-◌, ◌≤◌, length, replicate};
ghost use Rattle.values.specs.inner_contracts.Puts.{Put};
ghost use Rattle.sheets.specs.definitions.Layout;
ghost use Rattle.sheets.specs.definitions.Layout.{right_aligned};
ghost use Rattle.sheets.specs.definitions.Rows.{is_set_real, half, cell_columns, sheet_row, line_rows};
ghost use Rattle.sheets.specs.definitions.Sheet.{with_feeds};
ghost use Rattle.sheets.specs.definitions.Sizes;

use crate::layout::{CELL_COLUMNS, HALF_DIGITS, NUMBER_COLUMNS, REAL_DIGITS, SHEET_COLUMNS};
use values::Value;

// ---- columns

#[tactic(auto, using(values::proofs::laws::PutLaws::put_filled))]
fn put_spaces(out: &mut [u8], at: usize, count: usize) -> usize
    requires { at + count ≤ length out.old }
    ensures { Put (replicate count 32) out.old at out.new result }
{
    let end = at + count;
    out[at..end].fill(b' ');
    end
}

// A text, right aligned in `width` columns.
fn put_right(out: &mut [u8], at: usize, width: usize, t: &[u8]) -> usize
    requires { (length t.now ≤ width) × (at + width ≤ length out.old) }
    ensures { Put (right_aligned width t.now) out.old at out.new result }
{
    let spaced = put_spaces(out, at, width - t.len());
    values::put_bytes(out, spaced, t)
}

/// Closes a row that began at `start` and has its text to `end`: fills it with spaces, and puts a line feed.
pub fn close_row(out: &mut [u8], start: usize, end: usize) -> usize
    requires { (start ≤ end) × (end ≤ start + Layout.SHEET_COLUMNS) × (start + Sizes.SHEET_ROW_BYTES ≤ length out.old) }
    ensures { Put (replicate (start + Layout.SHEET_COLUMNS - end) 32 ++ 10 ∷ []) out.old end out.new result }
{
    let filled = put_spaces(out, end, start + SHEET_COLUMNS - end);
    values::put_bytes(out, filled, b"\n")
}

// ---- values

#[tactic(auto, using(values::proofs::laws::RealLaws::no_nan), unfolding(crate::specs::definitions::Rows::is_set_real))]
fn is_set_real(v: Value) -> bool
    ensures { result ≡ is_set_real v }
{
    matches!(v, Value::Real(x) if !x.is_nan())
}

fn has_set_real(values: &[Value]) -> bool
    ensures { result ≡ list_any is_set_real values.now }
{
    values.iter().any(|&v| is_set_real(v))
}

/// Puts what a value shows in the first row or, `below`, in the second, right aligned in `width` columns.
#[tactic(auto, using(crate::proofs::laws::RowLaws::printed_fits))]
pub fn put_half(out: &mut [u8], at: usize, width: usize, below: bool, v: Value) -> usize
    requires { (Layout.CELL_COLUMNS ≤ width) × (at + width ≤ length out.old) }
    ensures { Put (right_aligned width (half below v)) out.old at out.new result }
{
    let mut text = [0u8; REAL_DIGITS];
    let end = values::put_value(&mut text, 0, v);
    if is_set_real(v) {
        if below {
            return put_right(out, at, width, &text[HALF_DIGITS..]);
        }
        return put_right(out, at, width, &text[..HALF_DIGITS]);
    }
    if below {
        return put_right(out, at, width, b"");
    }
    put_right(out, at, width, &text[0..end])
}

// The values, each in its columns.
fn put_columns(out: &mut [u8], at: usize, below: bool, values: &[Value]) -> usize
    requires few { length values.now ≤ Layout.MOST_CHOSEN }
    requires room { at + Layout.CELL_COLUMNS * length values.now ≤ length out.old }
    ensures { Put (cell_columns below values.now) out.old at out.new result }
{
    let mut end = at;
    for &v in values {
        end = put_half(out, end, CELL_COLUMNS, below, v);
    }
    end
}

// ---- rows

#[tactic(auto, using(crate::proofs::laws::LayoutLaws::length_right))]
fn put_sheet_row(out: &mut [u8], at: usize, below: bool, lead: &[u8], values: &[Value]) -> usize
    requires { (length lead.now ≤ Layout.NUMBER_COLUMNS) × (length values.now ≤ Layout.MOST_CHOSEN) × (at + Sizes.SHEET_ROW_BYTES ≤ length out.old) }
    ensures { Put (with_feeds (sheet_row below lead.now values.now ∷ [])) out.old at out.new result }
{
    let columns = put_right(out, at, NUMBER_COLUMNS, lead);
    let end = put_columns(out, columns, below, values);
    close_row(out, at, end)
}

/// Puts the rows of the line of number `n`, whose chosen cells read the values.
#[tactic(auto, using(crate::proofs::laws::RowLaws::decimal_text, values::proofs::laws::FormLaws::decimal_most))]
pub fn put_line(out: &mut [u8], at: usize, n: u64, values: &[Value]) -> usize
    requires { (length values.now ≤ Layout.MOST_CHOSEN) × (at + Sizes.MOST_LINE_BYTES ≤ length out.old) }
    ensures { Put (with_feeds (line_rows (record { number = n; values = values.now }))) out.old at out.new result }
{
    let mut number = [0u8; NUMBER_COLUMNS];
    let end = values::put_decimal(&mut number, 0, n);
    let first = put_sheet_row(out, at, false, &number[0..end], values);
    if has_set_real(values) {
        return put_sheet_row(out, first, true, b"", values);
    }
    first
}
