// The closing rows of the real columns.
ghost use Rattle.std.specs.Prelude.{[], ◌∷◌, cond, ◌+◌, ◌*◌, ◌≤◌, ◌<◌, length};
ghost use Rattle.values.specs.inner_contracts.Puts.{Put};
ghost use Rattle.sheets.specs.definitions.Layout;
ghost use Rattle.sheets.specs.definitions.Closing.{column_row, two_rows, closing_rows, all_closing_rows};
ghost use Rattle.sheets.specs.definitions.Sheet.{with_feeds};
ghost use Rattle.sheets.specs.definitions.Sizes;

use crate::Fold;
use crate::layout::{CELL_COLUMNS, MOST_CHOSEN, NUMBER_COLUMNS};
use crate::rows::{close_row, put_half};
use values::Value;

// A value in the columns of chosen cell k, from 0 on, and nothing else.
#[tactic(auto, using(crate::proofs::laws::LayoutLaws::length_right, crate::proofs::laws::RowLaws::half_most))]
fn put_column_row(out: &mut [u8], at: usize, k: usize, below: bool, v: Value) -> usize
    requires { (k < Layout.MOST_CHOSEN) × (at + Sizes.SHEET_ROW_BYTES ≤ length out.old) }
    ensures { Put (with_feeds (column_row k below v ∷ [])) out.old at out.new result }
{
    let end = put_half(out, at, NUMBER_COLUMNS + CELL_COLUMNS * (k + 1), below, v);
    close_row(out, at, end)
}

fn put_two_rows(out: &mut [u8], at: usize, k: usize, x: f64) -> usize
    requires { (k < Layout.MOST_CHOSEN) × (at + Sizes.MOST_LINE_BYTES ≤ length out.old) }
    ensures { Put (with_feeds (two_rows k x)) out.old at out.new result }
{
    let a = put_column_row(out, at, k, false, Value::Real(x));
    put_column_row(out, a, k, true, Value::Real(x))
}

fn put_closing(out: &mut [u8], at: usize, k: usize, f: Fold) -> usize
    requires { (k < Layout.MOST_CHOSEN) × (at + Sizes.MOST_CLOSING_BYTES ≤ length out.old) }
    ensures { Put (with_feeds (closing_rows k f)) out.old at out.new result }
{
    if f.found {
        let a = put_two_rows(out, at, k, f.lowest);
        let b = put_two_rows(out, a, k, f.highest);
        return put_two_rows(out, b, k, f.last);
    }
    let a = put_column_row(out, at, k, false, Value::Unset);
    let b = put_column_row(out, a, k, false, Value::Unset);
    put_column_row(out, b, k, false, Value::Unset)
}

// A column that is not real has no closing rows.
fn put_closing_if_real(out: &mut [u8], at: usize, k: usize, real: bool, f: Fold) -> usize
    requires { (k < Layout.MOST_CHOSEN) × (at + Sizes.MOST_CLOSING_BYTES ≤ length out.old) }
    ensures { Put (with_feeds (cond real (closing_rows k f) [])) out.old at out.new result }
{
    if real {
        return put_closing(out, at, k, f);
    }
    at
}

/// Puts the closing rows of the columns; `reals` says which of them are real.
pub fn put_closings(out: &mut [u8], at: usize, reals: &[bool], folds: [Fold; MOST_CHOSEN]) -> usize
    requires { (length reals.now ≤ Layout.MOST_CHOSEN) × (at + Sizes.MOST_CLOSING_BYTES * length reals.now ≤ length out.old) }
    ensures { Put (with_feeds (all_closing_rows 0 reals.now folds)) out.old at out.new result }
{
    let mut end = at;
    for (k, &real) in reals.iter().enumerate() {
        end = put_closing_if_real(out, end, k, real, folds[k]);
    }
    end
}
