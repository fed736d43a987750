// The fresh stores of a bench.
ghost use Rattle.std.specs.Prelude.{◌≡◌, ◌∷◌, ◌+◌, ◌*◌, ◌≤◌, length, replicate};
ghost use Rattle.values.specs.definitions.Bytes.{low_first};
ghost use Rattle.text.specs.definitions.Syntax.{whole_number, real_number, literal_value};
ghost use Rattle.cycles.specs.definitions.Planes;
ghost use Rattle.values.specs.inner_contracts.Puts.{Put};
ghost use Rattle.cycles.specs.inner_contracts.FreshMemory.{NumberAt, LiteralAt, AssignedValue, FreshCell, FreshCellsPut, FreshPut};
ghost use Rattle.cycles.specs.inner_contracts.Bundles.{of_literals};
ghost use Rattle.checking.specs.inner_contracts.OfColumns.{of_tokens};

use crate::layout::{CELL_BYTES, ENTITY_CELLS};
use crate::planes::{cell_token, is_sort};
use checking::Columns;
use checking::layout::{ENTITY_COUNT_ROW, ENTITY_ROWS, MOST_ENTITIES};
use text::classes::{ATTRIBUTE, FALSE, MINUS, NAME, TRUE, WHOLE_NUMBER};
use text::walks::value_at;
use values::{Packed, Value, pack, put_word};

// ---- literals

#[tactic(auto, unfolding(text::specs::definitions::Syntax::literal_value))]
fn whole_value(negative: bool, n: u32) -> Value
    ensures { result ≡ literal_value (whole_number negative n) }
{
    let z = i64::from(n);
    if negative {
        return values::fit(-z);
    }
    values::fit(z)
}

#[tactic(auto, unfolding(text::specs::definitions::Syntax::literal_value))]
fn real_value(negative: bool, n: u32) -> Value
    ensures { result ≡ literal_value (real_number negative n) }
{
    let x = f64::from(n);
    if negative {
        return values::settle(-x);
    }
    values::settle(x)
}

#[tactic(auto, using(crate::proofs::steps::LiteralValues::number_whole, crate::proofs::steps::LiteralValues::number_real))]
fn number_value(classes: &[u8], values: &[u32], negative: bool, i: usize) -> Value
    ensures { NumberAt classes.now values.now negative i result }
{
    let n = value_at(values, i);
    if text::walks::class_at(classes, i) == WHOLE_NUMBER {
        return whole_value(negative, n);
    }
    real_value(negative, n)
}

// The value of the literal whose first token has number i.
#[tactic(auto, using(crate::proofs::steps::LiteralValues::literals_found))]
fn literal_value(classes: &[u8], values: &[u32], i: usize) -> Value
    ensures { LiteralAt classes.now values.now i result }
{
    if classes.len() <= i {
        return Value::Unset;
    }
    match classes[i] {
        TRUE => Value::Truth(true),
        FALSE => Value::Truth(false),
        MINUS => number_value(classes, values, true, i + 1),
        _ => number_value(classes, values, false, i),
    }
}

// ---- initial values

// What the assignments from token number `from` on set the name of token number i to.
#[tactic(auto, using(crate::proofs::steps::FreshValues::assigning_turns))]
fn assigned_value(columns: &Columns<'_>, values: &[u32], from: usize, i: usize) -> Value
    ensures { of_tokens AssignedValue columns.now values.now from i result }
{
    let mut q = from;
    while q < columns.classes.len() {
        if columns.classes[q] != NAME {
            return Value::Unset;
        }
        if columns.same_name(i, q) {
            return literal_value(columns.classes, values, q + 2);
        }
        q = checking::entities::assignment_end(columns.classes, q) + 1;
    }
    Value::Unset
}

// The value of cell number i.
#[tactic(auto, using(crate::proofs::steps::FreshValues::values_found))]
fn fresh_value(columns: &Columns<'_>, literals: &[u32], i: usize) -> Value
    ensures { of_literals FreshCell columns.now literals.now i result }
{
    let token = cell_token(columns.d, i);
    if !is_sort(columns.classes, token, ATTRIBUTE) {
        return Value::Unset;
    }
    let from = columns.row(ENTITY_ROWS + i / ENTITY_CELLS) + 5;
    assigned_value(columns, literals, from, token + 1)
}

// ---- the parts of the stores, each put from `at` on; the answer is the offset after it

// A run of one byte.
#[tactic(auto, using(values::proofs::laws::PutLaws::put_filled))]
fn put_run(state: &mut [u8], at: usize, count: usize, byte: u8) -> usize
    requires { at + count ≤ length state.old }
    ensures { Put (replicate count byte) state.old at state.new result }
{
    let end = at + count;
    state[at..end].fill(byte);
    end
}

fn put_tagged(state: &mut [u8], at: usize, cell: Packed) -> usize
    requires { at + Planes.CELL_BYTES ≤ length state.old }
    ensures end { result ≡ at + Planes.CELL_BYTES }
    ensures put { Put (cell.tag ∷ low_first 8 cell.word) state.old at state.new result }
{
    let next = at + 1;
    state[at] = cell.tag;
    put_word(state, next, cell.word);
    at + CELL_BYTES
}

fn put_fresh_cells(
    columns: &Columns<'_>,
    literals: &[u32],
    count: usize,
    state: &mut [u8],
    at: usize,
) -> usize
    requires { at + Planes.CELL_BYTES * count ≤ length state.old }
    ensures { of_literals FreshCellsPut columns.now literals.now count state.old at state.new result }
{
    let mut end = at;
    for i in 0..count {
        end = put_tagged(state, end, pack(fresh_value(columns, literals, i)));
    }
    end
}

/// Puts the fresh stores of a bench: every entity present, its cells as its assignments say; nobody and no cell before.
#[tactic(auto, using(crate::proofs::steps::FreshPlanes::fresh_impossible))]
pub fn put_fresh_stores(columns: &Columns<'_>, literals: &[u32], stores: &mut [u8])
    requires { Planes.MOST_STORES_BYTES ≤ length stores.old }
    ensures { of_literals FreshPut columns.now literals.now stores.old stores.new }
{
    let n = columns.row(ENTITY_COUNT_ROW);
    if MOST_ENTITIES < n {
        return;
    }
    let count = ENTITY_CELLS * n;
    let flags = put_run(stores, 0, n, 1);
    let cells = put_fresh_cells(columns, literals, count, stores, flags);
    // an absent entity's flag and an unset cell are zeros
    let previous = put_run(stores, cells, n, 0);
    put_run(stores, previous, CELL_BYTES * count, 0);
}
