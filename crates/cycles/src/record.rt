// A record: its sender and number, and its values as inputs in lent memory.
ghost use Rattle.std.specs.Prelude.{◌≡◌, [], ◌∷◌, ◌++◌, ℕ, ◌+◌, ◌*◌, ◌≤◌, ◌<◌, length, get_or, drop};
ghost use Rattle.std.proofs.Math.Option.{none};
ghost use Rattle.values.specs.definitions.Bytes.{overwritten};
ghost use Rattle.checking.specs.definitions.CountFaults;
ghost use Rattle.cycles.specs.definitions.Record.{as_truth};
ghost use Rattle.cycles.specs.definitions.Planes;
ghost use Rattle.cycles.specs.definitions.Planes.{table, presence_flag, input_bytes};
ghost use Rattle.cycles.specs.inner_contracts.Bundles.{of_members};
ghost use Rattle.cycles.specs.inner_contracts.HeaderReads;
ghost use Rattle.cycles.specs.inner_contracts.LineReads.{SentRead, said, InputPut, ValuesRead};

use crate::fields::{field_start, first_mark, first_size};
use crate::header::Header;
use crate::layout::{
    CELL_BYTES, ENTITY_CELLS, ENTITY_COLUMNS, MOST_RECORD_BYTES, NO_READING, PRESENCE_COLUMN,
};
use checking::Columns;
use checking::layout::ENTITY_INTERFACE_ROWS;
use values::{Field, Value, magnitude, put_cell, put_word, read_event, read_presence};

/// What a record begins with: how many bytes at its front are its sender's, and its number.
#[derive(Clone, Copy)]
pub struct Sent {
    pub size: usize,
    pub number: u64,
}

/// The sender and the number of a record with so many values; none where it is ill formed.
pub fn read_sent(values: &[u8], count: usize) -> Option<Sent>
    ensures { SentRead count values.now result }
{
    if MOST_RECORD_BYTES < values.len() {
        return None;
    }
    if values.contains(&b'\n') {
        return None;
    }
    let size = first_mark(values, b' ')?;
    if size == 0 {
        return None;
    }
    let left = &values[size + 1..];
    let digits = first_size(left, count)?;
    let number = magnitude(&left[..digits])?;
    Some(Sent { size, number })
}

// ---- one field

// The flag of what a field says of presence.
#[tactic(auto, unfolding(crate::specs::definitions::Record::as_truth))]
fn presence_byte(field: Field) -> u8
    ensures { presence_flag (as_truth (said field)) ≡ result ∷ [] }
{
    match field {
        Ok(Some(Value::Truth(true))) => 2,
        Ok(Some(Value::Truth(false))) => 1,
        _ => 0,
    }
}

// Puts no reading into cell number i.
fn put_blank(cells: &mut [u8], i: usize)
    requires { i * Planes.CELL_BYTES + Planes.CELL_BYTES ≤ length cells.old }
    ensures { cells.new ≡ overwritten cells.old (i * Planes.CELL_BYTES) (input_bytes none) }
{
    let at = i * CELL_BYTES;
    let next = at + 1;
    cells[at] = NO_READING;
    put_word(cells, next, 0);
}

// Puts what a field says into cell number i.
fn put_said(cells: &mut [u8], i: usize, field: Field)
    requires { i * Planes.CELL_BYTES + Planes.CELL_BYTES ≤ length cells.old }
    ensures { cells.new ≡ overwritten cells.old (i * Planes.CELL_BYTES) (input_bytes (said field)) }
{
    match field {
        Ok(Some(v)) => put_cell(cells, i, v),
        _ => put_blank(cells, i),
    }
}

// Puts a field, read in column number `column`, in its place; false if it is ill formed there.
#[tactic(auto, using(crate::proofs::steps::InputLaws::presence_is_put, crate::proofs::steps::InputLaws::event_is_put))]
fn put_input(
    bench: &Columns<'_>,
    column: usize,
    field: &[u8],
    flags: &mut [u8],
    cells: &mut [u8],
) -> bool
    requires column { column < HeaderReads.NO_COLUMN }
    requires flags { CountFaults.MOST_ENTITIES ≤ length flags.old }
    requires cells { Planes.MOST_CELL_BYTES ≤ length cells.old }
    ensures { of_members InputPut bench.now column field.now flags.old cells.old flags.new cells.new result }
{
    let e = column / ENTITY_COLUMNS;
    let m = column % ENTITY_COLUMNS;
    if m == PRESENCE_COLUMN {
        let presence = read_presence(field);
        flags[e] = presence_byte(presence);
        return presence.is_ok();
    }
    let face = bench.row(ENTITY_INTERFACE_ROWS + e);
    let event = read_event(field, bench.member_kind(face, m));
    put_said(cells, e * ENTITY_CELLS + m, event);
    event.is_ok()
}

// ---- all of them

/// Puts the values of a record, from the last on, where memory has no input; false if one is ill formed.
#[tactic(auto, using(crate::proofs::steps::ValuesLaws::values_too_few))]
pub fn read_values(
    bench: &Columns<'_>,
    header: &Header<'_>,
    values: &[u8],
    flags: &mut [u8],
    cells: &mut [u8],
) -> bool
    requires flags { CountFaults.MOST_ENTITIES ≤ length flags.old }
    requires cells { Planes.MOST_CELL_BYTES ≤ length cells.old }
    ensures { of_members ValuesRead bench.now values.now header.now.columns.now (length header.now.columns.now) flags.old cells.old
        flags.new cells.new result }
{
    let mut end = values.len();
    for k in 0..header.columns.len() {
        let start = field_start(values, end, b' ');
        let column = usize::from(header.columns[k]);
        if !put_input(bench, column, &values[start..end], flags, cells) {
            return false;
        }
        if start == 0 {
            return false;
        }
        end = start - 1;
    }
    true
}

/// Puts no reading into the first `n` flags.
pub fn clear_flags(flags: &mut [u8], n: usize)
    requires { n ≤ length flags.old }
    ensures { flags.new ≡ table (λ e. 0 ∷ []) 0 n ++ drop n flags.old }
{
    flags[..n].fill(0);
}

/// Puts no reading into the first `n` cells.
pub fn clear_cells(cells: &mut [u8], n: usize)
    requires { n * Planes.CELL_BYTES ≤ length cells.old }
    ensures { cells.new ≡ table (λ i. input_bytes none) 0 n ++ drop (n * Planes.CELL_BYTES) cells.old }
{
    for i in 0..n {
        put_blank(cells, i);
    }
}
