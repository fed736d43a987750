// The fields of fired actions in a row, and the header of rows.
ghost use Rattle.std.specs.Prelude.{◌+◌, ◌*◌, ◌≤◌, length};
ghost use Rattle.cycles.specs.definitions.Row;
ghost use Rattle.cycles.specs.inner_contracts.RowMemory.{FIELD_BYTES, FIELDS_BYTES, FiredPut, FieldsPut, NamePut, HeaderPut};
ghost use Rattle.cycles.specs.definitions.Planes;
ghost use Rattle.checking.specs.inner_contracts.OfColumns.{of_file};

use crate::layout::ENTITY_CELLS;
use crate::planes::{NO_TOKEN, cell_token, is_sort};
use checking::Columns;
use checking::layout::{ENTITY_COUNT_ROW, ENTITY_ROWS, MOST_ENTITIES};
use text::classes::ACTION;

// Puts a space and the value of cell number i, if the member whose first token has that number is an action, and answers the offset after them.
#[tactic(auto, using(crate::proofs::laws::RowPuts::fired_none))]
fn put_fired(
    classes: &[u8],
    token: usize,
    cells: &[u8],
    i: usize,
    row: &mut [u8],
    at: usize,
) -> usize
    requires i_in_bounds { i * Planes.CELL_BYTES + Planes.CELL_BYTES ≤ length cells.now }
    requires at_in_bounds { at + FIELD_BYTES ≤ length row.old }
    ensures { FiredPut classes.now token cells.now i row.old at row.new result }
{
    if !is_sort(classes, token, ACTION) {
        return at;
    }
    row[at] = b' ';
    values::put_value(row, at + 1, values::cell(cells, i))
}

/// Puts the fields of all action cells, and answers the offset after them.
#[tactic(auto, using(crate::proofs::laws::RowPuts::fields_impossible))]
pub fn put_fields(classes: &[u8], d: &[u16], cells: &[u8], row: &mut [u8], at: usize) -> usize
    requires in_bounds { Planes.MOST_CELL_BYTES ≤ length cells.now }
    requires at_in_bounds { at + FIELDS_BYTES ≤ length row.old }
    ensures { FieldsPut classes.now d.now cells.now row.old at row.new result }
{
    let n = checking::row(d, ENTITY_COUNT_ROW);
    if MOST_ENTITIES < n {
        return at;
    }
    let mut next = at;
    for e in 0..n {
        for m in 0..ENTITY_CELLS {
            let i = ENTITY_CELLS * e + m;
            let token = cell_token(d, i);
            if NO_TOKEN <= token {
                break; // the entity has no further member
            }
            next = put_fired(classes, token, cells, i, row, next);
        }
    }
    next
}

// Puts a space and the name of cell number i, if the cell is an action's, and answers the offset after them.
fn put_name(columns: &Columns<'_>, i: usize, row: &mut [u8], at: usize) -> usize
    requires { at ≤ length row.old }
    ensures { of_file NamePut columns.now i
        row.old at row.new result }
{
    let token = cell_token(columns.d, i);
    if !is_sort(columns.classes, token, ACTION) {
        return at;
    }
    let entity = columns.name(columns.row(ENTITY_ROWS + i / ENTITY_CELLS) + 1);
    let member = columns.name(token + 1);
    if row.len() - at < entity.len() + member.len() + 2 {
        return at;
    }
    row[at] = b' ';
    let dot = values::put_bytes(row, at + 1, entity);
    row[dot] = b'.';
    values::put_bytes(row, dot + 1, member)
}

/// Writes the header of rows to the front, and answers its length.
#[tactic(auto, using(crate::proofs::laws::RowPuts::header_impossible))]
pub fn put_row_header(columns: &Columns<'_>, row: &mut [u8]) -> usize
    requires { Row.MOST_ROW_BYTES ≤ length row.old }
    ensures { of_file HeaderPut columns.now
        row.old row.new result }
{
    let n = columns.row(ENTITY_COUNT_ROW);
    if MOST_ENTITIES < n {
        return 0;
    }
    let end = ENTITY_CELLS * n;
    let mut at = values::put_bytes(row, 0, b"by n");
    for i in 0..end {
        at = put_name(columns, i, row, at);
    }
    at
}
