// The row of a sender.
ghost use Rattle.std.specs.Prelude.{◌≤◌, length};
ghost use Rattle.cycles.specs.definitions.Planes;
ghost use Rattle.cycles.specs.definitions.Row;
ghost use Rattle.cycles.specs.inner_contracts.Bundles.{of_members};
ghost use Rattle.senders.specs.definitions.Sender;
ghost use Rattle.senders.specs.definitions.StateImage;
ghost use Rattle.senders.specs.inner_contracts.RowMemory.{RowPut, PlaceShown, Shown};

use crate::layout::{COUNT_AT, MOST_SENDERS, NAME_PLACE, SENDER_HEAD_BYTES};
use crate::parts::{name_of, part_at, place_of};
use checking::Columns;
use checking::layout::{ENTITY_COUNT_ROW, MOST_ENTITIES};
use cycles::layout::{ENTITY_BYTES, MOST_CELL_BYTES};
use cycles::number;
use cycles::rows::put_fields;
use values::{put_bytes, put_decimal};

// The row of a sender with this name, this last number and these fired actions: writes it to the front and answers its length.
fn put_row(columns: &Columns<'_>, name: &[u8], last: u32, cells: &[u8], row: &mut [u8]) -> usize
    requires { (length name.now ≤ Sender.MOST_NAME_BYTES) × (Planes.MOST_CELL_BYTES ≤ length cells.now) × (Row.MOST_ROW_BYTES ≤ length row.old) }
    ensures { of_members RowPut columns.now name.now last cells.now
        row.old row.new result }
{
    let space = put_bytes(row, 0, name);
    row[space] = 32;
    let at = put_decimal(row, space + 1, last as u64);
    put_fields(columns.classes, columns.d, cells, row, at)
}

/// The row of the sender at a place.
#[tactic(auto, using(crate::proofs::steps::RowSteps::place_too_many))]
pub fn show_place(columns: &Columns<'_>, state: &[u8], place: usize, row: &mut [u8]) -> usize
    requires { (StateImage.STATE ≤ length state.now) × (Row.MOST_ROW_BYTES ≤ length row.old) }
    ensures { of_members PlaceShown columns.now state.now place row.old row.new result }
{
    let n = columns.row(ENTITY_COUNT_ROW);
    // neither, where the memory is a state of a bench with such a sender
    if MOST_ENTITIES < n {
        return 0;
    }
    if MOST_SENDERS <= place {
        return 0;
    }
    let from = part_at(n, place);
    let part = &state[from..];
    let cells = SENDER_HEAD_BYTES + n;
    put_row(
        columns,
        name_of(part),
        number(&part[NAME_PLACE..]),
        &part[cells..],
        row,
    )
}

/// The row of the sender of a name: of one that is not known, 0 and nothing fired.
#[tactic(auto, using(crate::proofs::steps::RowSteps::shown_too_many))]
pub fn show(columns: &Columns<'_>, state: &[u8], name: &[u8], row: &mut [u8]) -> usize
    requires name { length name.now ≤ Sender.MOST_NAME_BYTES }
    requires room { (StateImage.STATE ≤ length state.now) × (Row.MOST_ROW_BYTES ≤ length row.old) }
    ensures { of_members Shown columns.now state.now name.now row.old row.new result }
{
    let n = columns.row(ENTITY_COUNT_ROW);
    let known = state[COUNT_AT] as usize;
    // neither, where the memory is a state of a bench
    if MOST_ENTITIES < n {
        return 0;
    }
    if MOST_SENDERS < known {
        return 0;
    }
    let from = part_at(n, 0);
    let size = SENDER_HEAD_BYTES + ENTITY_BYTES * n;
    match place_of(&state[from..], size, known, name) {
        Some(place) => show_place(columns, state, place, row),
        None => put_row(columns, name, 0, &[0; MOST_CELL_BYTES], row),
    }
}
