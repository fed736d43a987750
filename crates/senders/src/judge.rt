// What a state says to a line that is read: tests of memory.
ghost use Rattle.std.specs.Prelude.{◌≡◌, ◌*◌, ◌+◌, ◌≤◌, ◌<◌, length, get_or};
ghost use Rattle.checking.specs.inner_contracts.Directory;
ghost use Rattle.cycles.specs.definitions.Planes;
ghost use Rattle.cycles.specs.inner_contracts.Bundles.{of_members, entities_of};
ghost use Rattle.cycles.specs.definitions.Planes.{each};
ghost use Rattle.senders.specs.definitions.Line.{in_turn};
ghost use Rattle.senders.specs.inner_contracts.Judging.{takes_cell, SameReading, SameRead};

use crate::layout::GREATEST_NUMBER;
use checking::Columns;
use checking::layout::ENTITY_COUNT_ROW;
use cycles::cycle::present_after;
use cycles::layout::{CELL_BYTES, ENTITY_CELLS, NO_READING};
use cycles::{Inputs, cell_token, is_sort};
use text::classes::ACTION;
use values::same_bytes;

// Does cell number i have no reading, or is its entity present after the line?
#[tactic(auto, unfolding(crate::specs::inner_contracts::Judging::takes_cell))]
fn takes_cell(present: &[u8], inputs: &Inputs<'_>, i: usize) -> bool
    requires { (i < Planes.ENTITY_CELLS * length present.now) × (i < Planes.ENTITY_CELLS * length inputs.now.flags.now) × (i * Planes.CELL_BYTES < length inputs.now.cells.now) }
    ensures { result ≡ takes_cell present.now inputs.now.flags.now inputs.now.cells.now i }
{
    let at = i * CELL_BYTES;
    if inputs.cells[at] == NO_READING {
        return true;
    }
    let e = i / ENTITY_CELLS;
    present_after(present[e], inputs.flags[e])
}

/// Do all the cells of n entities?
#[tactic(auto, using(crate::proofs::steps::JudgeSteps::call_fails, crate::proofs::steps::JudgeSteps::call_passes, cycles::proofs::laws::TableLaws::each_ends))]
pub fn takes_cells(n: usize, present: &[u8], inputs: &Inputs<'_>) -> bool
    requires { (n ≤ length present.now) × (n ≤ length inputs.now.flags.now) × (Planes.ENTITY_CELL_BYTES * n ≤ length inputs.now.cells.now) }
    ensures { result ≡ each (takes_cell present.now inputs.now.flags.now inputs.now.cells.now) 0 (Planes.ENTITY_CELLS * n) }
{
    for i in 0..ENTITY_CELLS * n {
        if !takes_cell(present, inputs, i) {
            return false;
        }
    }
    true
}

/// Is it the number of a sender's last line, or the next one?
#[tactic(auto, unfolding(crate::specs::definitions::Line::in_turn))]
pub fn in_turn(last: u32, number: u64) -> bool
    ensures { result ≡ in_turn last number }
{
    let last = u64::from(last);
    number != 0 && number <= GREATEST_NUMBER && (number == last || number == last + 1)
}

// Is the reading of cell number i the one that is kept? An action has none.
#[tactic(auto, using(crate::proofs::steps::JudgeSteps::action_same, crate::proofs::steps::JudgeSteps::bytes_same))]
fn same_reading(columns: &Columns<'_>, kept: &[u8], cells: &[u8], i: usize) -> bool
    requires { (i * Planes.CELL_BYTES + Planes.CELL_BYTES ≤ length kept.now) × (i * Planes.CELL_BYTES + Planes.CELL_BYTES ≤ length cells.now) }
    ensures { of_members SameReading columns.now kept.now cells.now i result }
{
    if is_sort(columns.classes, cell_token(columns.d, i), ACTION) {
        return true;
    }
    let at = i * CELL_BYTES;
    let end = at + CELL_BYTES;
    same_bytes(&kept[at..end], &cells[at..end])
}

/// Are a line's readings those that a sender's plane keeps?
#[tactic(auto, using(crate::proofs::steps::JudgeSteps::flags_differ, crate::proofs::steps::JudgeSteps::readings_begin, crate::proofs::steps::JudgeSteps::readings_go_on))]
pub fn same_readings(columns: &Columns<'_>, plane: &[u8], inputs: &Inputs<'_>) -> bool
    requires plane_room { Planes.ENTITY_BYTES * entities_of columns.now ≤ length plane.now }
    requires inputs_room { (entities_of columns.now ≤ length inputs.now.flags.now) × (Planes.ENTITY_CELL_BYTES * entities_of columns.now ≤ length inputs.now.cells.now) }
    ensures { of_members SameRead columns.now plane.now inputs.now.flags.now inputs.now.cells.now result }
{
    let n = columns.row(ENTITY_COUNT_ROW);
    if !same_bytes(&plane[0..n], &inputs.flags[0..n]) {
        return false;
    }
    let kept = &plane[n..];
    for i in 0..ENTITY_CELLS * n {
        if !same_reading(columns, kept, inputs.cells, i) {
            return false;
        }
    }
    true
}
