// The cells that moved between two stores: those that read one value now and another before.
ghost use Rattle.std.specs.Prelude.{◌+◌, ◌*◌, ◌≤◌, ◌<◌, ◌≡◌, true, false, length, replicate};
ghost use Rattle.cell_sets.specs.definitions.Sets.{is_in};
ghost use Rattle.cell_sets.specs.inner_contracts.Adding.{Added};
ghost use Rattle.cell_sets.specs.inner_contracts.Moving.{cells_differ, cell_is_set, entity_moved, MovedSet};

use crate::bits::add;
use values::{cell, differ, is_set, word_at};

/// A piece of memory and what it was before: flags of entities, or their cells.
#[derive(Clone, Copy)]
pub struct Pair<'a> {
    pub current: &'a [u8],
    pub previous: &'a [u8],
}

// Whether the bytes of cell number `i` say that it has the value that it had. Most cells did not move, and no values are made of those: the tags are
// compared, and the 8 bytes as one number.
#[tactic(auto, using(crate::proofs::laws::MovingLaws::same_bytes_same, crate::proofs::laws::MovingLaws::no_tag_same))]
fn same_bits(cells: &Pair<'_>, i: usize) -> bool
    requires { (i * 9 + 9 ≤ length cells.now.current.now) × (i * 9 + 9 ≤ length cells.now.previous.now) }
    ensures { result ≡ true → cells_differ cells.now.current.now cells.now.previous.now i ≡ false }
{
    let at = i * 9;
    let next = at + 1;
    if cells.current[at] != cells.previous[at] {
        return false;
    }
    // both are unset, whatever their other bytes
    if cells.current[at] == 0 {
        return true;
    }
    word_at(cells.current, next) == word_at(cells.previous, next)
}

// Where bits differ values decide: the two zeros are equal.
#[tactic(auto, unfolding(crate::specs::inner_contracts::Moving::cells_differ))]
fn values_differ(cells: &Pair<'_>, i: usize) -> bool
    requires { (i * 9 + 9 ≤ length cells.now.current.now) × (i * 9 + 9 ≤ length cells.now.previous.now) }
    ensures { result ≡ cells_differ cells.now.current.now cells.now.previous.now i }
{
    if same_bits(cells, i) {
        return false;
    }
    differ(cell(cells.current, i), cell(cells.previous, i))
}

// Adds the cells of a range whose values differ.
#[tactic(auto, using(crate::proofs::steps::AddingSteps::added_begin, crate::proofs::steps::AddingSteps::added_end, crate::proofs::steps::MovingSteps::cell_passes, crate::proofs::steps::MovingSteps::cell_fails))]
fn add_differing(first: usize, end: usize, cells: &Pair<'_>, moved: &mut [u8])
    requires { (first ≤ end) × (end * 9 ≤ length cells.now.current.now) × (end * 9 ≤ length cells.now.previous.now)
        × (end ≤ 8 * length moved.old) }
    ensures { Added (cells_differ cells.now.current.now cells.now.previous.now) first end (is_in moved.old) (is_in moved.new) }
{
    for i in first..end {
        if values_differ(cells, i) {
            add(moved, 0, i);
        }
    }
}

// Adds the cells of a range that are set: those that moved if their entity is present only now, or was only before.
#[tactic(auto, using(crate::proofs::steps::AddingSteps::added_begin, crate::proofs::steps::AddingSteps::added_end, crate::proofs::steps::MovingSteps::cell_passes, crate::proofs::steps::MovingSteps::cell_fails, crate::proofs::steps::MovingSteps::set_here))]
fn add_all_set(first: usize, end: usize, cells: &[u8], moved: &mut [u8])
    requires { (first ≤ end) × (end * 9 ≤ length cells.now) × (end ≤ 8 * length moved.old) }
    ensures { Added (cell_is_set cells.now) first end (is_in moved.old) (is_in moved.new) }
{
    for i in first..end {
        if is_set(cell(cells, i)) {
            add(moved, 0, i);
        }
    }
}

// Adds the cells of an entity that moved, by its flag and the one before.
#[tactic(auto, using(crate::proofs::steps::MovingSteps::present_both, crate::proofs::steps::MovingSteps::present_now, crate::proofs::steps::MovingSteps::present_before, crate::proofs::steps::MovingSteps::present_never))]
fn add_moved(
    flag: u8,
    previous_flag: u8,
    first: usize,
    end: usize,
    cells: &Pair<'_>,
    moved: &mut [u8],
)
    requires { (first ≤ end) × (end * 9 ≤ length cells.now.current.now) × (end * 9 ≤ length cells.now.previous.now)
        × (end ≤ 8 * length moved.old) }
    ensures { Added (entity_moved flag previous_flag cells.now.current.now cells.now.previous.now) first end
        (is_in moved.old) (is_in moved.new) }
{
    match (flag == 1, previous_flag == 1) {
        (true, true) => add_differing(first, end, cells, moved),
        (true, false) => add_all_set(first, end, cells.current, moved),
        (false, true) => add_all_set(first, end, cells.previous, moved),
        (false, false) => {}
    }
}

/// Makes of an empty set that of the cells of `n` entities, `per` cells each, that read another value than before.
#[tactic(auto, using(crate::proofs::steps::MovingSteps::entity_next, crate::proofs::steps::MovingSteps::entity_within, crate::proofs::steps::MovingSteps::moved_begin, crate::proofs::steps::MovingSteps::moved_next, crate::proofs::steps::MovingSteps::moved_end))]
pub fn find_moved(n: usize, per: usize, flags: &Pair<'_>, cells: &Pair<'_>, moved: &mut [u8])
    requires flags { (n ≤ length flags.now.current.now) × (n ≤ length flags.now.previous.now) }
    requires cells { ((n * per) * 9 ≤ length cells.now.current.now) × ((n * per) * 9 ≤ length cells.now.previous.now) }
    requires room { (n * per ≤ 8 * length moved.old) × (0 < per) }
    requires empty { moved.old ≡ replicate (length moved.old) 0 }
    ensures length { length moved.new ≡ length moved.old }
    ensures moved { MovedSet per (n * per) flags.now.current.now cells.now.current.now flags.now.previous.now cells.now.previous.now
        moved.new }
{
    let mut first = 0;
    for e in 0..n {
        let end = first + per;
        add_moved(
            flags.current[e],
            flags.previous[e],
            first,
            end,
            cells,
            moved,
        );
        first = end;
    }
}
