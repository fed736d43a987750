// Planes: flags and cells in memory, of the stores and of what is kept of a line.
ghost use Rattle.std.specs.Prelude.{◌≡◌, ◌+◌, ◌*◌, ◌≤◌, length, get_or, take};
ghost use Rattle.values.specs.definitions.Bytes.{word_at, low_first, overwritten};
ghost use Rattle.checking.specs.definitions.CountFaults;
ghost use Rattle.checking.specs.inner_contracts.Directory;
ghost use Rattle.cycles.specs.definitions.Planes;
ghost use Rattle.cycles.specs.definitions.Planes.{is_unset_cell, is_blank_cell, is_set_cell, is_value_cell, store_fits, kept_fits, flags_below};
ghost use Rattle.cycles.specs.inner_contracts.CellTokens.{CellToken, SortTest};
ghost use Rattle.values.specs.inner_contracts.Puts.{Put};
ghost use Rattle.cycles.specs.inner_contracts.PlaneMemory.{KindTest, fit_of, CellTest, CellsTest, bound_of, PlaneTest, StoresTest};
ghost use Rattle.cycles.specs.inner_contracts.PlaneMemory.{gathered, StoresGathered};

use crate::layout::{
    CELL_BYTES, ENTITY_BYTES, ENTITY_CELL_BYTES, ENTITY_CELLS, KEPT_FLAGS, NO_READING, STORE_FLAGS,
};
use crate::rules::Rules;
use checking::layout::{
    ENTITY_COUNT_ROW, ENTITY_INTERFACE_ROWS, INTERFACE_COUNT_ROW, MEMBER_COUNT_ROWS, MEMBER_ROWS,
    MOST_ENTITIES, MOST_MEMBERS,
};
use checking::row;
use text::classes::{ACTION, ATTRIBUTE, BOOL, EVENT, WHOLE};
use text::walks::class_at;
use values::{finite_bits, put_bytes, word_at};

/// No token's number.
pub const NO_TOKEN: usize = 65536;

/// The planes: now, one cycle before, and what is kept of a line.
#[derive(Clone, Copy)]
pub enum Plane {
    Now,
    Previous,
    Kept,
}

/// The first token of the member whose cell has number i; NO_TOKEN where the bench has no such member.
#[tactic(auto, using(crate::proofs::laws::CellTokenLaws::token_no_interface))]
pub fn cell_token(d: &[u16], i: usize) -> usize
    ensures { CellToken d.now i result }
{
    let e = i / ENTITY_CELLS;
    let m = i % ENTITY_CELLS;
    if row(d, ENTITY_COUNT_ROW) <= e {
        return NO_TOKEN;
    }
    let face = row(d, ENTITY_INTERFACE_ROWS + e);
    if row(d, INTERFACE_COUNT_ROW) <= face {
        return NO_TOKEN;
    }
    if row(d, MEMBER_COUNT_ROWS + face) <= m {
        return NO_TOKEN;
    }
    row(d, MEMBER_ROWS + face * MOST_MEMBERS + m)
}

/// Whether the member whose first token has number `at` has the sort that the class says.
#[tactic(auto, using(crate::proofs::laws::CellTokenLaws::no_token_no_sort, crate::proofs::laws::CellTokenLaws::sort_by_class))]
pub fn is_sort(classes: &[u8], at: usize, class: u8) -> bool
    ensures { SortTest classes.now at class result }
{
    if NO_TOKEN <= at {
        return false;
    }
    class_at(classes, at) == class
}

// ---- tests of a tag and a payload

#[tactic(auto, unfolding(crate::specs::definitions::Planes::is_unset_cell))]
fn is_unset_cell(t: u8, w: u64) -> bool
    ensures { result ≡ is_unset_cell t w }
{
    t == 0 && w == 0
}

#[tactic(auto, unfolding(crate::specs::definitions::Planes::is_blank_cell))]
fn is_blank_cell(t: u8, w: u64) -> bool
    ensures { result ≡ is_blank_cell t w }
{
    t == NO_READING && w == 0
}

// A set value's, of the kind that the class says.
#[tactic(auto, unfolding(crate::specs::definitions::Planes::is_set_cell, checking::specs::inner_contracts::Directory::kind_class))]
fn is_set_cell(kind: u8, t: u8, w: u64) -> bool
    ensures { KindTest is_set_cell kind t w result }
{
    if kind == WHOLE {
        return t == 1 && w < 4294967296;
    }
    if kind == BOOL {
        return t == 2 && w < 2;
    }
    t == 3 && finite_bits(w)
}

#[tactic(auto, using(crate::proofs::laws::PlaneTestLaws::value_unset, crate::proofs::laws::PlaneTestLaws::value_set))]
fn is_value_cell(kind: u8, t: u8, w: u64) -> bool
    ensures { KindTest is_value_cell kind t w result }
{
    is_unset_cell(t, w) || is_set_cell(kind, t, w)
}

// What a store's cell may hold, by the first token of its member: an attribute's may be unset, or must be set.
#[tactic(auto, using(crate::proofs::laws::PlaneTestLaws::store_tests))]
fn store_fits(must_be_set: bool, classes: &[u8], at: usize, t: u8, w: u64) -> bool
    ensures { CellTest (store_fits must_be_set) classes.now at t w result }
{
    if NO_TOKEN <= at {
        return is_unset_cell(t, w);
    }
    let sort = class_at(classes, at);
    let kind = class_at(classes, at + 3);
    if !must_be_set {
        return is_value_cell(kind, t, w);
    }
    if sort == ATTRIBUTE {
        return is_set_cell(kind, t, w);
    }
    is_value_cell(kind, t, w)
}

// The same of a cell that is kept of a line: readings at events, fired actions at actions.
#[tactic(auto, using(crate::proofs::laws::PlaneTestLaws::kept_tests))]
fn kept_fits(classes: &[u8], at: usize, t: u8, w: u64) -> bool
    ensures { CellTest kept_fits classes.now at t w result }
{
    if NO_TOKEN <= at {
        return is_blank_cell(t, w);
    }
    let sort = class_at(classes, at);
    let kind = class_at(classes, at + 3);
    if sort == ACTION {
        return is_value_cell(kind, t, w);
    }
    if is_blank_cell(t, w) {
        return true;
    }
    if sort == EVENT {
        return is_value_cell(kind, t, w);
    }
    false
}

// The same of a plane's cell, by whether the plane has its entity present.
#[tactic(auto, unfolding(crate::specs::inner_contracts::PlaneMemory::fit_of))]
fn fits(plane: Plane, present: bool, classes: &[u8], at: usize, t: u8, w: u64) -> bool
    ensures { CellTest (fit_of plane present) classes.now at t w result }
{
    match plane {
        Plane::Now => store_fits(true, classes, at, t, w),
        Plane::Previous => store_fits(present, classes, at, t, w),
        Plane::Kept => kept_fits(classes, at, t, w),
    }
}

// ---- tests of the parts

#[tactic(auto, using(crate::proofs::laws::TableLaws::each_fails, crate::proofs::laws::TableLaws::each_goes_on, crate::proofs::laws::TableLaws::each_ends))]
fn flags_below(flags: &[u8], n: usize, bound: u8) -> bool
    requires { n ≤ length flags.now }
    ensures { result ≡ flags_below bound n flags.now }
{
    for e in 0..n {
        if bound <= flags[e] {
            return false;
        }
    }
    true
}

#[tactic(auto, using(crate::proofs::laws::PlaneTestLaws::cells_tests))]
fn cells_fit(plane: Plane, classes: &[u8], d: &[u16], flags: &[u8], cells: &[u8]) -> bool
    requires d_in_bounds { get_or d.now Directory.ENTITY_COUNT_ROW 0 ≤ length flags.now }
    requires d_in_bounds_2 { Planes.ENTITY_CELL_BYTES * get_or d.now Directory.ENTITY_COUNT_ROW 0 ≤ length cells.now }
    ensures { CellsTest plane classes.now d.now flags.now cells.now result }
{
    let end = ENTITY_CELLS * row(d, ENTITY_COUNT_ROW);
    for i in 0..end {
        let present = flags[i / ENTITY_CELLS] == 1;
        let at = i * CELL_BYTES;
        let w = word_at(cells, at + 1);
        if !fits(plane, present, classes, cell_token(d, i), cells[at], w) {
            return false;
        }
    }
    true
}

#[tactic(auto, unfolding(crate::specs::inner_contracts::PlaneMemory::bound_of))]
fn flag_bound(plane: Plane) -> u8
    ensures { result ≡ bound_of plane }
{
    match plane {
        Plane::Now | Plane::Previous => STORE_FLAGS,
        Plane::Kept => KEPT_FLAGS,
    }
}

/// Whether memory begins with such a plane of the bench.
#[tactic(auto, using(crate::proofs::laws::PlaneTestLaws::length_behind, crate::proofs::laws::PlaneTestLaws::plane_flags_fail, crate::proofs::laws::PlaneTestLaws::plane_cells_say))]
pub fn plane_fits(plane: Plane, classes: &[u8], d: &[u16], memory: &[u8]) -> bool
    requires { Planes.ENTITY_BYTES * get_or d.now Directory.ENTITY_COUNT_ROW 0 ≤ length memory.now }
    ensures { PlaneTest plane classes.now d.now memory.now result }
{
    let n = row(d, ENTITY_COUNT_ROW);
    if !flags_below(memory, n, flag_bound(plane)) {
        return false;
    }
    cells_fit(plane, classes, d, memory, &memory[n..])
}

/// Whether memory begins with stores of the bench.
#[tactic(auto, using(crate::proofs::laws::PlaneTestLaws::stores_tests))]
pub fn are_stores(classes: &[u8], d: &[u16], memory: &[u8]) -> bool
    requires { Planes.MOST_STORES_BYTES ≤ length memory.now }
    ensures { StoresTest classes.now d.now memory.now result }
{
    let n = row(d, ENTITY_COUNT_ROW);
    if MOST_ENTITIES < n {
        return false;
    }
    let previous = ENTITY_BYTES * n;
    if !plane_fits(Plane::Now, classes, d, memory) {
        return false;
    }
    plane_fits(Plane::Previous, classes, d, &memory[previous..])
}

// ---- reading and writing

/// The number at the front of memory.
pub fn number(memory: &[u8]) -> u32
    requires { Planes.NUMBER_BYTES ≤ length memory.now }
    ensures { result ≡ word_at Planes.NUMBER_BYTES memory.now 0 }
{
    u32::from_le_bytes(*memory.first_chunk::<4>().unwrap())
}

/// Puts a number to the front of memory.
pub fn put_number(memory: &mut [u8], n: u32)
    requires { Planes.NUMBER_BYTES ≤ length memory.old }
    ensures { memory.new ≡ overwritten memory.old 0 (low_first Planes.NUMBER_BYTES n) }
{
    memory[0..4].copy_from_slice(&n.to_le_bytes());
}

// Puts the first bytes of an area, and answers the offset after them.
fn put_front(memory: &mut [u8], at: usize, area: &[u8], count: usize) -> usize
    requires count_in_bounds { count ≤ length area.now }
    requires count_in_bounds_2 { at + count ≤ length memory.old }
    ensures { (result ≡ at + count) × Put (take count area.now) memory.old at memory.new result }
{
    put_bytes(memory, at, &area[0..count])
}

/// Puts a plane of n entities, gathered from areas of its flags and its cells, and answers the offset after it.
pub fn put_plane(memory: &mut [u8], at: usize, flags: &[u8], cells: &[u8], n: usize) -> usize
    requires n_in_bounds { (n ≤ length flags.now) × (Planes.ENTITY_CELL_BYTES * n ≤ length cells.now) }
    requires n_in_bounds_2 { at + Planes.ENTITY_BYTES * n ≤ length memory.old }
    ensures { (result ≡ at + Planes.ENTITY_BYTES * n)
        × Put (gathered n flags.now cells.now) memory.old at memory.new result }
{
    let next = put_front(memory, at, flags, n);
    put_front(memory, next, cells, ENTITY_CELL_BYTES * n)
}

/// Puts two stores of the same presence.
#[tactic(auto, using(crate::proofs::laws::GatheredLaws::none_gathered, crate::proofs::laws::GatheredLaws::both_gathered))]
pub fn put_stores(
    rules: &Rules<'_>,
    flags: &[u8],
    now_cells: &[u8],
    previous_cells: &[u8],
    memory: &mut [u8],
)
    requires in_bounds { (CountFaults.MOST_ENTITIES ≤ length flags.now) × (Planes.MOST_CELL_BYTES ≤ length now_cells.now)
        × (Planes.MOST_CELL_BYTES ≤ length previous_cells.now) }
    requires in_bounds_2 { Planes.MOST_STORES_BYTES ≤ length memory.old }
    ensures { StoresGathered (get_or rules.now.columns.d.now Directory.ENTITY_COUNT_ROW 0) flags.now
        now_cells.now previous_cells.now memory.old memory.new }
{
    let n = rules.row(ENTITY_COUNT_ROW);
    if MOST_ENTITIES < n {
        return;
    }
    let next = put_plane(memory, 0, flags, now_cells, n);
    put_plane(memory, next, flags, previous_cells, n);
}
