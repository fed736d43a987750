// A cycle: a line's inputs are applied, the rules that read what moved are tried, and the next stores are put.
ghost use Rattle.std.specs.Prelude.{◌≡◌, ◌++◌, ◌+◌, ◌*◌, ◌≤◌, ◌<◌, length, drop};
ghost use Rattle.checking.specs.definitions.CountFaults;
ghost use Rattle.cycles.specs.definitions.Planes;
ghost use Rattle.cycles.specs.definitions.Planes.{table};
ghost use Rattle.cycles.specs.inner_contracts.CycleMemory.{present_by, seen_flag, seen_value, next_value, ValueOf, any_sort, no_action};
ghost use Rattle.cycles.specs.inner_contracts.CycleMemory.{MembersPut, SeenPut, Cycled};

use crate::bindings::all_rules;
use crate::layout::{
    CELL_BYTES, ENTITY_BYTES, ENTITY_CELLS, MOST_CELL_BYTES, MOST_PENDING_BYTES, NO_READING,
};
use crate::planes::{NO_TOKEN, put_stores};
use crate::rules::Rules;
use crate::store::{Inputs, Store, Stores};
use checking::layout::{ENTITY_COUNT_ROW, MOST_ENTITIES};
use text::classes::{ACTION, ATTRIBUTE};
use values::{Value, cell, put_cell};

// ---- what the rules see

/// Is an entity present after the line? By its flags: present, and the presence that was read.
pub fn present_after(present: u8, flag: u8) -> bool
    ensures { result ≡ present_by present flag }
{
    if flag == 0 {
        return present == 1;
    }
    flag == 2
}

// Puts the flags of n entities after the line.
#[tactic(auto, using(crate::proofs::laws::TableLaws::flag_fill), unfolding(crate::specs::definitions::Planes::table))]
fn see_flags(n: usize, present: &[u8], inputs: &Inputs<'_>, seen: &mut [u8])
    requires { (n ≤ length present.now) × (n ≤ length inputs.now.flags.now) × (n ≤ length seen.old) }
    ensures { seen.new ≡ table (seen_flag present.now inputs.now.flags.now) 0 n ++ drop n seen.old }
{
    for e in 0..n {
        seen[e] = u8::from(present_after(present[e], inputs.flags[e]));
    }
}

// A line: the store before it, who is present after it, and what was read.
#[derive(Clone, Copy)]
struct Line<'a> {
    before: &'a Store<'a>,
    seen: &'a [u8],
    inputs: &'a Inputs<'a>,
}

// Cell number i after the line: its reading, or what it was; unset if its entity leaves and it is no attribute.
#[tactic(auto, using(crate::proofs::steps::SeenLaws::values_seen))]
fn seen_value(rules: &Rules<'_>, line: &Line<'_>, i: usize) -> Value
    requires i_bound { (i < Planes.ENTITY_CELLS * length line.now.before.now.flags) × (i < Planes.ENTITY_CELLS * length line.now.seen.now) }
    requires i_in_bounds { (i * Planes.CELL_BYTES + Planes.CELL_BYTES ≤ length line.now.before.now.cells) × (i * Planes.CELL_BYTES + Planes.CELL_BYTES ≤ length line.now.inputs.now.cells.now) }
    ensures { ValueOf rules.now.columns.classes.now rules.now.columns.d.now
        (seen_value line.now.before.now.flags line.now.seen.now line.now.before.now.cells line.now.inputs.now.cells.now) i result }
{
    let Inputs { cells, .. } = line.inputs;
    if cells[i * CELL_BYTES] != NO_READING {
        return cell(cells, i);
    }
    let e = i / ENTITY_CELLS;
    let before = line.before;
    let leaves = before.flags[e] == 1 && line.seen[e] != 1;
    if leaves && !rules.is_sort(rules.cell_token(i), ATTRIBUTE) {
        return Value::Unset;
    }
    cell(before.cells, i)
}

// Puts the cells of n entities after the line over unset cells; a cell of no member stays unset.
fn see_cells(rules: &Rules<'_>, n: usize, line: &Line<'_>, out: &mut [u8])
    requires n_in_bounds { (n ≤ length line.now.before.now.flags) × (n ≤ length line.now.seen.now) }
    requires n_in_bounds_2 { (Planes.ENTITY_CELL_BYTES * n ≤ length line.now.before.now.cells) × (Planes.ENTITY_CELL_BYTES * n ≤ length line.now.inputs.now.cells.now)
        × (Planes.ENTITY_CELL_BYTES * n ≤ length out.old) }
    ensures { MembersPut rules.now.columns.classes.now rules.now.columns.d.now any_sort
        (seen_value line.now.before.now.flags line.now.seen.now line.now.before.now.cells line.now.inputs.now.cells.now) (Planes.ENTITY_CELLS * n)
        out.old out.new }
{
    for e in 0..n {
        for m in 0..ENTITY_CELLS {
            let i = ENTITY_CELLS * e + m;
            if NO_TOKEN <= rules.cell_token(i) {
                break; // the entity has no further member
            }
            put_cell(out, i, seen_value(rules, line, i));
        }
    }
}

// ---- what the cycle leaves

// Puts what the rules saw in cell number i, unless the member whose first token has that number is an action: that stands as it was written.
fn put_seen(rules: &Rules<'_>, token: usize, cells: &[u8], i: usize, area: &mut [u8])
    requires { (i * Planes.CELL_BYTES + Planes.CELL_BYTES ≤ length cells.now) × (i * Planes.CELL_BYTES + Planes.CELL_BYTES ≤ length area.old) }
    ensures { SeenPut rules.now.columns.classes.now token cells.now i area.old area.new }
{
    if rules.is_sort(token, ACTION) {
        return;
    }
    put_cell(area, i, cell(cells, i));
}

// Makes of the area, which has the writes, the cells of n entities after the cycle. An action's stands as it was written, and a cell of no member is unset.
fn put_next(rules: &Rules<'_>, n: usize, cells: &[u8], area: &mut [u8])
    requires { (Planes.ENTITY_CELL_BYTES * n ≤ length cells.now) × (Planes.ENTITY_CELL_BYTES * n ≤ length area.old) }
    ensures { MembersPut rules.now.columns.classes.now rules.now.columns.d.now no_action (next_value cells.now area.old) (Planes.ENTITY_CELLS * n)
        area.old area.new }
{
    for e in 0..n {
        for m in 0..ENTITY_CELLS {
            let i = ENTITY_CELLS * e + m;
            let token = rules.cell_token(i);
            if NO_TOKEN <= token {
                break; // the entity has no further member
            }
            put_seen(rules, token, cells, i, area);
        }
    }
}

/// The cycle of a line. The area of writes begins as unset cells to which nothing was written: bytes of 0.
#[tactic(auto, using(crate::proofs::steps::CycleMemoryLaws::cycle_impossible))]
pub fn cycle(rules: &Rules<'_>, inputs: &Inputs<'_>, stores: &mut [u8])
    requires in_bounds { (CountFaults.MOST_ENTITIES ≤ length inputs.now.flags.now) × (Planes.MOST_CELL_BYTES ≤ length inputs.now.cells.now) }
    requires in_bounds_2 { Planes.MOST_STORES_BYTES ≤ length stores.old }
    ensures { Cycled rules.now.columns.classes.now rules.now.literals.now rules.now.columns.d.now rules.now.references.now rules.now.scopes.now
        inputs.now.flags.now inputs.now.cells.now stores.old stores.new }
{
    let n = rules.row(ENTITY_COUNT_ROW);
    if MOST_ENTITIES < n {
        return;
    }
    let previous = ENTITY_BYTES * n;
    let previous_cells = previous + n;
    let mut flags = [0u8; MOST_ENTITIES];
    let mut cells = [0u8; MOST_CELL_BYTES];
    let mut area = [0u8; MOST_PENDING_BYTES];
    let memory = &stores[..];
    let before = Store {
        flags: memory,
        cells: &memory[n..],
    };
    see_flags(n, memory, inputs, &mut flags);
    let line = Line {
        before: &before,
        seen: &flags,
        inputs: &*inputs,
    };
    see_cells(rules, n, &line, &mut cells);
    let seen = Stores {
        current: Store {
            flags: &flags,
            cells: &cells,
        },
        previous: Store {
            flags: &memory[previous..],
            cells: &memory[previous_cells..],
        },
    };
    all_rules(rules, &seen, &mut area);
    put_next(rules, n, &cells, &mut area);
    put_stores(rules, &flags, &area, &cells, stores);
}
