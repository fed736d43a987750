// The set of the cells that one rule reads: cells put into it.
ghost use Rattle.std.specs.Prelude.{◌<◌, ◌≤◌, ◌&&◌, eqb, length};
ghost use Rattle.checking.specs.definitions.CountFaults;
ghost use Rattle.cycles.specs.definitions.Planes;
ghost use Rattle.cycles.specs.inner_contracts.ReadSets;
ghost use Rattle.reads.specs.inner_contracts.ReadSteps.{CellsAdded, has_face, can_refer};

use cell_sets::add;
use checking::layout::{
    ENTITY_COUNT_ROW, ENTITY_INTERFACE_ROWS, FIRST_VARIABLE, MOST_ENTITIES, MOST_VARIABLES,
    NO_MEMBER, SCOPE_ROWS,
};
use checking::row;
use cycles::layout::{ENTITY_CELLS, READ_SET_BYTES, READ_SETS_AT};
use text::walks::class_at;

// Puts member number m of entity number e into the set of rule number k.
#[tactic(auto, using(crate::proofs::steps::SetSteps::cell_added))]
fn add_cell(scopes: &mut [u8], k: usize, e: usize, m: usize)
    requires { (k < CountFaults.MOST_RULES) × (e < CountFaults.MOST_ENTITIES) × (m < Planes.ENTITY_CELLS) × (ReadSets.SCOPES_BYTES ≤ length scopes.old) }
    ensures { CellsAdded k (λ a b. eqb e a && eqb m b) scopes.old scopes.new }
{
    add(
        scopes,
        READ_SETS_AT + READ_SET_BYTES * k,
        e * ENTITY_CELLS + m,
    );
}

// Puts member number m of each entity of interface number `face` into the set of rule number k.
fn add_cells_of(d: &[u16], scopes: &mut [u8], k: usize, face: usize, m: usize)
    requires { (k < CountFaults.MOST_RULES) × (m < Planes.ENTITY_CELLS) × (ReadSets.SCOPES_BYTES ≤ length scopes.old) }
    ensures { CellsAdded k (λ a b. has_face d.now face a && eqb m b) scopes.old scopes.new }
{
    let count = row(d, ENTITY_COUNT_ROW);
    for e in 0..MOST_ENTITIES {
        if count <= e {
            return;
        }
        if row(d, ENTITY_INTERFACE_ROWS + e) != face {
            continue;
        }
        add_cell(scopes, k, e, m);
    }
}

/// Puts member number m of what reference r can mean into the set of rule number k.
#[tactic(auto, using(crate::proofs::steps::SetSteps::no_member_added))]
pub fn add_reads(d: &[u16], scopes: &mut [u8], k: usize, r: usize, m: usize)
    requires { (k < CountFaults.MOST_RULES) × (ReadSets.SCOPES_BYTES ≤ length scopes.old) }
    ensures { CellsAdded k (λ e b. can_refer d.now scopes.old k r e && eqb m b) scopes.old scopes.new }
{
    if NO_MEMBER <= m {
        return;
    }
    if r < FIRST_VARIABLE {
        add_cell(scopes, k, r, m);
        return;
    }
    let v = r - FIRST_VARIABLE;
    if MOST_VARIABLES <= v {
        return;
    }
    let face = usize::from(class_at(scopes, SCOPE_ROWS * k + 1 + v));
    add_cells_of(d, scopes, k, face, m);
}
