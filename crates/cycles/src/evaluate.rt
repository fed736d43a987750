// What references mean under a binding, and the write of a value there.
ghost use Rattle.std.specs.Prelude.{◌≡◌, ◌≤◌, length};
ghost use Rattle.cycles.specs.inner_contracts.Evaluation;
ghost use Rattle.cycles.specs.inner_contracts.Evaluation.{bound, Put};
ghost use Rattle.cycles.specs.inner_contracts.AllRules.{EntityAdded};
ghost use Rattle.checking.specs.definitions.PriorityFaults;

use crate::layout::{ENTITY_CELLS, MOST_CELL_BYTES, MOST_CELLS};
use checking::layout::{FIRST_VARIABLE_8, NO_MEMBER_8};
use values::Value;

// A rule's second variable, as a reference.
const SECOND_VARIABLE: u8 = FIRST_VARIABLE_8 + 1;

/// The entities of a rule's variables, at most three: a byte for each, the first variable's the lowest.
// One number, which stays in a register: as `[u8; 3]` the heavy benchmark's cycles took 5 % more, since a byte was put and the whole read at once.
#[derive(Clone, Copy)]
pub struct Binding {
    pub entities: u32,
}

/// The entity that a reference means.
#[tactic(auto, unfolding(crate::specs::inner_contracts::Evaluation::bound))]
pub fn bound(b: Binding, r: u8) -> u8
    ensures { result ≡ bound b r }
{
    if r < FIRST_VARIABLE_8 {
        return r;
    }
    if r == FIRST_VARIABLE_8 {
        return (b.entities % 256) as u8;
    }
    if r == SECOND_VARIABLE {
        return (b.entities / 256 % 256) as u8;
    }
    (b.entities / 65536 % 256) as u8
}

/// The binding with entity e for variable number `level`, the next one.
#[tactic(auto, using(crate::proofs::steps::BindingPuts::entity_added))]
pub fn with_entity(b: Binding, level: u8, e: u8) -> Binding
    ensures { EntityAdded b level e result }
{
    if level == 0 {
        return Binding { entities: e as u32 };
    }
    if level == 1 {
        return Binding {
            entities: b.entities % 256 + 256 * (e as u32),
        };
    }
    Binding {
        entities: b.entities % 65536 + 65536 * (e as u32),
    }
}

/// The write of a value to member m of entity e, by a rule of this priority, if it is to be made and there is such a member.
#[tactic(auto, using(crate::proofs::steps::EvaluationLaws::writes_put))]
pub fn put(area: &mut [u8], made: bool, priority: u8, e: u8, m: u8, v: Value)
    requires in_bounds { Evaluation.MOST_PENDING_BYTES ≤ length area.old }
    requires priority_bound { priority ≤ PriorityFaults.MOST_PRIORITY }
    ensures { Put area.old made priority e m v area.new }
{
    if !made {
        return;
    }
    if NO_MEMBER_8 <= m {
        return;
    }
    let i = (e as usize) * ENTITY_CELLS + (m as usize);
    if MOST_CELLS <= i {
        return;
    }
    writes::put_write(area, MOST_CELL_BYTES, i, priority, v);
}
