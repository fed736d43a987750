// A store in memory, its flags and its cells lent together, and what stands there.
ghost use Rattle.std.specs.Prelude.{◌≡◌, ◌&&◌, ltb, eqb, length, get_or};
ghost use Rattle.checking.specs.inner_contracts.Directory;
ghost use Rattle.cycles.specs.inner_contracts.Evaluation.{CellRead};

use crate::layout::{CELL_BYTES, ENTITY_CELLS};
use checking::layout::NO_MEMBER_8;
use std::marker::Model;
use text::walks::class_at;
use values::Value;

/// A store: a flag for each entity, and the cells of each.
#[derive(Drop)]
pub struct Store<'a> {
    pub flags: &'a [u8],
    pub cells: &'a [u8],
}

impl<'a> Model for Store<'a> {
    ghost use Rattle.cycles.specs.inner_contracts.Bundles.{StoreMemory};

    ghost Value = { StoreMemory };

    ghost view = { λ s. record { flags = s.flags.now; cells = s.cells.now } };
}

/// What the rules see: a store, and the one before it.
#[derive(Drop)]
pub struct Stores<'a> {
    pub current: Store<'a>,
    pub previous: Store<'a>,
}

/// The readings of a line: a flag for each entity, and a value for each of its cells.
#[derive(Clone, Copy)]
pub struct Inputs<'a> {
    pub flags: &'a [u8],
    pub cells: &'a [u8],
}

impl<'a> Store<'a> {
    /// Is entity e present?
    pub fn is_present(&self, e: u8) -> bool
        ensures { result ≡ eqb (get_or self.now.flags e 0) 1 }
    {
        class_at(self.flags, e as usize) == 1
    }

    /// Is entity e present, of which member m is asked? A name that means no member has the number NO_MEMBER.
    pub fn is_present_at(&self, e: u8, m: u8) -> bool
        ensures { result ≡ (ltb m Directory.NO_MEMBER && eqb (get_or self.now.flags e 0) 1) }
    {
        m < NO_MEMBER_8 && self.is_present(e)
    }

    /// Member m of entity e, unset where the entity is absent or has no such member.
    #[tactic(auto, using(crate::proofs::steps::EvaluationLaws::cells_read))]
    pub fn read_cell(&self, e: u8, m: u8) -> Value
        ensures { CellRead self.now.flags self.now.cells e m result }
    {
        if !self.is_present_at(e, m) {
            return Value::Unset;
        }
        let i = (e as usize) * ENTITY_CELLS + (m as usize);
        if self.cells.len() < i * CELL_BYTES + CELL_BYTES {
            return Value::Unset;
        }
        values::cell(self.cells, i)
    }
}
