// The columns of a token table with the text they stand for, and the directory of its file, lent together; and what they say.
ghost use Rattle.std.specs.Prelude.{◌≡◌, ◌<◌, ◌≤◌, min, length, get_or, drop};
ghost use Rattle.std.proofs.Math.ListN.{get_elem?};
ghost use Rattle.values.specs.definitions.Bytes.{same_bytes};
ghost use Rattle.checking.specs.definitions.CountFaults;
ghost use Rattle.checking.specs.inner_contracts.Directory;
ghost use Rattle.checking.specs.inner_contracts.Directory.{sort_class, interface_number};
ghost use Rattle.checking.specs.inner_contracts.Directory.{entity_number, member_number, member_count_row};
ghost use Rattle.checking.specs.inner_contracts.DirectoryReads.{FirstNamed, Numbered, MemberRow, MemberPart, FewMembers};
ghost use Rattle.checking.specs.inner_contracts.OfColumns.{name_of, of_names};

use crate::layout::{
    ENTITY_COUNT_ROW, ENTITY_ROWS, INTERFACE_COUNT_ROW, INTERFACE_ROWS, MEMBER_COUNT_ROWS,
    MEMBER_ROWS, MOST_ENTITIES, MOST_INTERFACES, MOST_MEMBERS, MOST_RULES, RULE_COUNT_ROW,
};
use crate::table;
use text::walks;
use values::{Kind, same_bytes};

/// A text, a row of the token table's columns for each of its tokens, and the directory of its file.
#[derive(Clone, Copy)]
pub struct Columns<'a> {
    pub text: &'a [u8],
    pub classes: &'a [u8],
    pub offsets: &'a [u16],
    pub lengths: &'a [u8],
    pub d: &'a [u16],
}

impl<'a> Columns<'a> {
    /// The class of token number i.
    pub fn class_at(&self, i: usize) -> u8
        ensures { result ≡ get_or self.now.classes.now i 0 }
    {
        walks::class_at(self.classes, i)
    }

    /// The offset of token number i.
    pub fn offset(&self, i: usize) -> u32
        ensures { result ≡ get_or self.now.offsets.now i 0 }
    {
        table::row(self.offsets, i) as u32
    }

    /// A row of the directory.
    pub fn row(&self, i: usize) -> usize
        ensures { (result ≡ get_or self.now.d.now i 0) × (result < 65536) }
    {
        table::row(self.d, i)
    }

    /// The row of member number m of interface number `face`, or 0.
    pub fn member_at(&self, face: usize, m: usize) -> usize
        ensures { MemberRow self.now.d.now face m result }
    {
        table::member_at(self.d, face, m)
    }

    /// The class that says the sort of member number m of interface number `face`.
    pub fn member_sort(&self, face: usize, m: usize) -> u8
        ensures { MemberPart self.now.classes.now self.now.d.now face m (λ x. sort_class x.sort) result }
    {
        table::member_sort(self.classes, self.d, face, m)
    }

    /// The kind of member number m of interface number `face`.
    pub fn member_kind(&self, face: usize, m: usize) -> Kind
        ensures { MemberPart self.now.classes.now self.now.d.now face m (λ x. x.kind) result }
    {
        table::member_kind(self.classes, self.d, face, m)
    }

    /// The bytes of token number i: those that the text has of them.
    pub fn name(&self, i: usize) -> &'a [u8]
        ensures bytes { result.now ≡ name_of self.now i }
        ensures short { length result.now < 256 }
    {
        table::name(self.text, self.offsets, self.lengths, i)
    }

    pub fn same_name(&self, i: usize, j: usize) -> bool
        ensures { result ≡ same_bytes (name_of self.now i)
            (name_of self.now j) }
    {
        table::same_name(self.text, self.offsets, self.lengths, i, j)
    }

    /// How many interfaces the directory has: 16 at most, even if its row says more.
    pub fn interfaces(&self) -> usize
        ensures { result ≡ min (get_or self.now.d.now Directory.INTERFACE_COUNT_ROW 0) CountFaults.MOST_INTERFACES }
    {
        self.row(INTERFACE_COUNT_ROW).min(MOST_INTERFACES)
    }

    /// How many members interface number `face` has in the directory, in the same way 12 at most.
    pub fn members(&self, face: usize) -> usize
        requires { face < 65536 }
        ensures { result ≡ min (get_or self.now.d.now (member_count_row face) 0) CountFaults.MOST_MEMBERS }
    {
        self.row(MEMBER_COUNT_ROWS + face).min(MOST_MEMBERS)
    }

    /// How many entities the directory has, 32 at most.
    pub fn entities(&self) -> usize
        ensures { result ≡ min (get_or self.now.d.now Directory.ENTITY_COUNT_ROW 0) CountFaults.MOST_ENTITIES }
    {
        self.row(ENTITY_COUNT_ROW).min(MOST_ENTITIES)
    }

    /// How many rules the directory has, 64 at most.
    pub fn rules(&self) -> usize
        ensures { result ≡ min (get_or self.now.d.now Directory.RULE_COUNT_ROW 0) CountFaults.MOST_RULES }
    {
        self.row(RULE_COUNT_ROW).min(MOST_RULES)
    }

    /// The rows of the directory from `base` on.
    pub(crate) fn rows_from(&self, base: usize) -> &'a [u16]
        ensures { result.now ≡ drop base self.now.d.now }
    {
        if self.d.len() <= base {
            return &self.d[0..0];
        }
        &self.d[base..]
    }

    /// The first of `count` items of the directory, in the rows from `base` on, that has this name.
    #[tactic(auto, using(crate::proofs::laws::CalledLaws::items_passed, crate::proofs::laws::CalledLaws::item_row))]
    pub fn first_named(&self, base: usize, count: usize, name: &[u8]) -> Option<usize>
        ensures { of_names FirstNamed self.now base count name.now result }
    {
        let items = self.rows_from(base);
        for k in 0..count {
            if same_bytes(name, self.name(table::row(items, k) + 1)) {
                return Some(k);
            }
        }
        None
    }

    /// The number of the interface of this name.
    pub fn interface(&self, name: &[u8]) -> Option<usize>
        ensures { of_names Numbered self.now Directory.NO_INTERFACE
            (λ f. length f.interfaces ≤ CountFaults.MOST_INTERFACES)
            (λ f. interface_number f name.now) result }
    {
        self.first_named(INTERFACE_ROWS, self.interfaces(), name)
    }

    /// The number of the entity of this name.
    pub fn entity(&self, name: &[u8]) -> Option<usize>
        ensures { of_names Numbered self.now Directory.NO_ENTITY
            (λ f. length f.entities ≤ CountFaults.MOST_ENTITIES)
            (λ f. entity_number f name.now) result }
    {
        self.first_named(ENTITY_ROWS, self.entities(), name)
    }

    /// The number of the member of this name in interface number `face`, if there is that interface.
    pub fn member(&self, face: usize, name: &[u8]) -> Option<usize>
        ensures { of_names Numbered self.now Directory.NO_MEMBER (FewMembers face)
            (λ f. member_number (get_elem? f.interfaces face) name.now) result }
    {
        if self.row(INTERFACE_COUNT_ROW) <= face {
            return None;
        }
        self.first_named(MEMBER_ROWS + face * MOST_MEMBERS, self.members(face), name)
    }
}
