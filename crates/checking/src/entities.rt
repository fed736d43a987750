// The entities of a file: each one's interface by its number, and the faults of their names and kinds.
ghost use Rattle.checking.specs.inner_contracts.DeclarationWalk.{EntitiesLinked, AssignmentEnd, Sets};
ghost use Rattle.checking.specs.inner_contracts.DeclarationWalk.{AttributeFound, KindFound, AssignmentsFound, UnsetFound, EntityFound};
ghost use Rattle.checking.specs.inner_contracts.DeclarationWalk.{EntitiesFound};
ghost use Rattle.std.specs.Prelude.{◌<◌, IfSome, unwrap_or};
ghost use Rattle.checking.specs.definitions.CountFaults;
ghost use Rattle.checking.specs.definitions.Scope.{is_attribute};
ghost use Rattle.checking.specs.inner_contracts.Directory;
ghost use Rattle.checking.specs.inner_contracts.DirectoryReads.{MemberPart};
ghost use Rattle.checking.specs.inner_contracts.OfColumns.{of_file, of_tokens};

use crate::columns::Columns;
use crate::faults::{Fault, FaultKind, Faults, earlier, unless};
use crate::interfaces::repeated;
use crate::kinds::{kinds_fit, literal_kind};
use crate::layout::{
    DIRECTORY, ENTITY_COUNT_ROW, ENTITY_INTERFACE_ROWS, ENTITY_ROWS, INTERFACE_COUNT_ROW,
    INTERFACE_ROWS, MOST_ENTITIES, NO_INTERFACE,
};
use crate::table::row;
use text::classes;
use text::walks::class_at;

// Writes the interface of each entity into the directory, by its number; NO_INTERFACE if the file has none of that name.
#[tactic(auto, using(crate::proofs::steps::LinkLaws::not_linked, crate::proofs::steps::LinkLaws::linking_none))]
pub fn link_entities(text: &[u8], offsets: &[u16], lengths: &[u8], d: &mut [u16])
    ensures { EntitiesLinked text.now offsets.now lengths.now d.old d.new }
{
    if d.len() < DIRECTORY {
        return;
    }
    let count = row(d, ENTITY_COUNT_ROW).min(MOST_ENTITIES);
    for e in 0..count {
        // names are found without the tokens' classes
        let columns = Columns {
            text,
            classes: &[],
            offsets,
            lengths,
            d,
        };
        let name = columns.name(columns.row(ENTITY_ROWS + e) + 3);
        let interface = columns.first_named(INTERFACE_ROWS, columns.interfaces(), name);
        d[ENTITY_INTERFACE_ROWS + e] = interface.unwrap_or(NO_INTERFACE) as u16;
    }
}

// ---- the assignments of an entity

// What the assignments of an entity have, and the number of the token after them.
#[derive(Clone, Copy)]
struct Assigned {
    again: Option<Fault>,
    members: Option<Fault>,
    kinds: Option<Fault>,
    end: usize,
}

// The last token of the assignment that begins at token number q.
#[tactic(auto, using(crate::proofs::laws::AssignmentLaws::assignment_ends))]
pub fn assignment_end(classes: &[u8], q: usize) -> usize
    ensures { AssignmentEnd classes.now q result }
{
    let size = classes.len();
    if size <= q {
        return q;
    }
    if size - q <= 3 {
        return q;
    }
    let at = q + 2;
    if class_at(classes, at) == classes::MINUS {
        return at + 1;
    }
    at
}

// Does an assignment from token number `from` up to number `to` set the name of token number i?
#[tactic(auto, using(crate::proofs::laws::AssignmentLaws::looking_turns))]
fn sets(columns: &Columns<'_>, from: usize, to: usize, i: usize) -> bool
    ensures { of_tokens Sets columns.now from to i result }
{
    let mut q = from;
    while q < to {
        if columns.classes.len() <= q {
            return false;
        }
        if columns.same_name(i, q) {
            return true;
        }
        q = assignment_end(columns.classes, q) + 1;
    }
    false
}

// Is member number m of interface number `face` an attribute?
#[tactic(auto, using(crate::proofs::laws::AssignmentLaws::attribute_told))]
fn is_attribute(columns: &Columns<'_>, face: usize, m: usize) -> bool
    ensures { MemberPart columns.now.classes.now columns.now.d.now face m (λ x. is_attribute x.sort) result }
{
    columns.member_sort(face, m) == classes::ATTRIBUTE
}

// The fault of the name at token number q, of member number m if it is one, if it is no attribute of interface number `face`.
fn attribute_fault(columns: &Columns<'_>, face: usize, m: Option<usize>, q: usize) -> Option<Fault>
    requires { IfSome m (λ k. k < Directory.NO_MEMBER) }
    ensures { AttributeFound columns.now.classes.now columns.now.offsets.now columns.now.d.now face (unwrap_or m Directory.NO_MEMBER) q result }
{
    if columns.row(INTERFACE_COUNT_ROW) <= face {
        return None;
    }
    let at = columns.offset(q);
    match m {
        Some(m) => unless(is_attribute(columns, face, m), FaultKind::Unknown, at),
        None => unless(false, FaultKind::Unknown, at),
    }
}

// The fault at the `=` of an assignment to member number m, if its literal, which ends at token number `last`, has another kind.
fn kind_fault(
    columns: &Columns<'_>,
    face: usize,
    m: Option<usize>,
    equals: usize,
    last: usize,
) -> Option<Fault>
    requires { IfSome m (λ k. k < Directory.NO_MEMBER) }
    ensures { KindFound columns.now.classes.now columns.now.offsets.now columns.now.d.now face (unwrap_or m Directory.NO_MEMBER) equals last result }
{
    let kind = Some(columns.member_kind(face, m?));
    let given = Some(literal_kind(columns.class_at(last)));
    unless(
        kinds_fit(kind, given),
        FaultKind::UnfitKinds,
        columns.offset(equals),
    )
}

// The assignments from token number `from` on, of an entity with interface number `face`.
#[tactic(auto, using(crate::proofs::steps::BodyLaws::assigning_turns), unfolding(crate::specs::inner_contracts::FoundFaults::found_as))]
fn assignment_faults(columns: &Columns<'_>, face: usize, from: usize) -> Assigned
    ensures { of_file AssignmentsFound columns.now face from result }
{
    let mut again = None;
    let mut members = None;
    let mut kinds = None;
    let mut q = from;
    while q < columns.classes.len() {
        if columns.class_at(q) != classes::NAME {
            return Assigned {
                again,
                members,
                kinds,
                end: q,
            };
        }
        let at = columns.offset(q);
        let before = sets(columns, from, q, q);
        again = earlier(again, unless(!before, FaultKind::DeclaredAgain, at));
        let m = columns.member(face, columns.name(q));
        members = earlier(members, attribute_fault(columns, face, m, q));
        let last = assignment_end(columns.classes, q);
        kinds = earlier(kinds, kind_fault(columns, face, m, q + 1, last));
        q = last + 1;
    }
    Assigned {
        again,
        members,
        kinds,
        end: q,
    }
}

// The fault at the `}`, token number `to`, of an entity that leaves out an attribute of interface number `face`.
#[tactic(auto, using(crate::proofs::steps::UnsetLaws::settled_turns), unfolding(crate::specs::inner_contracts::FoundFaults::found_as))]
fn unset_fault(columns: &Columns<'_>, face: usize, from: usize, to: usize) -> Option<Fault>
    ensures { of_file UnsetFound columns.now face from to result }
{
    if columns.row(INTERFACE_COUNT_ROW) <= face {
        return None;
    }
    for m in 0..columns.members(face) {
        if !is_attribute(columns, face, m) {
            continue;
        }
        let i = columns.member_at(face, m) + 1;
        if !sets(columns, from, to, i) {
            return Some(Fault {
                kind: FaultKind::AttributeUnset,
                at: columns.offset(to),
            });
        }
    }
    None
}

// ---- whole entities

// The faults of entity number e.
#[tactic(auto, using(crate::proofs::steps::EntityLaws::entity_told))]
fn faults_of(columns: &Columns<'_>, e: usize) -> Faults
    requires { e < CountFaults.MOST_ENTITIES }
    ensures { of_file EntityFound columns.now e result }
{
    let p = columns.row(ENTITY_ROWS + e);
    let face = columns.row(ENTITY_INTERFACE_ROWS + e);
    let from = p + 5;
    let set = assignment_faults(columns, face, from);
    let at = columns.offset(p + 3);
    let known = unless(face < NO_INTERFACE, FaultKind::Unknown, at);
    let unset = unset_fault(columns, face, from, set.end);
    Faults {
        names: earlier(earlier(earlier(known, set.again), set.members), unset),
        kinds: set.kinds,
    }
}

// The earliest faults of the entities: of their names and of the names in them, and of their kinds.
#[tactic(auto, using(crate::proofs::steps::EntityLaws::walked_all))]
pub fn entity_faults(columns: &Columns<'_>) -> Faults
    ensures { of_file EntitiesFound columns.now result }
{
    let count = columns.entities();
    let mut found = Faults {
        names: repeated(columns, ENTITY_ROWS, count),
        kinds: None,
    };
    for e in 0..count {
        found = found.join(faults_of(columns, e));
    }
    found
}
