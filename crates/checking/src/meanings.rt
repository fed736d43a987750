// What the names in a rule mean: an entity, or a variable of the rule, and a member of its interface.
ghost use Rattle.std.specs.Prelude.{◌≡◌, ◌&&◌, eqb};
ghost use Rattle.values.specs.definitions.Bytes.{same_bytes};
ghost use Rattle.text.specs.definitions.Tokens;
ghost use Rattle.checking.specs.inner_contracts.RuleParts.{Declaration, RepeatedAt, Repeated, Meant, SortFits, CellOf, Declared};
ghost use Rattle.checking.specs.inner_contracts.OfColumns.{name_of, of_file, of_names, of_tokens};

use crate::columns::Columns;
use crate::faults::{Fault, FaultKind, earlier, unless};
use crate::layout::{ENTITY_INTERFACE_ROWS, INTERFACE_COUNT_ROW, NO_INTERFACE};
use text::classes::{ACTION, COLON, END, EVENT, NAME};
use text::walks::{class_at, skip};
use values::Kind;

/// A member by its name: its kind, if it is there, and what is at fault in the name.
#[derive(Clone, Copy)]
pub struct Cell {
    pub kind: Option<Kind>,
    pub fault: Option<Fault>,
}

// Does a token before one of this class declare a variable named as token number i? That token is number n.
pub fn declares(columns: &Columns<'_>, class: u8, n: usize, i: usize) -> bool
    ensures { result ≡ (eqb class Tokens.COLON && same_bytes (name_of columns.now i)
        (name_of columns.now n)) }
{
    if class != COLON {
        return false;
    }
    columns.same_name(i, n)
}

// The token that first declares, in the rule that begins at `start`, a variable named as token number i; the number of tokens if none does.
#[tactic(auto, using(crate::proofs::steps::RuleNames::sought_turns))]
pub fn declaration(columns: &Columns<'_>, start: usize, i: usize) -> usize
    ensures { of_tokens Declaration columns.now start i result }
{
    let classes = columns.classes;
    let size = classes.len();
    for n in start..size {
        let class = class_at(classes, n + 1);
        if class == END {
            return size;
        }
        if declares(columns, class, n, i) {
            return n;
        }
    }
    size
}

// A fault if token number n, before one of this class, declares a variable that the rule has declared before.
#[tactic(auto, using(crate::proofs::steps::RuleNames::repeated_other, crate::proofs::steps::RuleNames::repeated_again))]
fn repeated_at(columns: &Columns<'_>, start: usize, class: u8, n: usize) -> Option<Fault>
    ensures { of_tokens RepeatedAt columns.now start class n result }
{
    if class != COLON {
        return None;
    }
    let first = declaration(columns, start, n);
    unless(first == n, FaultKind::DeclaredAgain, columns.offset(n))
}

// The first variable that the rule which begins at `start` declares again.
#[tactic(auto, using(crate::proofs::steps::RuleNames::repeating_none, crate::proofs::steps::RuleNames::repeating_on))]
pub fn repeated(columns: &Columns<'_>, start: usize) -> Option<Fault>
    ensures { of_tokens Repeated columns.now start result }
{
    let mut found = None;
    for n in start..columns.classes.len() {
        let class = columns.class_at(n + 1);
        if class == END {
            return found;
        }
        found = earlier(found, repeated_at(columns, start, class, n));
    }
    found
}

/// The interface, by its number, of what token number i means in the rule that begins at `start`, where it means anything: of an entity
/// or else of a variable of its name. NO_INTERFACE if that interface is not known.
pub fn meaning_of(columns: &Columns<'_>, start: usize, i: usize) -> Option<usize>
    ensures { of_file Meant columns.now start i result }
{
    if let Some(e) = columns.entity(columns.name(i)) {
        return Some(columns.row(ENTITY_INTERFACE_ROWS + e));
    }
    let size = columns.classes.len();
    let n = declaration(columns, start, i);
    if size <= n {
        return None;
    }
    let colon = skip(n, size);
    let face = columns.interface(columns.name(skip(colon, size)));
    Some(face.unwrap_or(NO_INTERFACE))
}

// Is a member of this sort one that is wanted: an attribute, an event, an action or, by the class of names, any?
#[tactic(auto, using(crate::proofs::steps::MeaningLaws::sorts_wanted))]
fn sort_fits(want: u8, sort: u8) -> bool
    ensures { SortFits want sort result }
{
    if want == NAME {
        return true;
    }
    if sort == want {
        return true;
    }
    if want != EVENT {
        return false;
    }
    sort == ACTION
}

// The member of interface number `face` that token number i names, where one of a sort is wanted.
#[tactic(auto, using(crate::proofs::steps::MeaningLaws::a_cell))]
pub fn cell_of(columns: &Columns<'_>, face: usize, want: u8, i: usize) -> Cell
    ensures { of_file CellOf columns.now face want i result }
{
    let at = columns.offset(i);
    let Some(m) = columns.member(face, columns.name(i)) else {
        return Cell {
            kind: None,
            fault: unless(
                columns.row(INTERFACE_COUNT_ROW) <= face,
                FaultKind::Unknown,
                at,
            ),
        };
    };
    let fits = sort_fits(want, columns.member_sort(face, m));
    Cell {
        kind: Some(columns.member_kind(face, m)),
        fault: unless(fits, FaultKind::Unknown, at),
    }
}

// What is at fault where token number n is declared as a variable, with the interface that token number i names.
pub fn declared(columns: &Columns<'_>, n: usize, i: usize) -> Option<Fault>
    ensures { of_names Declared columns.now n i result }
{
    let entity = columns.entity(columns.name(n));
    let interface = columns.interface(columns.name(i));
    let taken = unless(
        entity.is_none(),
        FaultKind::DeclaredAgain,
        columns.offset(n),
    );
    earlier(
        taken,
        unless(interface.is_some(), FaultKind::Unknown, columns.offset(i)),
    )
}
