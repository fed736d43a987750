// Names and kinds of conditions and calls.
ghost use Rattle.text.specs.definitions.Readers.{many};
ghost use Rattle.text.specs.definitions.Tokens;
ghost use Rattle.text.specs.definitions.Grammar.{target_reader, filter_reader, test_reader, clause_reader, atom_reader, conjunction_reader, condition_reader};
ghost use Rattle.text.specs.definitions.Grammar.{call_reader, call_after};
ghost use Rattle.checking.specs.inner_contracts.RuleParts.{NothingFound, Matched, After, Joined, PlaceWalk, FilterWalk, TestWalk, ConditionWalk};
ghost use Rattle.checking.specs.inner_contracts.RuleParts.{CallWalk, CallsWalk};
ghost use Rattle.checking.specs.inner_contracts.OfColumns.{of_file};

use crate::columns::Columns;
use crate::expressions::{Kinded, expression};
use crate::faults::{Fault, FaultKind, Faults, earlier, unless};
use crate::kinds::kinds_fit;
use crate::layout::NO_INTERFACE;
use crate::meanings::{cell_of, declared, meaning_of};
use text::classes::{ACTION, AND, ATTRIBUTE, CHANGED, COLON, COMMA, EVENT, OR, ROUND_OPEN, WITH};
use text::grammar::OPENERS;
use text::walks::skip;
use values::Kind;

/// A part of a rule up to token number `next`, and its earliest faults.
#[derive(Clone, Copy)]
pub struct Part {
    pub next: usize,
    pub faults: Faults,
}

/// A target up to token number `next`: the number of its interface, 16 if it is not known, and its earliest fault.
#[derive(Clone, Copy)]
pub struct Place {
    pub next: usize,
    pub face: usize,
    pub fault: Option<Fault>,
}

fn nothing(next: usize) -> Part
    ensures { NothingFound next result }
{
    Part {
        next,
        faults: Faults::NONE,
    }
}

// An expression beside a cell of some kind, after a `=` or `(` at an offset.
fn matched(kind: Option<Kind>, offset: u32, e: Kinded) -> Part
    ensures { Matched kind offset e result }
{
    let unfit = unless(kinds_fit(kind, e.kind), FaultKind::UnfitKinds, offset);
    Part {
        next: e.next,
        faults: Faults {
            names: e.faults.names,
            kinds: earlier(unfit, e.faults.kinds),
        },
    }
}

// With a name's fault before it.
#[tactic(auto, using(crate::proofs::steps::CheckedParts::after))]
fn after(first: Option<Fault>, p: Part) -> Part
    ensures { After first p result }
{
    Part {
        next: p.next,
        faults: Faults {
            names: earlier(first, p.faults.names),
            kinds: p.faults.kinds,
        },
    }
}

// Two parts, one after the other.
pub fn joined(p: Part, q: Part) -> Part
    ensures { Joined p q result }
{
    Part {
        next: q.next,
        faults: p.faults.join(q.faults),
    }
}

// `name`, or `name : interface`, which declares a variable.
fn target_place(columns: &Columns<'_>, start: usize, at: usize) -> Place
    ensures { of_file PlaceWalk columns.now start
        target_reader at result }
{
    let size = columns.classes.len();
    let owner = meaning_of(columns, start, at);
    let face = owner.unwrap_or(NO_INTERFACE);
    let colon = skip(at, size);
    if columns.class_at(colon) != COLON {
        return Place {
            next: colon,
            face,
            fault: unless(owner.is_some(), FaultKind::Unknown, columns.offset(at)),
        };
    }
    let name = skip(colon, size);
    Place {
        next: skip(name, size),
        face,
        fault: declared(columns, at, name),
    }
}

// After a target: nothing, or `with attribute = expression`.
fn filter(columns: &Columns<'_>, start: usize, target: Place, depth: u32) -> Part
    ensures { of_file FilterWalk columns.now start
        target.face (filter_reader depth) target.next result }
{
    let at = target.next;
    if columns.class_at(at) != WITH {
        return nothing(at);
    }
    let size = columns.classes.len();
    let name = skip(at, size);
    let equals = skip(name, size);
    let attribute = cell_of(columns, target.face, ATTRIBUTE, name);
    let e = expression(columns, start, skip(equals, size), depth);
    after(
        attribute.fault,
        matched(attribute.kind, columns.offset(equals), e),
    )
}

// After `value`: `changed`, or `= expression` beside an event of some kind.
fn test(columns: &Columns<'_>, start: usize, kind: Option<Kind>, at: usize, depth: u32) -> Part
    ensures { of_file TestWalk columns.now start
        kind (test_reader depth) at result }
{
    let inside = skip(at, columns.classes.len());
    if columns.class_at(at) == CHANGED {
        return nothing(inside);
    }
    let e = expression(columns, start, inside, depth);
    matched(kind, columns.offset(at), e)
}

fn clause(columns: &Columns<'_>, start: usize, at: usize, depth: u32) -> Part
    ensures { of_file ConditionWalk columns.now start
        (clause_reader depth) at result }
{
    let size = columns.classes.len();
    let name = skip(at, size);
    let from = skip(name, size);
    let target = target_place(columns, start, skip(from, size));
    let event = cell_of(columns, target.face, EVENT, name);
    let f = filter(columns, start, target, depth);
    let t = test(columns, start, event.kind, skip(f.next, size), depth);
    after(event.fault, after(target.fault, joined(f, t)))
}

#[cycle(atom_condition_conjunction)]
fn atom(columns: &Columns<'_>, start: usize, at: usize, depth: u32) -> Part
    ensures { of_file ConditionWalk columns.now start
        (atom_reader depth) at result }
{
    if depth == 0 {
        return clause(columns, start, at, depth);
    }
    if columns.class_at(at) != ROUND_OPEN {
        return clause(columns, start, at, depth);
    }
    let size = columns.classes.len();
    let inside = condition(columns, start, skip(at, size), depth - 1);
    Part {
        next: skip(inside.next, size),
        faults: inside.faults,
    }
}

#[cycle(atom_condition_conjunction)]
fn conjunction(columns: &Columns<'_>, start: usize, at: usize, depth: u32) -> Part
    ensures { of_file ConditionWalk columns.now start
        (conjunction_reader depth) at result }
{
    let mut left = atom(columns, start, at, depth);
    while columns.class_at(left.next) == AND {
        let right = atom(
            columns,
            start,
            skip(left.next, columns.classes.len()),
            depth,
        );
        left = joined(left, right);
    }
    left
}

#[cycle(atom_condition_conjunction)]
pub fn condition(columns: &Columns<'_>, start: usize, at: usize, depth: u32) -> Part
    ensures { of_file ConditionWalk columns.now start
        (condition_reader depth) at result }
{
    let mut left = conjunction(columns, start, at, depth);
    while columns.class_at(left.next) == OR {
        let right = conjunction(
            columns,
            start,
            skip(left.next, columns.classes.len()),
            depth,
        );
        left = joined(left, right);
    }
    left
}

pub fn call(columns: &Columns<'_>, start: usize, at: usize) -> Part
    ensures { of_file CallWalk columns.now start
        call_reader at result }
{
    let size = columns.classes.len();
    let name = skip(at, size);
    let open = skip(name, size);
    let e = expression(columns, start, skip(open, size), OPENERS);
    let close = skip(e.next, size);
    let target = target_place(columns, start, skip(close, size));
    let action = cell_of(columns, target.face, ACTION, name);
    let f = filter(columns, start, target, OPENERS);
    let parameter = matched(action.kind, columns.offset(open), e);
    after(action.fault, joined(parameter, after(target.fault, f)))
}

// The calls after the first, each after a `,`.
pub fn further_calls(columns: &Columns<'_>, start: usize, at: usize) -> Part
    ensures { of_file CallsWalk columns.now start
        (many Tokens.COMMA call_after) at result }
{
    let mut before = nothing(at);
    while columns.class_at(before.next) == COMMA {
        let c = call(columns, start, skip(before.next, columns.classes.len()));
        before = joined(before, c);
    }
    before
}
