// Names and kinds of expressions, by a walk that gives an expression's kind and its earliest faults.
ghost use Rattle.std.specs.Prelude.{◌≡◌};
ghost use Rattle.text.specs.definitions.Readers.{halt};
ghost use Rattle.text.specs.definitions.Grammar.{member_reader, simple_or, factor_reader, term_reader, expression_reader, is_factor_operator};
ghost use Rattle.text.specs.definitions.Grammar.{is_term_operator};
ghost use Rattle.checking.specs.inner_contracts.RuleParts.{LiteralChecked, ClosedChecked, RealChecked, NegatedChecked, AppliedChecked};
ghost use Rattle.checking.specs.inner_contracts.RuleParts.{ExpressionWalk};
ghost use Rattle.checking.specs.inner_contracts.OfColumns.{of_file};

use crate::columns::Columns;
use crate::faults::{FaultKind, Faults, earlier, unless};
use crate::kinds::{fits_operator, kinds_fit, number_kind, operands_fit, operated_kind, real_kind};
use crate::layout::NO_INTERFACE;
use crate::meanings::{cell_of, meaning_of};
use text::classes::{
    DIVIDE, FALSE, MINUS, NAME, PLUS, REAL, REAL_NUMBER, ROUND_OPEN, TIMES, TRUE, WHOLE_NUMBER,
};
use text::walks::skip;
use values::Kind;

/// An expression up to token number `next`, its kind, if it has one, and its earliest faults.
#[derive(Clone, Copy)]
pub struct Kinded {
    pub next: usize,
    pub kind: Option<Kind>,
    pub faults: Faults,
}

fn literal(next: usize, kind: Option<Kind>) -> Kinded
    ensures { LiteralChecked next kind result }
{
    Kinded {
        next,
        kind,
        faults: Faults::NONE,
    }
}

// In parentheses.
fn closed(x: Kinded, next: usize) -> Kinded
    ensures { ClosedChecked x next result }
{
    Kinded { next, ..x }
}

// Under `real`.
fn made_real(offset: u32, x: Kinded, next: usize) -> Kinded
    ensures { RealChecked offset x next result }
{
    let unfit = unless(
        kinds_fit(x.kind, Some(Kind::Wholes)),
        FaultKind::UnfitKinds,
        offset,
    );
    Kinded {
        next,
        kind: real_kind(x.kind),
        faults: Faults {
            names: x.faults.names,
            kinds: earlier(unfit, x.faults.kinds),
        },
    }
}

// Under unary `-`.
fn negated(offset: u32, x: Kinded) -> Kinded
    ensures { NegatedChecked offset x result }
{
    let unfit = unless(fits_operator(x.kind), FaultKind::UnfitKinds, offset);
    Kinded {
        next: x.next,
        kind: number_kind(x.kind),
        faults: Faults {
            names: x.faults.names,
            kinds: earlier(unfit, x.faults.kinds),
        },
    }
}

// Under an operator.
fn applied(offset: u32, x: Kinded, y: Kinded) -> Kinded
    ensures { AppliedChecked offset x y result }
{
    let unfit = unless(operands_fit(x.kind, y.kind), FaultKind::UnfitKinds, offset);
    let inside = x.faults.join(y.faults);
    Kinded {
        next: y.next,
        kind: operated_kind(x.kind, y.kind),
        faults: Faults {
            names: inside.names,
            kinds: earlier(unfit, inside.kinds),
        },
    }
}

// `name . member`
fn member(columns: &Columns<'_>, start: usize, at: usize) -> Kinded
    ensures { of_file ExpressionWalk columns.now start
        member_reader at result }
{
    let size = columns.classes.len();
    let dot = skip(at, size);
    let name = skip(dot, size);
    let owner = meaning_of(columns, start, at);
    let face = owner.unwrap_or(NO_INTERFACE);
    let member = cell_of(columns, face, NAME, name);
    let unknown = unless(owner.is_some(), FaultKind::Unknown, columns.offset(at));
    Kinded {
        next: skip(name, size),
        kind: member.kind,
        faults: Faults {
            names: earlier(unknown, member.fault),
            kinds: None,
        },
    }
}

// What begins with no opener.
fn leaf(columns: &Columns<'_>, start: usize, at: usize) -> Kinded
    ensures { of_file ExpressionWalk columns.now start
        (simple_or halt) at result }
{
    let size = columns.classes.len();
    if size <= at {
        return literal(at, None);
    }
    let class = columns.class_at(at);
    if class == NAME {
        return member(columns, start, at);
    }
    let next = skip(at, size);
    if class == TRUE {
        return literal(next, Some(Kind::Bools));
    }
    if class == FALSE {
        return literal(next, Some(Kind::Bools));
    }
    if class == WHOLE_NUMBER {
        return literal(next, Some(Kind::Wholes));
    }
    if class == REAL_NUMBER {
        return literal(next, Some(Kind::Reals));
    }
    literal(at, None)
}

#[tactic(auto, unfolding(text::specs::definitions::Grammar::is_factor_operator))]
fn is_factor_operator(class: u8) -> bool
    ensures { result ≡ is_factor_operator class }
{
    if class == TIMES {
        return true;
    }
    class == DIVIDE
}

#[tactic(auto, unfolding(text::specs::definitions::Grammar::is_term_operator))]
fn is_term_operator(class: u8) -> bool
    ensures { result ≡ is_term_operator class }
{
    if class == PLUS {
        return true;
    }
    class == MINUS
}

#[cycle(expression_factor_term)]
fn factor(columns: &Columns<'_>, start: usize, at: usize, depth: u32) -> Kinded
    ensures { of_file ExpressionWalk columns.now start
        (factor_reader depth) at result }
{
    if depth == 0 {
        return leaf(columns, start, at);
    }
    let size = columns.classes.len();
    let class = columns.class_at(at);
    let inside = skip(at, size);
    if class == REAL {
        let x = expression(columns, start, skip(inside, size), depth - 1);
        return made_real(columns.offset(at), x, skip(x.next, size));
    }
    if class == ROUND_OPEN {
        let x = expression(columns, start, inside, depth - 1);
        return closed(x, skip(x.next, size));
    }
    if class == MINUS {
        let x = factor(columns, start, inside, depth - 1);
        return negated(columns.offset(at), x);
    }
    leaf(columns, start, at)
}

#[cycle(expression_factor_term)]
fn term(columns: &Columns<'_>, start: usize, at: usize, depth: u32) -> Kinded
    ensures { of_file ExpressionWalk columns.now start
        (term_reader depth) at result }
{
    let mut left = factor(columns, start, at, depth);
    while is_factor_operator(columns.class_at(left.next)) {
        let i = left.next;
        let right = factor(columns, start, skip(i, columns.classes.len()), depth);
        left = applied(columns.offset(i), left, right);
    }
    left
}

#[cycle(expression_factor_term)]
pub fn expression(columns: &Columns<'_>, start: usize, at: usize, depth: u32) -> Kinded
    ensures { of_file ExpressionWalk columns.now start
        (expression_reader depth) at result }
{
    let mut left = term(columns, start, at, depth);
    while is_term_operator(columns.class_at(left.next)) {
        let i = left.next;
        let right = term(columns, start, skip(i, columns.classes.len()), depth);
        left = applied(columns.offset(i), left, right);
    }
    left
}
