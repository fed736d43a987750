// The value of an expression in one store, by a walk over its tokens.
ghost use Rattle.std.specs.Prelude.{◌≡◌, ◌/◌, ◌%◌, pos, get_or};
ghost use Rattle.std.specs.Float.{binary64};
ghost use Rattle.std.specs.Float.Ieee.{of_int};
ghost use Rattle.values.specs.definitions.Value.{fitted, settled};
ghost use Rattle.text.specs.definitions.Readers.{halt};
ghost use Rattle.text.specs.definitions.Grammar.{is_factor_operator, is_term_operator};
ghost use Rattle.text.specs.definitions.Grammar.{member_reader, simple_or, factor_reader, term_reader, expression_reader};
ghost use Rattle.cycles.specs.inner_contracts.Evaluation.{bound, operator_if, CellRead, Expresses};

use crate::evaluate::{Binding, bound};
use crate::world::{Walked, World};
use text::classes::{
    DIVIDE, FALSE, MINUS, NAME, PLUS, REAL, REAL_NUMBER, ROUND_OPEN, TIMES, TRUE, WHOLE_NUMBER,
};
use values::{Operator, Value};

fn whole_literal(n: u32) -> Value
    ensures { result ≡ fitted (pos n) }
{
    values::fit(i64::from(n))
}

fn real_literal(n: u32) -> Value
    ensures { result ≡ settled (of_int binary64 (pos n)) }
{
    values::settle(f64::from(n))
}

// The operator of a token between factors, if it is one.
#[tactic(auto, unfolding(text::specs::definitions::Grammar::operator_of, text::specs::definitions::Grammar::is_factor_operator))]
fn factor_operator(class: u8) -> Option<Operator>
    ensures { result ≡ operator_if is_factor_operator class }
{
    match class {
        TIMES => Some(Operator::Times),
        DIVIDE => Some(Operator::Divide),
        _ => None,
    }
}

// The operator of a token between terms, if it is one.
#[tactic(auto, unfolding(text::specs::definitions::Grammar::operator_of, text::specs::definitions::Grammar::is_term_operator))]
fn term_operator(class: u8) -> Option<Operator>
    ensures { result ≡ operator_if is_term_operator class }
{
    match class {
        PLUS => Some(Operator::Plus),
        MINUS => Some(Operator::Minus),
        _ => None,
    }
}

/// The member that token number `name` names, of the entity that token number `at` means.
pub fn member_value(world: &World<'_, '_>, at: usize, name: usize) -> Value
    ensures { CellRead world.now.store.now.flags world.now.store.now.cells (bound world.now.b (get_or world.now.rules.now.references.now at 0 % 256)) (get_or world.now.rules.now.references.now name 0 / 256) result }
{
    world.store.read_cell(
        bound(world.b, world.rules.owner(at)),
        world.rules.member(name),
    )
}

// What begins with no opener.
fn leaf(world: &World<'_, '_>, at: usize) -> Walked<Value>
    ensures { Expresses world.now.rules.now world.now.b world.now.store.now (simple_or halt)
        at result.value result.next }
{
    let unset = Walked {
        value: Value::Unset,
        next: at,
    };
    if world.rules.len() <= at {
        return unset;
    }
    let next = world.rules.skip(at);
    match world.rules.class_at(at) {
        NAME => {
            let name = world.rules.skip(next);
            Walked {
                value: member_value(world, at, name),
                next: world.rules.skip(name),
            }
        }
        TRUE => Walked {
            value: Value::Truth(true),
            next,
        },
        FALSE => Walked {
            value: Value::Truth(false),
            next,
        },
        WHOLE_NUMBER => Walked {
            value: whole_literal(world.rules.value_at(at)),
            next,
        },
        REAL_NUMBER => Walked {
            value: real_literal(world.rules.value_at(at)),
            next,
        },
        _ => unset,
    }
}

// `depth` openers may still come.
#[cycle(factor_sum_term)]
fn factor(world: &World<'_, '_>, at: usize, depth: u32) -> Walked<Value>
    ensures { Expresses world.now.rules.now world.now.b world.now.store.now
        (factor_reader depth) at result.value result.next }
{
    if depth == 0 {
        return leaf(world, at);
    }
    let inside = world.rules.skip(at);
    match world.rules.class_at(at) {
        REAL => {
            let x = sum(world, world.rules.skip(inside), depth - 1);
            Walked {
                value: values::as_real(x.value),
                next: world.rules.skip(x.next),
            }
        }
        ROUND_OPEN => {
            let x = sum(world, inside, depth - 1);
            Walked {
                next: world.rules.skip(x.next),
                ..x
            }
        }
        MINUS => {
            let x = factor(world, inside, depth - 1);
            Walked {
                value: values::negate(x.value),
                next: x.next,
            }
        }
        _ => leaf(world, at),
    }
}

// Factors under `*` and `/`.
#[cycle(factor_sum_term)]
fn term(world: &World<'_, '_>, at: usize, depth: u32) -> Walked<Value>
    ensures { Expresses world.now.rules.now world.now.b world.now.store.now
        (term_reader depth) at result.value result.next }
{
    let mut left = factor(world, at, depth);
    while let Some(op) = factor_operator(world.rules.class_at(left.next)) {
        let right = factor(world, world.rules.skip(left.next), depth);
        left = Walked {
            value: values::operate(op, left.value, right.value),
            next: right.next,
        };
    }
    left
}

// Terms under `+` and `-`.
#[cycle(factor_sum_term)]
fn sum(world: &World<'_, '_>, at: usize, depth: u32) -> Walked<Value>
    ensures { Expresses world.now.rules.now world.now.b world.now.store.now
        (expression_reader depth) at result.value result.next }
{
    let mut left = term(world, at, depth);
    while let Some(op) = term_operator(world.rules.class_at(left.next)) {
        let right = term(world, world.rules.skip(left.next), depth);
        left = Walked {
            value: values::operate(op, left.value, right.value),
            next: right.next,
        };
    }
    left
}

/// Most expressions are one leaf. No opener has a class below that of `real`, and no operator one below that of `+`.
pub fn expression(world: &World<'_, '_>, at: usize, depth: u32) -> Walked<Value>
    ensures { Expresses world.now.rules.now world.now.b world.now.store.now
        (expression_reader depth) at result.value result.next }
{
    if REAL <= world.rules.class_at(at) {
        return sum(world, at, depth);
    }
    let x = leaf(world, at);
    if PLUS <= world.rules.class_at(x.next) {
        return sum(world, at, depth);
    }
    x
}
