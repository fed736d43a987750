// Operators and comparisons. A result that no cell holds is unset.
ghost use Rattle.std.specs.Prelude.{◌≡◌};
ghost use Rattle.values.specs.declared.Operator.TheVariants.{Divide};
ghost use Rattle.values.specs.definitions.Value.{is_set, fitted, settled, whole_op, real_op, operated, negated, as_real, equal, differ};

use crate::cells::finite_bits;
use crate::{Operator, Value};

/// Whether the value is not unset.
pub fn is_set(v: Value) -> bool
    ensures { result ≡ is_set v }
{
    !matches!(v, Value::Unset)
}

/// The number as a whole, unset where 32 bits do not hold it.
#[tactic(auto, using(crate::proofs::laws::WholeLaws::fitted_holds, crate::proofs::laws::WholeLaws::fitted_exceeds))]
pub fn fit(n: i64) -> Value
    ensures { result ≡ fitted n }
{
    match i32::try_from(n) {
        Ok(x) => Value::Whole(x),
        Err(_) => Value::Unset,
    }
}

/// The float as a real, unset where it is not finite.
// A NaN has no bits of its own, so it is told apart first.
#[tactic(auto, using(crate::proofs::laws::RealLaws::settled_nan, crate::proofs::laws::RealLaws::settled_infinite, crate::proofs::laws::RealLaws::settled_finite))]
pub fn settle(x: f64) -> Value
    ensures { result ≡ settled x }
{
    if x.is_nan() || !finite_bits(x.to_bits()) {
        return Value::Unset;
    }
    Value::Real(x)
}

/// The floor of the quotient of two wholes; unset where the divisor is 0 or 32 bits do not hold it.
// `/` rounds toward zero, and what `%` leaves has the dividend's sign or is 0: where it has the other sign than the divisor, the floor is one less.
// On 64 bits, which hold the quotient of -2147483648 by -1 and the product in the test.
pub fn divide(x: i32, y: i32) -> Value
    ensures { result ≡ whole_op Divide x y }
{
    let a = i64::from(x);
    let b = i64::from(y);
    if b == 0 {
        return Value::Unset;
    }
    let quotient = a / b;
    let one_less = quotient - 1;
    if (a % b) * b < 0 {
        return fit(one_less);
    }
    fit(quotient)
}

/// An operator on wholes, unset where 32 bits do not hold the result or the divisor is 0.
// 64 bits hold each sum, difference and product of two numbers of 32.
pub fn whole_op(op: Operator, x: i32, y: i32) -> Value
    ensures { result ≡ whole_op op x y }
{
    let a = i64::from(x);
    let b = i64::from(y);
    match op {
        Operator::Plus => fit(a + b),
        Operator::Minus => fit(a - b),
        Operator::Times => fit(a * b),
        Operator::Divide => divide(x, y),
    }
}

/// An operator on reals, rounded once; unset where the result is not finite.
pub fn real_op(op: Operator, x: f64, y: f64) -> Value
    ensures { result ≡ real_op op x y }
{
    match op {
        Operator::Plus => settle(x + y),
        Operator::Minus => settle(x - y),
        Operator::Times => settle(x * y),
        Operator::Divide => settle(x / y),
    }
}

/// An operator on two values: unset where the kinds differ or have no operators, or an operand is unset.
pub fn operate(op: Operator, a: Value, b: Value) -> Value
    ensures { result ≡ operated op a b }
{
    match (a, b) {
        (Value::Whole(x), Value::Whole(y)) => whole_op(op, x, y),
        (Value::Real(x), Value::Real(y)) => real_op(op, x, y),
        _ => Value::Unset,
    }
}

/// The value with its sign turned; unset for a bool, and for -2 ^ 31.
pub fn negate(a: Value) -> Value
    ensures { result ≡ negated a }
{
    match a {
        Value::Whole(x) => fit(-i64::from(x)),
        Value::Real(x) => settle(-x),
        _ => Value::Unset,
    }
}

/// A whole as a real; unset for any other value.
pub fn as_real(a: Value) -> Value
    ensures { result ≡ as_real a }
{
    match a {
        Value::Whole(x) => settle(f64::from(x)),
        _ => Value::Unset,
    }
}

/// Whether two values are set and equal. The two zeros of reals are.
// No derived `==` says this: unset is not equal to unset.
pub fn equal(a: Value, b: Value) -> bool
    ensures { result ≡ equal a b }
{
    match (a, b) {
        (Value::Whole(x), Value::Whole(y)) => x == y,
        (Value::Truth(x), Value::Truth(y)) => x == y,
        (Value::Real(x), Value::Real(y)) => x == y,
        _ => false,
    }
}

/// Whether a value is another than before: one is set and the other unset, or both are set and not equal.
pub fn differ(a: Value, b: Value) -> bool
    ensures { result ≡ differ a b }
{
    if is_set(a) {
        return !equal(a, b);
    }
    is_set(b)
}
