// A value in 9 bytes of memory: a tag, then a number in 8 bytes, the lowest first.
ghost use Rattle.std.specs.Prelude.{◌≡◌, ◌+◌, ◌*◌, ◌≤◌, length};
ghost use Rattle.values.specs.definitions.Storable.{of_kind};
ghost use Rattle.values.specs.definitions.Cells.{tag, payload, finite_bits, unpacked, cell_at, with_cell, identical};

use crate::slices::{put_word, word_at};
use crate::{Kind, Value};

/// Whether a cell of the kind can hold the value.
// The laws say that a cell's bytes need no other test.
#[tactic(auto, unfolding(crate::specs::definitions::Storable::of_kind, crate::specs::definitions::Fitting::kinds_fit, crate::specs::definitions::Fitting::value_kind, crate::specs::definitions::Fitting::same_kind))]
pub fn of_kind(kind: Kind, v: Value) -> bool
    ensures { result ≡ of_kind kind v }
{
    matches!(
        (kind, v),
        (Kind::Wholes, Value::Whole(_))
            | (Kind::Bools, Value::Truth(_))
            | (Kind::Reals, Value::Real(_))
            | (_, Value::Unset)
    )
}

/// Whether the bits are a finite real's.
// But for the sign's they are below those of an infinity.
pub fn finite_bits(w: u64) -> bool
    ensures { result ≡ finite_bits w }
{
    w % 0x8000_0000_0000_0000 < 0x7ff0_0000_0000_0000
}

// The tags of cells in memory.
const UNSET: u8 = 0;

const WHOLE: u8 = 1;

const TRUTH: u8 = 2;

const REAL: u8 = 3;

// A whole stands in memory as its distance from the lowest, -2 ^ 31.
const WHOLES_BELOW_0: i64 = 2147483648;

/// A value's tag, and its 8 bytes as one number.
#[derive(Clone, Copy, PartialEq, Eq)]
pub struct Packed {
    pub tag: u8,
    pub word: u64,
}

/// The tag and the 8 bytes that stand for a value. A NaN stands as unset.
pub fn pack(v: Value) -> Packed
    ensures tag { result.tag ≡ tag v }
    ensures word { result.word ≡ payload v }
{
    let (tag, word) = match v {
        Value::Whole(x) => (WHOLE, (i64::from(x) + WHOLES_BELOW_0) as u64),
        Value::Truth(b) => (TRUTH, u64::from(b)),
        Value::Real(x) if !x.is_nan() => (REAL, x.to_bits()),
        _ => (UNSET, 0),
    };
    Packed { tag, word }
}

/// The value of a tag and 8 bytes; those of no value are unset.
// So no bytes need a test before they are read.
#[tactic(auto, using(crate::proofs::laws::RealLaws::finite_no_nan, crate::proofs::laws::WholeLaws::lowered), unfolding(crate::specs::definitions::Cells::unpacked))]
pub fn unpack(tag: u8, word: u64) -> Value
    ensures { result ≡ unpacked tag word }
{
    match (tag, word) {
        (WHOLE, raised) if raised < 4294967296 => {
            Value::Whole((raised as i64 - WHOLES_BELOW_0) as i32)
        }
        (TRUTH, 0) => Value::Truth(false),
        (TRUTH, 1) => Value::Truth(true),
        (REAL, bits) if finite_bits(bits) => Value::Real(f64::from_bits(bits)),
        _ => Value::Unset,
    }
}

/// The value in cell number `i` of a memory of cells, 9 bytes each.
pub fn cell(store: &[u8], i: usize) -> Value
    requires { i * 9 + 9 ≤ length store.now }
    ensures { result ≡ cell_at store.now i }
{
    let at = i * 9;
    unpack(store[at], word_at(store, at + 1))
}

/// Puts a value into cell number `i` of a memory of cells, 9 bytes each.
pub fn put_cell(store: &mut [u8], i: usize, v: Value)
    requires { i * 9 + 9 ≤ length store.old }
    ensures { store.new ≡ with_cell store.old i v }
{
    let Packed { tag, word } = pack(v);
    let at = i * 9;
    store[at] = tag;
    put_word(store, at + 1, word);
}

/// Whether two values are the same bit by bit: the two zeros are not.
pub fn identical(a: Value, b: Value) -> bool
    ensures { result ≡ identical a b }
{
    pack(a) == pack(b)
}
