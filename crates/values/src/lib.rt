// The values that cells hold: operators and comparisons, cells in bytes, and the text forms.
#![tactic(auto)]

pub mod operators; // sums, products and comparisons of values
pub mod slices; // bytes in lent memory
pub mod cells; // a value in 9 bytes
pub mod forms; // a value as text

pub use cells::{Packed, cell, finite_bits, identical, of_kind, pack, put_cell, unpack};
pub use forms::{
    digit_byte, digit_of, magnitude, magnitude_from, put_decimal, put_value, put_whole, read_event,
    read_presence, read_real, read_truth, read_whole, scan,
};
pub use operators::{
    as_real, differ, equal, fit, is_set, negate, operate, real_op, settle, whole_op,
};
pub use slices::{put_bytes, put_word, same_bytes, word_at};

/// A cell's value, or unset.
#[derive(Clone, Copy)]
pub enum Value {
    Whole(i32),
    Truth(bool),
    Real(f64),
    Unset,
}

/// The kind of a member's cell: whole, bool, real.
#[derive(Clone, Copy, PartialEq, Eq)]
pub enum Kind {
    Wholes,
    Bools,
    Reals,
}

/// `+`, `-`, `*`, `/`.
#[derive(Clone, Copy, PartialEq, Eq)]
pub enum Operator {
    Plus,
    Minus,
    Times,
    Divide,
}

/// A field that has no value's form, or is too large for one.
#[derive(Clone, Copy, Debug, PartialEq, Eq)]
pub struct Malformed;

/// What a field of a record says of its cell: a value or unset; with `None`, nothing.
pub type Field = Result<Option<Value>, Malformed>;
