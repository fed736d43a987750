// The text form of a value: put into lent memory, and read. What puts it answers the offset after it.
ghost use Rattle.std.specs.Prelude.{◌≡◌, [], ◌∷◌, ◌+◌, ◌≤◌, ◌<◌, drop, length, Some, IfSome};
ghost use Rattle.values.specs.definitions.Bytes.{same_bytes};
ghost use Rattle.values.specs.inner_contracts.Puts.{Put};
ghost use Rattle.values.specs.definitions.Forms.{digit_byte, digit_of, decimal_digits, hexadecimal, scanned, decimal, whole_text, printed, magnitude};
ghost use Rattle.values.specs.definitions.Forms.{unsigned_whole, negative_whole, whole_field, truth_field, finite_real, real_field};
ghost use Rattle.values.specs.definitions.Forms.{event_field, presence_field};

use crate::cells::finite_bits;
use crate::slices::{put_bytes, same_bytes};
use crate::{Field, Kind, Malformed, Value};

// ---- digits

/// The byte of a digit: `0` to `9`, then `a` to `f`.
#[tactic(auto, unfolding(crate::specs::definitions::Forms::digit_byte))]
pub fn digit_byte(d: u64) -> u8
    requires { d < 16 }
    ensures { result ≡ digit_byte d }
{
    if d < 10 {
        b'0' + d as u8
    } else {
        b'a' + (d - 10) as u8
    }
}

/// The digit that a byte stands for: `0` to `9`, then `a` to `f`.
#[tactic(auto, unfolding(crate::specs::definitions::Forms::digit_of))]
pub fn digit_of(c: u8) -> Option<u64>
    ensures value { result ≡ digit_of c }
    ensures bound { IfSome result (λ d. d < 16) }
{
    match c {
        b'0'..=b'9' => Some(u64::from(c - b'0')),
        b'a'..=b'f' => Some(u64::from(c - b'a') + 10),
        _ => None,
    }
}

// ---- printing

// The decimal digits, at most `left`, the highest first and no zero in front.
// Not one function with `put_hexadecimal`, with the base for a const parameter: the recursive call's `requires` is not found there, and an answer does not fit.
#[tactic(auto, using(crate::proofs::laws::DigitLaws::digits_put))]
fn put_decimal_digits(s: &mut [u8], at: usize, left: usize, n: u64) -> usize
    requires { at + length (decimal_digits left n) ≤ length s.old }
    ensures { Put (decimal_digits left n) s.old at s.new result }
{
    if left == 0 {
        return at;
    }
    if n < 10 {
        s[at] = digit_byte(n);
        return at + 1;
    }
    let p = put_decimal_digits(s, at, left - 1, n / 10);
    s[p] = digit_byte(n % 10);
    p + 1
}

/// Puts the decimal digits of a number, with no zero in front, and gives the offset after them. Of a number of more than 10 digits it puts the last 10.
pub fn put_decimal(s: &mut [u8], at: usize, n: u64) -> usize
    requires { at + length (decimal n) ≤ length s.old }
    ensures { Put (decimal n) s.old at s.new result }
{
    put_decimal_digits(s, at, 10, n)
}

/// Puts the last `left` hexadecimal digits of a number, the highest first, and gives the offset after them.
#[tactic(auto, using(crate::proofs::laws::DigitLaws::digits_put))]
pub fn put_hexadecimal(s: &mut [u8], at: usize, left: usize, n: u64) -> usize
    requires { at + length (hexadecimal left n) ≤ length s.old }
    ensures { Put (hexadecimal left n) s.old at s.new result }
{
    if left == 0 {
        return at;
    }
    let p = put_hexadecimal(s, at, left - 1, n / 16);
    s[p] = digit_byte(n % 16);
    p + 1
}

/// Puts a whole: a `-` where it is below 0, then its decimal digits. Gives the offset after them.
pub fn put_whole(s: &mut [u8], at: usize, z: i32) -> usize
    requires { at + length (whole_text z) ≤ length s.old }
    ensures { Put (whole_text z) s.old at s.new result }
{
    if z < 0 {
        s[at] = b'-';
        return put_decimal(s, at + 1, u64::from(z.unsigned_abs()));
    }
    put_decimal(s, at, u64::from(z.unsigned_abs()))
}

/// Puts a value's text, at most 16 bytes, and gives the offset after it. Unset, and a NaN, is `-`.
#[tactic(auto, using(crate::proofs::laws::RealLaws::nans))]
pub fn put_value(s: &mut [u8], at: usize, v: Value) -> usize
    requires { at + length (printed v) ≤ length s.old }
    ensures { Put (printed v) s.old at s.new result }
{
    match v {
        Value::Whole(z) => put_whole(s, at, z),
        Value::Truth(true) => put_bytes(s, at, b"true"),
        Value::Truth(false) => put_bytes(s, at, b"false"),
        Value::Real(x) if !x.is_nan() => put_hexadecimal(s, at, 16, x.to_bits()),
        _ => put_bytes(s, at, b"-"),
    }
}

// ---- reading

/// The number of some digits in a base, none where a byte is no digit of it; 16 digits fit 64 bits in each base.
#[tactic(auto, using(crate::proofs::laws::DigitLaws::digits_read))]
pub fn scan(digits: &[u8], base: u64) -> Option<u64>
    requires base { base ≤ 16 }
    requires few { length digits.now ≤ 16 }
    ensures { result ≡ scanned base 0 digits.now }
{
    let mut n: u64 = 0;
    for &c in digits {
        let d = digit_of(c)?;
        if base <= d {
            return None;
        }
        n = n * base + d;
    }
    Some(n)
}

/// The number of 1 to 10 decimal digits, with no zero in front.
#[tactic(auto, using(crate::proofs::laws::DigitLaws::led_one, crate::proofs::laws::DigitLaws::led_long, crate::proofs::laws::DigitLaws::led_by), unfolding(crate::specs::definitions::Forms::led))]
pub fn magnitude(digits: &[u8]) -> Option<u64>
    ensures { result ≡ magnitude digits.now }
{
    match digits {
        [] | [b'0', _, ..] => None,
        _ if digits.len() > 10 => None,
        _ => scan(digits, 10),
    }
}

/// The same of the digits from `from` on; none where none are left.
#[tactic(auto, unfolding(crate::specs::definitions::Forms::led))]
pub fn magnitude_from(s: &[u8], from: usize) -> Option<u64>
    ensures { result ≡ magnitude (drop from s.now) }
{
    if s.len() <= from {
        return None;
    }
    magnitude(&s[from..])
}

fn unsigned_whole(n: u64) -> Field
    ensures { result ≡ unsigned_whole (Some n) }
{
    if n < 2147483648 {
        return Ok(Some(Value::Whole(n as i32)));
    }
    Err(Malformed)
}

fn negative_whole(n: u64) -> Field
    ensures { result ≡ negative_whole (Some n) }
{
    if n == 0 {
        return Err(Malformed);
    }
    if n <= 2147483648 {
        return Ok(Some(Value::Whole(-(n as i64) as i32)));
    }
    Err(Malformed)
}

/// Reads a whole: an optional `-` and decimal digits, within 32 bits.
#[tactic(auto, using(crate::proofs::laws::DigitLaws::empty_malformed))]
pub fn read_whole(s: &[u8]) -> Field
    ensures { result ≡ whole_field s.now }
{
    match s {
        [b'-', digits @ ..] => negative_whole(magnitude(digits).ok_or(Malformed)?),
        _ => unsigned_whole(magnitude(s).ok_or(Malformed)?),
    }
}

/// Reads `true` or `false`.
// A pattern `b"true"` makes a goal for each of its bytes; the test by `same_bytes` makes one.
pub fn read_truth(s: &[u8]) -> Field
    ensures { result ≡ truth_field s.now }
{
    if same_bytes(s, b"true") {
        return Ok(Some(Value::Truth(true)));
    }
    if same_bytes(s, b"false") {
        return Ok(Some(Value::Truth(false)));
    }
    Err(Malformed)
}

#[tactic(auto, using(crate::proofs::laws::RealLaws::finite_no_nan))]
fn finite_real(w: u64) -> Field
    ensures { result ≡ finite_real (Some w) }
{
    if finite_bits(w) {
        return Ok(Some(Value::Real(f64::from_bits(w))));
    }
    Err(Malformed)
}

/// Reads the 16 hexadecimal digits of a finite real's bits.
pub fn read_real(s: &[u8]) -> Field
    ensures { result ≡ real_field s.now }
{
    if s.len() != 16 {
        return Err(Malformed);
    }
    finite_real(scan(s, 16).ok_or(Malformed)?)
}

// Whether a run of bytes is this one byte. Most fields are `-`, and the comparison of slices is a call.
#[tactic(auto, using(crate::proofs::laws::OneByte::byte_same, crate::proofs::laws::OneByte::byte_not_alone))]
fn is_byte(s: &[u8], b: u8) -> bool
    ensures { result ≡ same_bytes s.now (b ∷ []) }
{
    matches!(s, [c] if *c == b)
}

/// Reads a field of an event's column: `-` says nothing, `?` unset.
pub fn read_event(s: &[u8], kind: Kind) -> Field
    ensures { result ≡ event_field kind s.now }
{
    if is_byte(s, b'-') {
        return Ok(None);
    }
    if is_byte(s, b'?') {
        return Ok(Some(Value::Unset));
    }
    match kind {
        Kind::Wholes => read_whole(s),
        Kind::Bools => read_truth(s),
        Kind::Reals => read_real(s),
    }
}

/// Reads a field of a column that is an entity: its presence; `-` says nothing.
pub fn read_presence(s: &[u8]) -> Field
    ensures { result ≡ presence_field s.now }
{
    if is_byte(s, b'-') {
        return Ok(None);
    }
    read_truth(s)
}
