// The tokens of a bench file: what begins at an offset, and the whole text's tokens as columns.
ghost use Rattle.std.specs.Prelude.{◌≡◌, List, [], ◌∷◌, true, ◌+◌, ◌-◌, ◌≤◌, ◌<◌, length, drop};
ghost use Rattle.std.proofs.Math.Option.{get_or};
ghost use Rattle.values.specs.definitions.Bytes.{same_bytes};
ghost use Rattle.text.specs.definitions.Bytes.{run, is_digit};
ghost use Rattle.text.specs.definitions.Tokens;
ghost use Rattle.text.specs.definitions.Tokens.{Fixed, spelled, reserved, class_in, name_item, number_item, digits_value};
ghost use Rattle.text.specs.inner_contracts.TokenTable.{RunTo, of_length, part, located, token_at, offset_after, columns_of, Lexes};

use crate::bytes::{ByteClass, class_of_byte, is_comment_byte, is_digit, is_name_byte, mark_class};
use crate::reader::item_at;
use crate::{Item, SyntaxError, classes};

// ---- runs

// Where the longest run of bytes that pass a test ends, from an offset on: four bytes a turn while so many are left, since one test for the text's
// end then serves all four (by single bytes the lexer is a tenth slower).
fn run_end<F: Fn(u8) -> bool>(text: &[u8], at: usize, passes: F) -> usize
    requires callable { F.IsAlwaysCallable passes }
    requires at_in_bounds { at ≤ length text.now }
    ensures { RunTo text.now (F.post passes) at result }
{
    let mut end = at;
    while 4 <= text.len() - end {
        if !passes(text[end]) {
            return end;
        }
        if !passes(text[end + 1]) {
            return end + 1;
        }
        if !passes(text[end + 2]) {
            return end + 2;
        }
        if !passes(text[end + 3]) {
            return end + 3;
        }
        end += 4;
    }
    for last in end..text.len() {
        if !passes(text[last]) {
            return last;
        }
    }
    text.len()
}

// ---- names and reserved words

// Is the name this word? Mostly the first byte decides: with a constant word the loop is a test for each byte, where `==` compares them all at once
// (with `==` a usual file takes a seventh more time).
#[tactic(auto, using(crate::proofs::laws::FixedLaws::words_same, crate::proofs::laws::FixedLaws::words_differ, crate::proofs::laws::FixedLaws::lengths_differ))]
fn is_word(name: &[u8], word: &[u8]) -> bool
    ensures { result ≡ same_bytes name.now word.now }
{
    if name.len() != word.len() {
        return false;
    }
    for i in 0..word.len() {
        if name[i] != word[i] {
            return false;
        }
    }
    true
}

// The class of `word` if it is the name, else `other`: one word more before those that gave `other`.
#[tactic(auto, using(crate::proofs::laws::FixedLaws::class_first, crate::proofs::laws::FixedLaws::class_later))]
fn class_if(name: &[u8], word: &[u8], class: u8, other: u8) -> u8
    ensures { (fs : List Fixed) → other ≡ get_or (class_in fs name.now) Tokens.NAME
        → result ≡ get_or (class_in (spelled word.now class ∷ fs) name.now) Tokens.NAME }
{
    if is_word(name, word) {
        return class;
    }
    other
}

// The class of either of two words.
#[tactic(auto, using(crate::proofs::laws::FixedLaws::class_nothing))]
fn class_of_two(name: &[u8], first: &[u8], class: u8, second: &[u8], other: u8) -> u8
    ensures { result ≡ get_or (class_in (spelled first.now class ∷ spelled second.now other ∷ []) name.now) Tokens.NAME }
{
    let c = class_if(name, second, other, classes::NAME);
    class_if(name, first, class, c)
}

// The class of the reserved words of four bytes.
fn class_of_four(name: &[u8]) -> u8
    ensures { result ≡ get_or (class_in (of_length 4 reserved) name.now) Tokens.NAME }
{
    let c = class_if(name, b"rank", classes::RANK, classes::NAME);
    let c = class_if(name, b"real", classes::REAL, c);
    let c = class_if(name, b"bool", classes::BOOL, c);
    let c = class_if(name, b"true", classes::TRUE, c);
    let c = class_if(name, b"with", classes::WITH, c);
    let c = class_if(name, b"from", classes::FROM, c);
    class_if(name, b"when", classes::WHEN, c)
}

// The class of those of five.
fn class_of_five(name: &[u8]) -> u8
    ensures { result ≡ get_or (class_in (of_length 5 reserved) name.now) Tokens.NAME }
{
    let c = class_if(name, b"whole", classes::WHOLE, classes::NAME);
    let c = class_if(name, b"false", classes::FALSE, c);
    let c = class_if(name, b"value", classes::VALUE, c);
    let c = class_if(name, b"rules", classes::RULES, c);
    class_if(name, b"event", classes::EVENT, c)
}

// The class of a run of name bytes: a reserved word's, or NAME. Only words of its length are compared.
#[tactic(auto, using(crate::proofs::laws::FixedLaws::reserved_of, crate::proofs::laws::FixedLaws::not_reserved))]
pub fn name_class(name: &[u8]) -> u8
    ensures { result ≡ get_or (class_in reserved name.now) Tokens.NAME }
{
    match name.len() {
        2 => class_of_two(name, b"on", classes::ON, b"or", classes::OR),
        3 => class_of_two(name, b"end", classes::END, b"and", classes::AND),
        4 => class_of_four(name),
        5 => class_of_five(name),
        6 => class_of_two(name, b"action", classes::ACTION, b"entity", classes::ENTITY),
        7 => class_of_two(
            name,
            b"changed",
            classes::CHANGED,
            b"trigger",
            classes::TRIGGER,
        ),
        9 => class_of_two(
            name,
            b"interface",
            classes::INTERFACE,
            b"attribute",
            classes::ATTRIBUTE,
        ),
        _ => classes::NAME,
    }
}

// ---- what begins at an offset

// The name or reserved word in the bytes from `at` to `end`.
#[tactic(auto, using(crate::proofs::laws::ItemLaws::name_part_long, crate::proofs::laws::ItemLaws::name_part))]
fn name_at(text: &[u8], at: usize, end: usize) -> Item
    requires { (at < end) × (end ≤ length text.now) }
    ensures { result ≡ located at (name_item (part at end text.now)) }
{
    if 24 < end - at {
        return Item::Bad;
    }
    Item::Found {
        class: name_class(&text[at..end]),
        value: 0,
        next: end,
    }
}

// What a digit stands for.
#[tactic(auto, using(crate::proofs::laws::DigitRunLaws::digit_bounds))]
fn digit_value(b: u8) -> u64
    requires { is_digit b ≡ true }
    ensures { (result ≡ b - 48) × (result < 10) }
{
    u64::from(b - b'0')
}

// The value of a run of digits, ten at most.
#[tactic(auto, using(values::proofs::laws::DigitLaws::digits_read, crate::proofs::laws::DigitRunLaws::digit_there, crate::proofs::laws::DigitRunLaws::value_step), unfolding(crate::specs::definitions::Tokens::digits_value))]
fn digits_value(digits: &[u8]) -> u64
    requires { (length digits.now ≤ 10) × (run is_digit digits.now ≡ digits.now) }
    ensures { result ≡ digits_value 0 digits.now }
{
    let mut n: u64 = 0;
    for &b in digits {
        n = n * 10 + digit_value(b);
    }
    n
}

// The number in the digits from `at` to `end`, and in an `r` after them.
#[tactic(auto, using(crate::proofs::laws::ItemLaws::number_part_long, crate::proofs::laws::ItemLaws::number_part_large, crate::proofs::laws::ItemLaws::number_part_real, crate::proofs::laws::ItemLaws::number_part_whole, crate::proofs::laws::ItemLaws::number_part_last))]
fn number_at(text: &[u8], at: usize, end: usize) -> Item
    requires at_lt_end { (at < end) × (end ≤ length text.now) }
    requires text_value { run is_digit (part at end text.now) ≡ part at end text.now }
    ensures { result ≡ located at (number_item (part at end text.now) (drop end text.now)) }
{
    if 10 < end - at {
        return Item::Bad;
    }
    let n = digits_value(&text[at..end]);
    if 2147483647 < n {
        return Item::Bad;
    }
    let value = n as u32;
    if end < text.len() && text[end] == b'r' {
        return Item::Found {
            class: classes::REAL_NUMBER,
            value,
            next: end + 1,
        };
    }
    Item::Found {
        class: classes::WHOLE_NUMBER,
        value,
        next: end,
    }
}

// What begins at an offset.
#[tactic(auto, using(crate::proofs::steps::StepLaws::at_end, crate::proofs::steps::StepLaws::blank_at, crate::proofs::steps::StepLaws::comment_at, crate::proofs::steps::StepLaws::name_at, crate::proofs::steps::StepLaws::digits_at, crate::proofs::steps::StepLaws::number_at, crate::proofs::steps::StepLaws::mark_at, crate::proofs::steps::StepLaws::nothing_at))]
pub(crate) fn token_at(text: &[u8], at: usize) -> Item
    ensures { result ≡ token_at text.now at }
{
    if text.len() <= at {
        return Item::End;
    }
    let b = text[at];
    let next = at + 1;
    match class_of_byte(b) {
        ByteClass::Letter => name_at(text, at, run_end(text, next, is_name_byte)),
        ByteClass::Digit => number_at(text, at, run_end(text, next, is_digit)),
        ByteClass::Mark => Item::Found {
            class: mark_class(b),
            value: 0,
            next,
        },
        ByteClass::Blank => Item::Gap(next),
        ByteClass::Hash => Item::Gap(run_end(text, next, is_comment_byte)),
        ByteClass::Underscore | ByteClass::CommentOnly | ByteClass::NotAllowed => Item::Bad,
    }
}

// The offset after what begins at an offset; the same where nothing does.
#[tactic(auto, unfolding(crate::specs::inner_contracts::TokenTable::offset_after))]
pub(crate) fn offset_after(text: &[u8], at: usize) -> usize
    ensures { result ≡ offset_after text.now at }
{
    match token_at(text, at) {
        Item::Gap(next) => next,
        Item::Found { next, .. } => next,
        Item::Bad | Item::End => at,
    }
}

// ---- all tokens

/// The tokens of a text into columns, a row for each: its class, offset, length and value. Answers their count. Rows after the last may hold
/// anything.
pub fn lex(
    text: &[u8],
    classes: &mut [u8],
    offsets: &mut [u16],
    lengths: &mut [u8],
    values: &mut [u32],
) -> Result<usize, SyntaxError>
    ensures { Lexes text.now (columns_of classes.old offsets.old lengths.old values.old)
        (columns_of classes.new offsets.new lengths.new values.new) result }
{
    if 32768 < text.len() {
        return Err(SyntaxError::TooLong);
    }
    let rows = classes
        .len()
        .min(offsets.len())
        .min(lengths.len())
        .min(values.len());
    if rows < text.len() {
        return Err(SyntaxError::NoRoom);
    }
    let mut at = 0;
    let mut n = 0;
    loop {
        match item_at(text, at) {
            Item::Gap(next) => {
                at = next;
            }
            Item::Found { class, value, next } => {
                classes[n] = class;
                offsets[n] = at as u16;
                lengths[n] = (next - at) as u8;
                values[n] = value;
                at = next;
                n += 1;
            }
            Item::Bad => {
                return Err(SyntaxError::NoTokenAt(at));
            }
            Item::End => {
                return Ok(n);
            }
        }
    }
}
