// The names of a text's entities by their numbers.
ghost use Rattle.std.specs.Prelude.{◌≡◌};
ghost use Rattle.checking.specs.definitions.Verdict.{entity_name};
ghost use Rattle.checking.specs.definitions.EntitySpan.{entity_span};
ghost use Rattle.checking.specs.inner_contracts.CheckSteps.{SpansEntity};
ghost use Rattle.checking.specs.inner_contracts.OfColumns.{of_names};

use crate::check::{CheckError, check};
use crate::columns::Columns;
use crate::layout::{DIRECTORY, ENTITY_COUNT_ROW, ENTITY_ROWS, MOST_BYTES};

// A part of a text: the offset of its first byte, and how many it has.
#[derive(Clone, Copy)]
pub struct Span {
    pub at: usize,
    pub length: usize,
}

// Where the name of an entity stands, by the answer of the check.
fn span_checked(columns: &Columns<'_>, checked: Result<usize, CheckError>, number: usize) -> Span
    ensures { of_names SpansEntity columns.now checked number result }
{
    if let Err(_) = checked {
        return Span { at: 0, length: 0 };
    }
    if columns.row(ENTITY_COUNT_ROW) <= number {
        return Span { at: 0, length: 0 };
    }
    let i = columns.row(ENTITY_ROWS + number) + 1;
    Span {
        at: columns.offset(i) as usize,
        length: columns.name(i).len(),
    }
}

// Where the name of an entity stands in the text, by its number, in file order; no bytes at 0 if it has no such entity or is refused.
pub fn entity_span(text: &[u8], number: usize) -> Span
    ensures { result ≡ entity_span text.now number }
{
    let mut classes = [0u8; MOST_BYTES];
    let mut offsets = [0u16; MOST_BYTES];
    let mut lengths = [0u8; MOST_BYTES];
    let mut values = [0u32; MOST_BYTES];
    let mut d = [0u16; DIRECTORY];
    let checked = check(
        text,
        &mut classes,
        &mut offsets,
        &mut lengths,
        &mut values,
        &mut d,
    );
    let columns = Columns {
        text,
        classes: &classes,
        offsets: &offsets,
        lengths: &lengths,
        d: &d,
    };
    span_checked(&columns, checked, number)
}

// That part of the text.
#[tactic(auto, using(crate::proofs::theorems::EntitySpans::span_spans, crate::proofs::laws::DirectoryLaws::whole_there))]
pub fn entity_name(text: &[u8], number: usize) -> &[u8]
    ensures { result.now ≡ entity_name text.now number }
{
    let span = entity_span(text, number);
    let start = span.at;
    let end = start + span.length;
    &text[start..end]
}
