// The check of a text into columns and a directory.
ghost use Rattle.std.specs.Prelude.{◌≡◌, ◌≤◌};
ghost use Rattle.text.specs.inner_contracts.EnumAnswers.{offset_of};
ghost use Rattle.checking.specs.definitions.Verdict;
ghost use Rattle.checking.specs.declared.check.CheckError.TheVariants.{Refused};
ghost use Rattle.text.specs.inner_contracts.TokenTable.{columns_of};
ghost use Rattle.checking.specs.inner_contracts.FileWalk.{RulesFound, FileFound, Judged};
ghost use Rattle.checking.specs.inner_contracts.CheckedBench.{Checks};
ghost use Rattle.checking.specs.inner_contracts.CheckSteps.{error_as};
ghost use Rattle.checking.specs.inner_contracts.OfColumns.{of_file};

use crate::columns::Columns;
use crate::counts::count_fault;
use crate::directory::build;
use crate::entities::{entity_faults, link_entities};
use crate::faults::{Fault, FaultKind, Faults, earlier};
use crate::interfaces::interface_faults;
use crate::layout::{DIRECTORY, MOST_BYTES, RULE_ROWS};
use crate::priorities::priority_fault;
use crate::rules::rule_faults;
use text::{SyntaxError, read};

/// Why a text was not accepted.
#[derive(Clone, Copy, Debug, PartialEq, Eq)]
pub enum CheckError {
    /// The columns or the directory have fewer rows than the text needs.
    NoRoom,
    /// The text is refused for its earliest fault of the first kind that the documents ask about.
    Refused(Fault),
}

impl From<SyntaxError> for CheckError {
    ghost from_gives = { λ error r. offset_of error ≤ Verdict.MOST_BYTES → r ≡ error_as error };

    fn from(error: SyntaxError) -> CheckError {
        match error {
            SyntaxError::NoRoom => CheckError::NoRoom,
            SyntaxError::TooLong => refused(FaultKind::TooLong, MOST_BYTES),
            SyntaxError::NoTokenAt(at) => refused(FaultKind::NoToken, at),
            SyntaxError::UnfitAt(at) => refused(FaultKind::UnfitToken, at),
        }
    }
}

fn refused(kind: FaultKind, at: usize) -> CheckError
    ensures { at ≤ Verdict.MOST_BYTES → result ≡ Refused (record { kind = kind; at = at }) }
{
    // only in a longer text than `read` lets pass
    if at > MOST_BYTES {
        return CheckError::NoRoom;
    }
    CheckError::Refused(Fault {
        kind,
        at: at as u32,
    })
}

// ---- the faults of a file

// The earliest faults of the rules: of the names in them, and of their kinds.
#[tactic(auto, using(crate::proofs::steps::RulesLaws::ruled_all))]
fn rules_faults(columns: &Columns<'_>) -> Faults
    ensures { of_file RulesFound columns.now result }
{
    let mut found = Faults::NONE;
    for k in 0..columns.rules() {
        found = found.join(rule_faults(columns, columns.row(RULE_ROWS + k)));
    }
    found
}

// The earliest faults of a file within the counts: of its names, and of its kinds.
#[tactic(auto, using(crate::proofs::steps::RulesLaws::file_told))]
fn file_faults(columns: &Columns<'_>) -> Faults
    ensures { of_file FileFound columns.now result }
{
    let interfaces = interface_faults(columns);
    let entities = entity_faults(columns);
    let rules = rules_faults(columns);
    Faults {
        names: earlier(earlier(interfaces, entities.names), rules.names),
        kinds: earlier(entities.kinds, rules.kinds),
    }
}

// The fault that a grammatical file is refused for: its priorities come first, then its counts, its names, its kinds. Fills the directory.
fn judged(
    text: &[u8],
    classes: &[u8],
    offsets: &[u16],
    lengths: &[u8],
    values: &[u32],
    d: &mut [u16],
) -> Option<Fault>
    ensures { Judged text.now classes.now offsets.now lengths.now values.now d.old
        d.new result }
{
    let priorities = priority_fault(classes, offsets, values);
    let counts = count_fault(classes, offsets);
    build(classes, d);
    link_entities(text, offsets, lengths, d);
    let columns = Columns {
        text,
        classes,
        offsets,
        lengths,
        d,
    };
    let found = file_faults(&columns);
    priorities.or(counts).or(found.names).or(found.kinds)
}

// ---- the answer

/// Checks a text: its tokens into the columns, where its items begin into the directory. So many tokens it has, if it is accepted.
pub fn check(
    text: &[u8],
    classes: &mut [u8],
    offsets: &mut [u16],
    lengths: &mut [u8],
    values: &mut [u32],
    d: &mut [u16],
) -> Result<usize, CheckError>
    ensures { Checks text.now (columns_of classes.old offsets.old lengths.old values.old)
        (columns_of classes.new offsets.new lengths.new values.new) d.old d.new result }
{
    if d.len() < DIRECTORY {
        return Err(CheckError::NoRoom);
    }
    let n = read(text, classes, offsets, lengths, values)?;
    match judged(text, &classes[..n], offsets, lengths, values, d) {
        Some(fault) => Err(CheckError::Refused(fault)),
        None => Ok(n),
    }
}
