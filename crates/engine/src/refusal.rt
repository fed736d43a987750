// Why a call is refused, and the number that a call answers.
ghost use Rattle.std.specs.Prelude.{◌≡◌, ◌≤◌, ◌<◌, length, MatchResult};
ghost use Rattle.engine.specs.inner_contracts.Refusals.{code_of, refusal_answer, answer_of};
ghost use Rattle.engine.specs.declared.refusal.Refusal.TheVariants.{ShortMemory, Line, Sheet};

use checking::{Fault, coded};
use days::sheet::SheetError;
use senders::LineError;

// So many lengths can stand above a number.
const LENGTHS: usize = 72057594037927936;

/// Why a call is refused.
#[derive(Clone, Copy, Debug, PartialEq, Eq)]
pub enum Refusal {
    ShortMemory, // lent memory is shorter than its stated size
    NoBench, // memory is no checked bench
    NoState, // memory is no state of the bench
    Header, // a line of names
    IllFormedSender, // of a row that is asked for
    Text(Fault), // a bench file, for its fault
    Line(LineError), // a line of values
    Sheet(SheetError), // a day sheet
}

impl Refusal {
    /// The number that the documents give it.
    pub const fn code(self) -> u8
        ensures { result ≡ code_of self }
    {
        match self {
            Refusal::Header => 22,
            Refusal::ShortMemory => 31,
            Refusal::NoBench => 32,
            Refusal::NoState => 33,
            Refusal::IllFormedSender => 43,
            Refusal::Text(fault) => fault.kind.code(),
            Refusal::Line(error) => error.code(),
            Refusal::Sheet(error) => error.code(),
        }
    }
}

impl From<LineError> for Refusal {
    ghost from_gives = { λ e r. r ≡ Line e };

    fn from(error: LineError) -> Refusal {
        Refusal::Line(error)
    }
}

impl From<SheetError> for Refusal {
    ghost from_gives = { λ e r. r ≡ Sheet e };

    fn from(error: SheetError) -> Refusal {
        Refusal::Sheet(error)
    }
}

impl From<Refusal> for u64 {
    ghost from_gives = { λ r n. n ≡ refusal_answer r };

    fn from(refusal: Refusal) -> u64 {
        match refusal {
            Refusal::Text(fault) => coded(fault.kind.code(), fault.at),
            other => other.code() as u64,
        }
    }
}

/// The answer of a call: the length that it wrote above a low byte of 0, or its refusal.
pub fn answer(done: Result<usize, Refusal>) -> u64
    ensures { result ≡ answer_of done }
{
    match done {
        Ok(length) => 256 * ((length % LENGTHS) as u64),
        Err(refusal) => u64::from(refusal),
    }
}

/// Is lent memory as long as its stated size?
pub fn room_for(memory: &[u8], size: usize) -> Result<(), Refusal>
    ensures { MatchResult result (λ _. size ≤ length memory.now) (λ e. (e ≡ ShortMemory) × (length memory.now < size)) }
{
    if memory.len() < size {
        return Err(Refusal::ShortMemory);
    }
    Ok(())
}
