// What a line does to a state, or why it is refused.
ghost use Rattle.std.specs.Prelude.{◌≡◌};
ghost use Rattle.senders.specs.inner_contracts.Judging.{code_of};

/// What an accepted line does.
#[derive(Clone, Copy, Debug, PartialEq, Eq)]
pub enum Turn {
    /// A new line, of the sender at a place: a cycle begins.
    New { place: usize, number: u32 },
    /// A line of the sender at a place that was taken already ("resent"): nothing changes.
    Retransmission { place: usize },
}

/// Why a line of values is refused.
#[derive(Clone, Copy, Debug, PartialEq, Eq)]
pub enum LineError {
    IllFormed,
    IllFormedValue,
    OutOfTurn,
    OtherReadings,
    NoState,
    NinthSender,
    IllFormedSender,
}

impl LineError {
    /// The number that the documents give it.
    pub const fn code(self) -> u8
        ensures { result ≡ code_of self }
    {
        match self {
            LineError::IllFormed => 21,
            LineError::IllFormedValue => 23,
            LineError::OutOfTurn => 24,
            LineError::OtherReadings => 25,
            LineError::NoState => 33,
            LineError::NinthSender => 42,
            LineError::IllFormedSender => 43,
        }
    }
}
