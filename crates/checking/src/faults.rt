// Faults of a text, and the earliest of those that the walks of the check find.
ghost use Rattle.std.specs.Prelude.{◌≡◌};
ghost use Rattle.checking.specs.definitions.Faults.{fault_unless, earliest};
ghost use Rattle.checking.specs.inner_contracts.FoundFaults.{fault_code, found_as, merged};

use crate::coded_faults::CodedFault;

/// Why a text is refused.
#[derive(Clone, Copy, Debug, PartialEq, Eq)]
pub enum FaultKind {
    TooLong, // more bytes than a bench file may have
    NoToken, // a place where no token begins
    UnfitToken, // a token that fits no grammatical file after those before it
    HighPriority, // a rank above 9
    BeyondCount, // an item beyond a count
    DeclaredAgain, // a name declared, or an attribute set, again
    Unknown, // a name or a member that is not known, or of the wrong sort
    AttributeUnset, // an attribute that its entity does not set
    UnfitKinds, // kinds that do not fit
}

impl FaultKind {
    /// The number that the documents give it.
    pub const fn code(self) -> u8
        ensures { result ≡ fault_code self }
    {
        match self {
            FaultKind::TooLong => 11,
            FaultKind::NoToken => 12,
            FaultKind::UnfitToken => 13,
            FaultKind::HighPriority => 44,
            FaultKind::BeyondCount => 14,
            FaultKind::DeclaredAgain => 15,
            FaultKind::Unknown => 16,
            FaultKind::AttributeUnset => 17,
            FaultKind::UnfitKinds => 18,
        }
    }
}

/// A fault of a text, and the offset at which it stands.
#[derive(Clone, Copy, Debug, PartialEq, Eq)]
pub struct Fault {
    pub kind: FaultKind,
    pub at: u32,
}

impl Fault {
    /// With the number of its kind.
    pub fn coded(self) -> CodedFault
        ensures { (result.code ≡ fault_code self.kind) × (result.at ≡ self.at) }
    {
        CodedFault {
            code: self.kind.code(),
            at: self.at,
        }
    }
}

/// The earlier of two faults; the first where neither is earlier.
#[tactic(auto, unfolding(crate::specs::inner_contracts::FoundFaults::found_as, crate::specs::inner_contracts::FoundFaults::merged, crate::specs::definitions::Faults::earlier))]
pub fn earlier(a: Option<Fault>, b: Option<Fault>) -> Option<Fault>
    ensures { found_as result ≡ merged (found_as a) (found_as b) }
{
    match (a, b) {
        (None, _) => b,
        (_, None) => a,
        (Some(first), Some(second)) => { if first.at <= second.at { a } else { b } }
    }
}

/// A fault of this kind unless the test passes.
#[tactic(auto, using(crate::proofs::laws::FaultLaws::earliest_passed, crate::proofs::laws::FaultLaws::earliest_failed), unfolding(crate::specs::inner_contracts::FoundFaults::found_as))]
pub fn unless(passed: bool, kind: FaultKind, at: u32) -> Option<Fault>
    ensures { found_as result ≡ earliest (fault_unless passed (fault_code kind) at) }
{
    if passed {
        return None;
    }
    Some(Fault { kind, at })
}

/// The earliest faults of a part of a file: of its names, and of its kinds.
#[derive(Clone, Copy)]
pub struct Faults {
    pub names: Option<Fault>,
    pub kinds: Option<Fault>,
}

impl Faults {
    /// No fault.
    pub const NONE: Faults = Faults {
        names: None,
        kinds: None,
    };

    /// With those of another part.
    pub fn join(self, other: Faults) -> Faults
        ensures names { found_as result.names ≡ merged (found_as self.names) (found_as other.names) }
        ensures kinds { found_as result.kinds ≡ merged (found_as self.kinds) (found_as other.kinds) }
    {
        Faults {
            names: earlier(self.names, other.names),
            kinds: earlier(self.kinds, other.kinds),
        }
    }
}
