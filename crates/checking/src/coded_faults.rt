// Faults by their numbers, whatever numbers those are.
ghost use Rattle.std.specs.Prelude.{◌≡◌};
ghost use Rattle.checking.specs.definitions.Faults.{fault_unless, earliest};
ghost use Rattle.checking.specs.inner_contracts.FoundFaults.{merged};
ghost use Rattle.checking.specs.inner_contracts.CodedFaults.{coded_as, CodedJoined};

/// A fault by the number of its kind, and the offset at which it stands.
#[derive(Clone, Copy, Debug, PartialEq, Eq)]
pub struct CodedFault {
    pub code: u8,
    pub at: u32,
}

/// The earlier of two faults; the first where neither is earlier.
#[tactic(auto, unfolding(crate::specs::inner_contracts::CodedFaults::coded_as, crate::specs::inner_contracts::FoundFaults::merged, crate::specs::definitions::Faults::earlier))]
pub fn earlier(a: Option<CodedFault>, b: Option<CodedFault>) -> Option<CodedFault>
    ensures { coded_as result ≡ merged (coded_as a) (coded_as b) }
{
    match (a, b) {
        (None, _) => b,
        (_, None) => a,
        (Some(first), Some(second)) => { if first.at <= second.at { a } else { b } }
    }
}

/// A fault of this number unless the test passes.
#[tactic(auto, using(crate::proofs::laws::FaultLaws::earliest_passed, crate::proofs::laws::FaultLaws::earliest_failed), unfolding(crate::specs::inner_contracts::CodedFaults::coded_as))]
pub fn unless(passed: bool, code: u8, at: u32) -> Option<CodedFault>
    ensures { coded_as result ≡ earliest (fault_unless passed code at) }
{
    if passed {
        return None;
    }
    Some(CodedFault { code, at })
}

/// A part of a rule up to token number `next`, and its earliest faults: of its names, and of its kinds.
#[derive(Clone, Copy)]
pub struct CodedPart {
    pub next: usize,
    pub names: Option<CodedFault>,
    pub kinds: Option<CodedFault>,
}

/// Two parts, one after the other.
pub fn joined(p: CodedPart, q: CodedPart) -> CodedPart
    ensures { CodedJoined p q result }
{
    CodedPart {
        next: q.next,
        names: earlier(p.names, q.names),
        kinds: earlier(p.kinds, q.kinds),
    }
}
