// The priorities: the earliest number above the greatest one, by a scan of the columns. In a grammatical file each `rank` has its number after it.
ghost use Rattle.std.specs.Prelude.{◌≡◌};
ghost use Rattle.checking.specs.definitions.Faults.{earliest};
ghost use Rattle.checking.specs.inner_contracts.FoundFaults.{found_as};
ghost use Rattle.checking.specs.inner_contracts.PriorityScan.{number_fault_at, PriorityChecked};

use crate::faults::{Fault, FaultKind, earlier, unless};
use crate::layout::MOST_PRIORITY;
use crate::table::row;
use text::classes::RANK;
use text::walks::{class_at, value_at};

// A fault at token number i, the number of a priority, if it is above the greatest one.
#[tactic(auto, unfolding(crate::specs::inner_contracts::PriorityScan::number_fault_at))]
fn above(offsets: &[u16], values: &[u32], i: usize) -> Option<Fault>
    ensures { found_as result ≡ earliest (number_fault_at offsets.now values.now i) }
{
    unless(
        value_at(values, i) <= MOST_PRIORITY,
        FaultKind::HighPriority,
        row(offsets, i) as u32,
    )
}

// The earliest priority above the greatest one, of a grammatical file.
#[tactic(auto, using(crate::proofs::steps::PriorityScanLaws::priority_turns))]
pub fn priority_fault(classes: &[u8], offsets: &[u16], values: &[u32]) -> Option<Fault>
    ensures { PriorityChecked classes.now offsets.now values.now result }
{
    let mut found = None;
    for i in 0..classes.len() {
        if class_at(classes, i) == RANK {
            found = earlier(found, above(offsets, values, i + 1));
        }
    }
    found
}
