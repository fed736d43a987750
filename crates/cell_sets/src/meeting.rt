// The rows that have a number in common with a set.
ghost use Rattle.std.specs.Prelude.{◌+◌, ◌*◌, ◌^◌, ◌≤◌, ◌<◌, length};
ghost use Rattle.cell_sets.specs.definitions.Sets.{has_bit};
ghost use Rattle.cell_sets.specs.inner_contracts.Adding.{Added};
ghost use Rattle.cell_sets.specs.inner_contracts.Meeting.{byte_meets, Met};

use crate::bits::with_bit;

// Adds to the bits of `met` the rows whose byte number j has a bit in common with this byte.
#[tactic(auto, using(crate::proofs::steps::AddingSteps::added_begin, crate::proofs::steps::AddingSteps::added_end, crate::proofs::steps::MeetingSteps::row_within))]
fn add_meeting(
    rows: &[u8],
    base: usize,
    size: usize,
    count: u8,
    j: usize,
    byte: u8,
    met: u64,
) -> u64
    requires few { count ≤ 64 }
    requires rows { base + size * count ≤ length rows.now }
    requires byte { (j < size) × (size < 2 ^ 63) }
    ensures { Added (byte_meets rows.now (base + j) size byte) 0 count (has_bit met) (has_bit result) }
{
    let mut all = met;
    let mut at = base + j;
    for k in 0..count {
        if rows[at] & byte != 0 {
            all = with_bit(all, k);
        }
        at += size;
    }
    all
}

/// Which of so many rows have a number in common with the set, as the bits of a number.
// Byte by byte of the set, since few of its bytes are not 0.
#[tactic(auto, using(crate::proofs::steps::MeetingSteps::met_begin, crate::proofs::steps::MeetingSteps::met_skip, crate::proofs::steps::MeetingSteps::met_next, crate::proofs::steps::MeetingSteps::met_end))]
pub fn rows_met(rows: &[u8], base: usize, size: usize, count: u8, set: &[u8]) -> u64
    requires few { count ≤ 64 }
    requires rows { base + size * count ≤ length rows.now }
    requires set { size ≤ length set.now }
    ensures { Met rows.now base size count set.now result }
{
    let mut met = 0;
    for j in 0..size {
        if set[j] != 0 {
            met = add_meeting(rows, base, size, count, j, set[j], met);
        }
    }
    met
}
