// The fingerprint of a bench text.
ghost use Rattle.std.specs.Prelude.{◌≡◌, ◌%◌, ◌≤◌, ◌<◌, length, drop};
ghost use Rattle.senders.specs.definitions.Fingerprint;
ghost use Rattle.senders.specs.definitions.Fingerprint.{next_fingerprint, fingerprint_from, fingerprint};
ghost use Rattle.senders.specs.inner_contracts.PrintSums.{SUMS_BELOW};

use crate::layout::{BASE, BASE_CUBED, BASE_SQUARED, HALF, HALF_LEAVES, PRIME, THREE_ONES};

// Three bytes more, which still fit 64 bits. A remainder for each would be slow: the high half goes onto the low one instead, times what
// it leaves.
fn next_three(print: u64, first: u8, second: u8, third: u8) -> u64
    requires { print < SUMS_BELOW }
    ensures { (result < SUMS_BELOW) × (result % Fingerprint.PRIME ≡ next_fingerprint (next_fingerprint (next_fingerprint (print % Fingerprint.PRIME) first) second) third) }
{
    let bytes = u64::from(first) * BASE_SQUARED
        + u64::from(second) * BASE
        + u64::from(third)
        + THREE_ONES;
    let sum = print * BASE_CUBED + bytes;
    sum / HALF * HALF_LEAVES + sum % HALF
}

// The bytes from `at` on, one by one.
#[tactic(auto, using(crate::proofs::steps::PrintSteps::print_step, crate::proofs::steps::PrintSteps::print_ends))]
fn print_rest(text: &[u8], at: usize, so_far: u64) -> u32
    requires { (at ≤ length text.now) × (so_far < Fingerprint.PRIME) }
    ensures { result ≡ fingerprint_from so_far (drop at text.now) }
{
    let mut print = so_far;
    for i in at..text.len() {
        print = (print * BASE + u64::from(text[i]) + 1) % PRIME;
    }
    print as u32
}

/// The fingerprint of a text. Three bytes a turn: the call is to be fast, and the rest is `print_rest`'s.
#[tactic(auto, using(crate::proofs::steps::PrintSteps::print_begins, crate::proofs::steps::PrintSteps::three_steps))]
pub fn fingerprint(text: &[u8]) -> u32
    ensures { result ≡ fingerprint text.now }
{
    let mut print: u64 = 0;
    let mut i = 0;
    while 3 <= text.len() - i {
        let second = i + 1;
        let third = second + 1;
        print = next_three(print, text[i], text[second], text[third]);
        i = third + 1;
    }
    print_rest(text, i, print % PRIME)
}
