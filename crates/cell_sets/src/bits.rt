// One bit of a number, and one number of a set.
ghost use Rattle.std.specs.Prelude.{ℕ, ◌+◌, ◌/◌, ◌<◌, ◌≡◌, ◌||◌, eqb, length};
ghost use Rattle.cell_sets.specs.definitions.Sets.{has_bit};
ghost use Rattle.cell_sets.specs.inner_contracts.Meeting.{with_member};

/// Whether bit `k` of a number is set.
#[tactic(auto, unfolding(crate::specs::definitions::Sets::has_bit))]
pub fn has_bit(n: u64, k: u8) -> bool
    requires { k < 64 }
    ensures { result ≡ has_bit n k }
{
    (n >> k) % 2 == 1
}

/// The number with bit `k` set.
pub fn with_bit(n: u64, k: u8) -> u64
    requires { k < 64 }
    ensures { (j : ℕ) → has_bit result j ≡ (has_bit n j || eqb k j) }
{
    n | (1u64 << k)
}

/// Puts `i` into the set whose bytes begin at `base`.
#[tactic(auto, using(crate::proofs::laws::BitLaws::bit_shifted), unfolding(crate::specs::inner_contracts::Meeting::with_member))]
pub fn add(sets: &mut [u8], base: usize, i: usize)
    requires { base + i / 8 < length sets.old }
    ensures { sets.new ≡ with_member base sets.old i }
{
    let at = base + i / 8;
    sets[at] |= 1u8 << (i % 8);
}
