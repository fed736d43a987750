// Bytes in lent memory: compared, put, and as numbers with the lowest byte first.
ghost use Rattle.std.specs.Prelude.{◌≡◌, ◌+◌, ◌≤◌, ◌<◌, length};
ghost use Rattle.values.specs.definitions.Bytes.{same_bytes, word_at, low_first, overwritten};
ghost use Rattle.values.specs.inner_contracts.Puts.{Put};

/// The number in the 8 bytes from `at` on, the lowest first.
pub fn word_at(s: &[u8], at: usize) -> u64
    requires { at + 8 ≤ length s.now }
    ensures { result ≡ word_at 8 s.now at }
{
    u64::from_le_bytes(*s[at..].first_chunk::<8>().unwrap())
}

/// Puts a number into the 8 bytes from `at` on, the lowest first.
pub fn put_word(s: &mut [u8], at: usize, w: u64)
    requires { at + 8 ≤ length s.old }
    ensures { s.new ≡ overwritten s.old at (low_first 8 w) }
{
    s[at..at + 8].copy_from_slice(&w.to_le_bytes());
}

/// Puts `t` over what stands from `at` on, and gives the offset after it.
// Byte by byte: `copy_from_slice` calls `memmove`, and the archive for C needs `memcpy` and `memset` alone.
pub fn put_bytes(s: &mut [u8], at: usize, t: &[u8]) -> usize
    requires { at + length t.now ≤ length s.old }
    ensures { Put t.now s.old at s.new result }
{
    for i in 0..t.len() {
        s[at + i] = t[i];
    }
    at + t.len()
}

/// Whether two runs of bytes are one.
pub fn same_bytes(s: &[u8], t: &[u8]) -> bool
    ensures { result ≡ same_bytes s.now t.now }
{
    s == t
}
