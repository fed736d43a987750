// What a line prints, at the front of a buffer that has room for a row.
ghost use Rattle.std.specs.Prelude.{◌≤◌, [], ◌∷◌, ◌++◌, length, IfOk};
ghost use Rattle.values.specs.inner_contracts.Puts.{Put};
ghost use Rattle.cycles.specs.definitions.Row;
ghost use Rattle.replay.specs.definitions.Replay.{refusal, bench_refusal};
ghost use Rattle.replay.specs.inner_contracts.Feeding;
ghost use Rattle.replay.specs.inner_contracts.Feeding.{Ended};

use engine::refusal::Refusal;
use values::{put_bytes, put_decimal};

// `refused` and a number.
#[tactic(auto, using(values::proofs::laws::FormLaws::decimal_most))]
fn put_refusal(out: &mut [u8], code: u8) -> usize
    requires { Feeding.ROOM ≤ length out.old }
    ensures { Put (refusal code) out.old 0 out.new result }
{
    let word = put_bytes(out, 0, b"refused ");
    put_decimal(out, word, code as u64)
}

/// The refusal of a bench: `refused`, its number and its place.
#[tactic(auto, using(values::proofs::laws::FormLaws::decimal_most, crate::proofs::steps::LineLaws::refusal_most))]
pub fn put_bench_refusal(out: &mut [u8], code: u8, at: u32) -> usize
    requires { Feeding.ROOM ≤ length out.old }
    ensures { Put (bench_refusal code at ++ 10 ∷ []) out.old 0 out.new result }
{
    let word = put_refusal(out, code);
    let space = put_bytes(out, word, b" ");
    let end = put_decimal(out, space, at as u64);
    put_bytes(out, end, b"\n")
}

/// Ends a row that stands in the buffer, or puts the refusal of its line.
#[inline]
#[tactic(auto, using(crate::proofs::steps::LineLaws::refusal_most))]
pub fn end_row(row: Result<usize, Refusal>, out: &mut [u8]) -> usize
    requires { IfOk row (λ n. n ≤ Row.MOST_ROW_BYTES) × (Feeding.ROOM ≤ length out.old) }
    ensures { Ended row out.old out.new result }
{
    match row {
        Ok(n) => {
            out[n] = b'\n';
            n + 1
        }
        Err(refusal) => {
            let end = put_refusal(out, refusal.code());
            put_bytes(out, end, b"\n")
        }
    }
}
