// For measuring the text layer alone (tests/speed/text): a text read into columns, and the answer in one number. It is no call of the engine.
//
// The columns are lent, so that no clearing of memory is measured; rows may be written also where a text is refused. A number is not what a call
// of the engine answers: 11 comes before 31, and a file has the count of its tokens above its 0.
#![tactic(auto)]

ghost use Rattle.std.specs.Prelude.{◌≡◌, ◌+◌, ◌*◌, ◌≤◌, ◌<◌};
ghost use Rattle.text.specs.inner_contracts.TokenTable.{columns_of};
ghost use Rattle.measure.specs.inner_contracts.Measured.{syntax_number, Measures};

use text::{SyntaxError, read};

// A code in the low 8 bits, and a number above them.
fn packed(code: u64, above: usize) -> u64
    requires { (code ≤ 255) × (above ≤ 32768) }
    ensures { result ≡ code + 256 * above }
{
    code + 256 * above as u64
}

#[tactic(auto, unfolding(crate::specs::inner_contracts::Measured::syntax_number))]
fn number(syntax: Result<usize, SyntaxError>) -> u64
    requires { syntax_number syntax < 256 * 32769 }
    ensures { result ≡ syntax_number syntax }
{
    match syntax {
        Ok(count) => packed(0, count),
        Err(error) => packed(u64::from(error.code()), error.offset()),
    }
}

// The answer of `read` in one number: document 01's code in the low 8 bits, above them the offset, or the number of a file's tokens.
#[tactic(auto, using(crate::proofs::steps::MeasuredLaws::answer_fits, crate::proofs::steps::MeasuredLaws::measured))]
#[unsafe(no_mangle)]
pub extern "C" fn measure_text(
    text: &[u8],
    classes: &mut [u8],
    offsets: &mut [u16],
    lengths: &mut [u8],
    values: &mut [u32],
) -> u64
    ensures { Measures text.now
        (columns_of classes.old offsets.old lengths.old values.old)
        (columns_of classes.new offsets.new lengths.new values.new) result }
{
    number(read(text, classes, offsets, lengths, values))
}
