// The bench image: a text with its length in front.
ghost use Rattle.std.specs.Prelude.{◌≡◌, ◌≤◌, length};
ghost use Rattle.checking.specs.definitions.Verdict;
ghost use Rattle.engine.specs.definitions.BenchImage;
ghost use Rattle.engine.specs.definitions.BenchImage.{with_bench, text_in};

use checking::layout::MOST_BYTES;
use cycles::layout::NUMBER_BYTES;
use values::put_bytes;

// The text that an image holds; no text, where its length is too great.
#[tactic(auto, unfolding(crate::specs::definitions::BenchImage::text_in))]
pub fn text_of(bench: &[u8]) -> &[u8]
    requires { BenchImage.BENCH ≤ length bench.now }
    ensures { result.now ≡ text_in bench.now }
{
    let size = cycles::number(bench) as usize;
    if MOST_BYTES < size {
        return &bench[0..0];
    }
    &bench[NUMBER_BYTES..NUMBER_BYTES + size]
}

// Writes the image of a text.
pub fn put_bench(text: &[u8], bench: &mut [u8])
    requires { (length text.now ≤ Verdict.MOST_BYTES) × (BenchImage.BENCH ≤ length bench.old) }
    ensures { bench.new ≡ with_bench text.now bench.old }
{
    cycles::put_number(bench, text.len() as u32);
    put_bytes(bench, NUMBER_BYTES, text);
}
