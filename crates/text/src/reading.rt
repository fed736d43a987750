// A text read into lent columns: its tokens, and whether they are a file.
ghost use Rattle.std.specs.Prelude.{◌≡◌, ◌≤◌, length};
ghost use Rattle.text.specs.inner_contracts.TokenTable.{columns_of};
ghost use Rattle.text.specs.inner_contracts.Syntaxes.{ReadsText, Settles};

use crate::SyntaxError;
use crate::grammar::parse;
use crate::tokens::lex;

// Are the first `count` tokens, of a text of `end` bytes, a file? By their classes and offsets.
fn settled(count: usize, end: usize, classes: &[u8], offsets: &[u16]) -> Result<usize, SyntaxError>
    requires { (count ≤ length classes.now) × (count ≤ length offsets.now) }
    ensures { Settles count end classes.now offsets.now result }
{
    match parse(&classes[..count]) {
        Ok(()) => Ok(count),
        Err(unfit) if unfit.at < count => {
            Err(SyntaxError::UnfitAt(usize::from(offsets[unfit.at])))
        }
        Err(_) => Err(SyntaxError::UnfitAt(end)),
    }
}

/// Reads a text into columns, a row for each token: its class, offset, length and value. Answers the count of tokens, if they are a file. Rows
/// after the last may hold anything, and so may all where the text is refused.
pub fn read(
    text: &[u8],
    classes: &mut [u8],
    offsets: &mut [u16],
    lengths: &mut [u8],
    values: &mut [u32],
) -> Result<usize, SyntaxError>
    ensures { ReadsText text.now (columns_of classes.old offsets.old lengths.old values.old)
        (columns_of classes.new offsets.new lengths.new values.new) result }
{
    let count = lex(text, classes, offsets, lengths, values)?;
    settled(count, text.len(), classes, offsets)
}
