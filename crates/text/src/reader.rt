// A text with an offset in it, from which items are taken one after another.
ghost use Rattle.std.specs.Prelude.{◌≡◌};
ghost use Rattle.text.specs.inner_contracts.TokenTable.{token_at, offset_after};

use crate::Item;
use crate::tokens::{offset_after, token_at};

/// A text and an offset in it.
#[derive(Clone, Copy)]
pub struct Reader<'a> {
    pub text: &'a [u8],
    pub at: usize,
}

impl<'a> Reader<'a> {
    /// A reader over a text, at an offset.
    pub fn new(text: &'a [u8], at: usize) -> Reader<'a>
        ensures { (result.text ≡ text.entry) × (result.at ≡ at) }
    {
        Reader { text, at }
    }

    /// What begins at the reader's offset.
    pub fn item(self) -> Item
        ensures { result ≡ token_at self.entry.text.now self.entry.at }
    {
        token_at(self.text, self.at)
    }

    /// The reader after that item.
    pub fn advanced(self) -> Reader<'a>
        ensures { (result.text ≡ self.entry.text) × (result.at ≡ offset_after self.entry.text.now self.entry.at) }
    {
        Reader {
            text: self.text,
            at: offset_after(self.text, self.at),
        }
    }
}

/// What begins at an offset of a text.
pub fn item_at(text: &[u8], at: usize) -> Item
    ensures { result ≡ token_at text.now at }
{
    Reader::new(text, at).item()
}
