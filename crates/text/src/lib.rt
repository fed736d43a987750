// The text of a bench file: its bytes and its tokens.
#![tactic(auto)]

ghost use Rattle.std.specs.Prelude.{◌≡◌};
ghost use Rattle.text.specs.inner_contracts.EnumAnswers.{code_of, offset_of};

pub mod bytes; // the class of each byte
pub mod classes; // the numbers of the tokens' classes
pub mod grammar; // which token classes make a file
pub mod reader; // a text with an offset, from which items are taken
pub mod reading; // a text into columns of tokens that are a file
pub mod tokens; // what begins at an offset, and all tokens as columns
pub mod walks; // steps over a column, and where a reading ends

pub use bytes::{ByteClass, class_of_byte};
pub use grammar::{Unfit, parse};
pub use reader::item_at;
pub use reading::read;
pub use tokens::{lex, name_class};

// What begins at an offset: a gap or a token, with the offset after it, a byte that begins neither, or nothing, at the text's end.
#[derive(Clone, Copy)]
pub enum Item {
    Gap(usize),
    Found { class: u8, value: u32, next: usize },
    Bad,
    End,
}

/// Why a text was not read into columns as a file.
#[derive(Clone, Copy, Debug, PartialEq, Eq)]
pub enum SyntaxError {
    /// It has more bytes than a bench file may have.
    TooLong,
    /// No token is allowed at this offset.
    NoTokenAt(usize),
    /// No grammatical file has the token at this offset after those before it; the text's length, if it ends early.
    UnfitAt(usize),
    /// A column has fewer rows than the text has bytes.
    NoRoom,
}

impl SyntaxError {
    /// Document 01's number.
    #[tactic(auto, unfolding(crate::specs::inner_contracts::EnumAnswers::code_of))]
    pub fn code(self) -> u8
        ensures { result ≡ code_of self }
    {
        match self {
            SyntaxError::TooLong => 11,
            SyntaxError::NoTokenAt(_) => 12,
            SyntaxError::UnfitAt(_) => 13,
            SyntaxError::NoRoom => 31,
        }
    }

    /// The offset that is refused; 0 where only a column is too short.
    #[tactic(auto, unfolding(crate::specs::inner_contracts::EnumAnswers::offset_of))]
    pub fn offset(self) -> usize
        ensures { result ≡ offset_of self }
    {
        match self {
            SyntaxError::TooLong => 32768,
            SyntaxError::NoTokenAt(at) | SyntaxError::UnfitAt(at) => at,
            SyntaxError::NoRoom => 0,
        }
    }
}
