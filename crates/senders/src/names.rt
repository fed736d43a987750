// The form of a sender's name.
ghost use Rattle.std.specs.List.{list_all};
ghost use Rattle.std.specs.Prelude.{◌≡◌};
ghost use Rattle.text.specs.definitions.Bytes.{is_letter, is_name_byte};
ghost use Rattle.senders.specs.definitions.Sender.{is_sender};

use crate::layout::MOST_NAME_BYTES;

#[tactic(auto, unfolding(text::specs::definitions::Bytes::is_letter))]
fn is_letter(b: u8) -> bool
    ensures { result ≡ is_letter b }
{
    b.is_ascii_lowercase() || b.is_ascii_uppercase()
}

#[tactic(auto, unfolding(text::specs::definitions::Bytes::is_name_byte))]
fn is_name_byte(b: u8) -> bool
    ensures { result ≡ is_name_byte b }
{
    is_letter(b) || b.is_ascii_digit() || b == b'_'
}

fn are_name_bytes(name: &[u8]) -> bool
    ensures { result ≡ list_all is_name_byte name.now }
{
    name.iter().all(|&b| is_name_byte(b))
}

/// Has a name the form of a sender's? A letter, then letters, digits or `_`, 24 bytes at most.
#[tactic(auto, using(crate::proofs::steps::NameSteps::name_read))]
pub fn is_sender(name: &[u8]) -> bool
    ensures { result ≡ is_sender name.now }
{
    let Some(&first) = name.first() else {
        return false;
    };
    if !is_letter(first) {
        return false;
    }
    name.len() <= MOST_NAME_BYTES && are_name_bytes(name)
}
