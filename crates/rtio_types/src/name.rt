// The names of recordings and datasets.

ghost use Rattle.std.specs.Prelude.{◌≡◌, ◌↔◌, IsTrue, IsSome, IfSome};
ghost use Rattle.rtio_types.specs.Names.{is_name};

use std::marker::Model;

/// The name of a recording or dataset: 1 to 32 letters, digits or underscores. It owns no memory.
#[derive(Clone, Copy, Debug, PartialEq, Eq)]
pub struct Name {
    text: [u8; 32],
    count: u8,
}

impl Model for Name {
    ghost use Rattle.std.specs.Prelude.{List, ℕ, take, length};
    ghost use Rattle.rtio_types.specs.Names.{IsStoredName, padded};

    ghost Value = { List ℕ };

    ghost view = { λ n. take n.count n.text };

    ghost invariant = { λ n. IsStoredName n.text n.count };

    ghost inverse = { λ name. record { text = padded name; count = length name } };

    ghost inverse_ok = { λ n h i. record { text = h.zeros i; count = h.full i } };
}

impl Name {
    /// The name with these bytes; None where they aren't 1 to 32 letters, digits or underscores.
    pub fn read(bytes: &[u8]) -> Option<Name>
        ensures formed { IsSome result ↔ IsTrue (is_name bytes.now) }
        ensures value { IfSome result (λ name. name ≡ bytes.now) }
    {
        if is_formed(bytes) {
            Some(stored(bytes))
        } else {
            None
        }
    }

    /// The name's bytes, which are of its form.
    pub fn bytes(&self) -> &[u8]
        ensures value { result.now ≡ self.now }
        ensures formed { IsTrue (is_name result.now) }
    {
        &self.text[..self.count as usize]
    }
}

// Whether the bytes have the form of a name.
fn is_formed(bytes: &[u8]) -> bool
    ensures { result ≡ is_name bytes.now }
{
    1 <= bytes.len() && bytes.len() <= 32 && are_words(bytes)
}

ghost use Rattle.std.specs.List.{list_all};

fn are_words(bytes: &[u8]) -> bool
    ensures { result ≡ list_all is_word_byte bytes.now }
{
    bytes.iter().all(|byte| is_word(*byte))
}

ghost use Rattle.rtio_types.specs.Names.{is_word_byte};

fn is_word(byte: u8) -> bool
    ensures { result ≡ is_word_byte byte }
{
    byte.is_ascii_alphanumeric() || byte == b'_'
}

ghost use Rattle.std.specs.Prelude.{◌≤◌, length};
ghost use Rattle.rtio_types.specs.Names.{padded};

// The bytes, and zeros behind them.
fn filled(bytes: &[u8]) -> [u8; 32]
    requires { length bytes.now ≤ 32 }
    ensures { result ≡ padded bytes.now }
{
    let mut text = [0; 32];
    text[..bytes.len()].copy_from_slice(bytes);
    text
}

fn stored(bytes: &[u8]) -> Name
    requires { IsTrue (is_name bytes.now) }
    ensures { result ≡ bytes.now }
{
    Name {
        text: filled(bytes),
        count: bytes.len() as u8,
    }
}
