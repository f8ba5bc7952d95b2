ghost use Rattle.std.specs.Prelude.{◌≡◌, ◌≤◌, ◌↔◌, ℕ, List, All, IsTrue, Some, length};
ghost use Rattle.stair_conf.specs.Name.{IsName, IsNameByte, padded};

use std::marker::Model;

/// The most bytes of a name.
pub const NAME_LIMIT: usize = 16;

/// The name of a volume: 1 to 16 bytes, each a letter `a` to `z`, a digit or `_`.
#[derive(Clone, Copy, Debug, PartialEq, Eq)]
pub struct Name {
    len: u8,
    // zeros after the name, so that equal names are equal
    text: [u8; NAME_LIMIT],
}

impl Model for Name {
    ghost use Rattle.std.specs.Prelude.{ℕ, List};
    ghost use Rattle.stair_conf.specs.StoredName.{IsStored, kept, kept-shown, shown};

    ghost Value = { List ℕ };

    ghost view = { shown };

    ghost invariant = { IsStored };

    ghost inverse = { kept };

    ghost inverse_ok = { kept-shown };
}

impl Name {
    /// The name with this text, exactly where it is one.
    pub fn new(text: &[u8]) -> Option<Name>
        ensures { (name : List ℕ) → (result ≡ Some name) ↔ ((name ≡ text.now) × IsName name) }
    {
        if text.is_empty() || text.len() > NAME_LIMIT || !are_name_bytes(text) {
            return None;
        }
        Some(Name {
            len: text.len() as u8,
            text: padded_text(text),
        })
    }

    /// The text: 1 to 16 bytes.
    pub fn bytes(&self) -> &[u8]
        ensures value { result.now ≡ self.now }
        ensures rules { IsName self.now }
    {
        &self.text[..usize::from(self.len)]
    }
}

// Whether each byte may stand in a name.
fn are_name_bytes(text: &[u8]) -> bool
    ensures { IsTrue result ↔ All IsNameByte text.now }
{
    for byte in text {
        if !is_name_byte(*byte) {
            return false;
        }
    }
    true
}

// Whether the byte may stand in a name.
fn is_name_byte(byte: u8) -> bool
    ensures { IsTrue result ↔ IsNameByte byte }
{
    byte.is_ascii_lowercase() || byte.is_ascii_digit() || byte == b'_'
}

// The text, with zeros after it.
fn padded_text(text: &[u8]) -> [u8; NAME_LIMIT]
    requires { length text.now ≤ 16 }
    ensures { result ≡ padded text.now }
{
    let mut bytes = [0; NAME_LIMIT];
    for (at, byte) in text.iter().enumerate() {
        bytes[at] = *byte;
    }
    bytes
}
