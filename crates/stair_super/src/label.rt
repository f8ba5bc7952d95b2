ghost use Rattle.std.specs.Prelude.{◌≡◌, ◌↔◌, ◌≤◌, [], All, Any, IsTrue, IfSome, length};
ghost use Rattle.stair_super.specs.Label.{IsPrintable, IsUnprintable, IsLabel, IsNoLabel, padded};

use std::marker::Model;

/// The label of an array: at most 64 bytes of printable ASCII, 0x20 to 0x7E. It may be empty.
#[derive(Clone, Copy, Debug, PartialEq, Eq)]
pub struct Label {
    len: u8,
    // zeros after the label, so that equal labels are equal
    text: [u8; 64],
}

impl Model for Label {
    ghost use Rattle.std.specs.Prelude.{ℕ, List};

    ghost Value = { List ℕ };

    ghost use Rattle.stair_super.specs.StoredLabel.{shown, kept, IsStored, kept-shown};

    ghost view = { shown };

    ghost invariant = { IsStored };

    ghost inverse = { kept };

    ghost inverse_ok = { kept-shown };
}

/// Whether all bytes are printable ASCII.
fn is_printable(text: &[u8]) -> bool
    ensures yes { IsTrue result → All IsPrintable text.now }
    ensures not { ¬ IsTrue result → Any IsUnprintable text.now }
{
    for byte in text {
        if *byte < 0x20 || *byte > 0x7E {
            return false;
        }
    }
    true
}

/// The text, with zeros after it.
fn padded_text(text: &[u8]) -> [u8; 64]
    requires { length text.now ≤ 64 }
    ensures { result ≡ padded text.now }
{
    let mut bytes = [0; 64];
    for (at, byte) in text.iter().enumerate() {
        bytes[at] = *byte;
    }
    bytes
}

impl Label {
    /// The label with this text. None is answered exactly where the text is longer than 64 bytes or has a byte that
    /// isn't printable ASCII.
    pub fn new(text: &[u8]) -> Option<Label>
        ensures some { IfSome result (λ label. label ≡ text.now) }
        ensures label { IsLabel text.now → result ≡ Some text.now }
        ensures none { (result ≡ None) ↔ IsNoLabel text.now }
    {
        if text.len() > 64 || !is_printable(text) {
            return None;
        }
        Some(Label {
            len: text.len() as u8,
            text: padded_text(text),
        })
    }

    /// The label of an array that has none: no bytes.
    pub fn empty() -> Label
        ensures { result ≡ [] }
    {
        Label {
            len: 0,
            text: [0; 64],
        }
    }

    /// The text: at most 64 bytes, each printable ASCII.
    pub fn bytes(&self) -> &[u8]
        ensures value { result.now ≡ self.now }
        ensures rules { IsLabel self.now }
    {
        &self.text[..usize::from(self.len)]
    }
}
