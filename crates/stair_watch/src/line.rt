// A line of text that is made on the stack, so that it takes no memory and is put out in one piece.
ghost use Rattle.std.specs.Prelude.{◌≡◌, ◌+◌, ◌≤◌, ◌++◌, [], length};
ghost use Rattle.std.specs.Fmt.{decimal};

use std::marker::Model;

/// A line has at most so many bytes. The longest one, of a number and the 1,024 digits of a sector, has fewer.
pub const MAX_OUTPUT_LINE: usize = 1100;

/// A line of text, as far as it is made.
#[derive(Drop)]
pub struct Line {
    bytes: [u8; MAX_OUTPUT_LINE],
    len: usize,
}

impl Model for Line {
    ghost use Rattle.std.specs.Prelude.{ℕ, ◌≤◌, List, take};
    ghost use Rattle.stair_watch.specs.declared.line.TheConstants.{MAX_OUTPUT_LINE};

    ghost Value = { List ℕ };

    ghost view = { λ line. take line.len line.bytes };

    ghost invariant = { λ line. line.len ≤ MAX_OUTPUT_LINE };
}

impl Line {
    /// A line of no bytes.
    pub fn new() -> Line
        ensures text { result ≡ [] }
        ensures len { length result ≡ 0 }
    {
        Line {
            bytes: [0; MAX_OUTPUT_LINE],
            len: 0,
        }
    }

    /// Appends the bytes, for which there is room.
    pub fn push(&mut self, piece: &[u8])
        requires { length self.old + length piece.now ≤ MAX_OUTPUT_LINE }
        ensures text { self.new ≡ self.old ++ piece.now }
        ensures len { length self.new ≡ length self.old + length piece.now }
    {
        let end = self.len + piece.len();
        self.bytes[self.len..end].copy_from_slice(piece);
        self.len = end;
    }

    /// Appends a name, and a number in decimal digits, of which there are at most 20.
    pub fn push_named(&mut self, name: &[u8], number: u64)
        requires { length self.old + length name.now + 20 ≤ MAX_OUTPUT_LINE }
        ensures text { self.new ≡ self.old ++ (name.now ++ decimal number) }
        ensures short { length self.new ≤ length self.old + length name.now + 20 }
    {
        self.push(name);
        self.push(itoa::Buffer::new().format(number).as_bytes());
    }

    /// Takes all of it out again.
    pub fn clear(&mut self)
        ensures text { self.new ≡ [] }
        ensures len { length self.new ≡ 0 }
    {
        self.len = 0;
    }

    /// The bytes.
    pub fn bytes(&self) -> &[u8]
        ensures { result.now ≡ self.now }
    {
        &self.bytes[..self.len]
    }
}
