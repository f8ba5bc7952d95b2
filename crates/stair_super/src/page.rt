ghost use Rattle.std.specs.Prelude.{◌≡◌, ◌+◌, ◌-◌, ◌≤◌, ◌++◌, [], length};
ghost use Rattle.stair_model.specs.Stripe.{SECTOR};
ghost use Rattle.stair_super.specs.Spelling.{zeros, number32, number64};

use byteorder::{BigEndian, ByteOrder};
use stair_base::SECTOR;
use std::marker::Model;

/// 512 bytes that are written from the front. What isn't written is zero.
pub struct Page {
    bytes: [u8; SECTOR],
    len: usize,
}

impl Model for Page {
    ghost use Rattle.std.specs.Prelude.{ℕ, List, take};

    ghost Value = { List ℕ };

    ghost use Rattle.stair_super.specs.Page.{IsPage};

    ghost view = { λ a. take a.len a.bytes };

    ghost invariant = { IsPage };
}

impl Page {
    /// A page of which nothing is written.
    pub fn new() -> Page
        ensures text { result ≡ [] }
        ensures len { length result ≡ 0 }
    {
        Page {
            bytes: [0; SECTOR],
            len: 0,
        }
    }

    /// Writes the bytes after those that are written.
    pub fn put(&mut self, field: &[u8])
        requires { length self.old + length field.now ≤ SECTOR }
        ensures text { self.new ≡ self.old ++ field.now }
        ensures len { length self.new ≡ length self.old + length field.now }
    {
        let end = self.len + field.len();
        self.bytes[self.len..end].copy_from_slice(field);
        self.len = end;
    }

    /// Writes a number in four bytes, the highest first.
    #[tactic(auto, unfolding(crate::specs::Spelling::number32))]
    pub fn put_u32(&mut self, number: u32)
        requires { length self.old + 4 ≤ SECTOR }
        ensures text { self.new ≡ self.old ++ number32 number }
        ensures len { length self.new ≡ length self.old + 4 }
    {
        let mut field = [0; 4];
        BigEndian::write_u32(&mut field, number);
        self.put(&field);
    }

    /// Writes a number in eight bytes, the highest first.
    #[tactic(auto, unfolding(crate::specs::Spelling::number64))]
    pub fn put_u64(&mut self, number: u64)
        requires { length self.old + 8 ≤ SECTOR }
        ensures text { self.new ≡ self.old ++ number64 number }
        ensures len { length self.new ≡ length self.old + 8 }
    {
        let mut field = [0; 8];
        BigEndian::write_u64(&mut field, number);
        self.put(&field);
    }

    /// Leaves so many bytes zero.
    pub fn skip(&mut self, count: usize)
        requires { length self.old + count ≤ SECTOR }
        ensures text { self.new ≡ self.old ++ zeros count }
        ensures len { length self.new ≡ length self.old + count }
    {
        self.len += count;
    }

    /// The 512 bytes of the page.
    pub fn bytes(self) -> [u8; SECTOR]
        ensures { result ≡ self ++ zeros (SECTOR - length self) }
    {
        let Page { bytes, len: _ } = self;
        bytes
    }
}
