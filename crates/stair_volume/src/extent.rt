use stair_conf::Name;

/// A range of blocks of an array.
#[derive(Clone, Copy, Debug, PartialEq, Eq)]
pub struct Extent {
    /// The first block.
    pub first: u64,
    /// The number of blocks.
    pub blocks: u64,
}

/// A volume: its name, and its blocks of the array.
#[derive(Clone, Copy, Debug)]
pub struct Entry {
    pub name: Name,
    pub extent: Extent,
}

impl Extent {
    ghost use Rattle.std.specs.Prelude.{◌≡◌, ◌^◌, ◌<◌, nat_lt};
    ghost use Rattle.stair_volume.specs.Table.{end_of, is_within as is_inside, meets as have_common};

    /// Returns the block after the last one.
    pub(crate) fn end(self) -> u64
        requires { end_of self < 2 ^ 64 }
        ensures { result ≡ end_of self }
    {
        self.first + self.blocks
    }

    /// Returns whether it lies within an array of `blocks` blocks, after block 0.
    pub(crate) fn is_within(self, blocks: u64) -> bool
        ensures { result ≡ is_inside blocks self }
    {
        self.first >= 1 && self.first <= blocks && self.blocks <= blocks - self.first
    }

    /// Returns whether some block is in both.
    pub(crate) fn meets(self, other: Extent) -> bool
        ensures { result ≡ have_common self other }
    {
        self.begins_before_end(other) && other.begins_before_end(self)
    }

    // Whether its first block lies before the end of the other.
    fn begins_before_end(self, other: Extent) -> bool
        ensures { result ≡ nat_lt self.first (end_of other) }
    {
        self.first < other.first || self.first - other.first < other.blocks
    }
}
