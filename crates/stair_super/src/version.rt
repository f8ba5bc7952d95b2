/// A version of the format of superblocks.
#[derive(Clone, Copy, PartialEq, Eq)]
pub enum Version {
    /// Without frozen mark and label.
    One,
    /// With both.
    Two,
    /// As version 2, for large arrays alone; the others are for small ones.
    Three,
}
