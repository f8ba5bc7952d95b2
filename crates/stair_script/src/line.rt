use stair_base::SECTOR;

/// The greatest length of a line that may be a line of a script, in bytes without its end.
///
/// A longer line is in the grammar as little as any line of more than 1,051 bytes. So what takes a script may refuse a line
/// as soon as it is longer, without having seen its end.
pub const MAX_SCRIPT_LINE: usize = 1_100;

/// A script has at most so many bytes, and so has any other text that is taken line by line.
pub const SCRIPT_LIMIT: u64 = 1_073_741_824;

/// What a line of a script says.
///
/// Whether an array has the block, the stripe or the slot is not tested here.
#[derive(Clone, Copy, Debug, PartialEq, Eq)]
pub enum Line {
    /// The empty line: nothing is to be done.
    Blank,
    /// `read B`: block B is to be read.
    Read(u64),
    /// `write B HEX`: block B is to have these bytes.
    Write(u64, [u8; SECTOR]),
    /// `scrub S`: stripe S is to be scrubbed.
    Scrub(u64),
    /// `replace K`: slot K is to have a new device, without a rebuild.
    Replace(u64),
    /// `rebuild N`: at most N steps of a rebuild, up to the first that finds nothing to do.
    Rebuild(u64),
}
