// What image files are opened for.

/// What a rack opens its image files for.
#[derive(Clone, Copy, Debug, PartialEq, Eq, Drop)]
pub enum Access {
    /// For reading alone, and without a lock: another program may write them meanwhile. Writes and syncs are gone.
    Reading,
    /// For reading and writing, each with its advisory lock where the file system has locks: no other rack that is to
    /// write has a file at the same time.
    Writing,
}
