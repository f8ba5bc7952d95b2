/// What a slot of the array is.
#[derive(Clone, Copy, Debug, PartialEq, Eq)]
pub enum Mark {
    /// Its device takes part in reads and writes.
    Live,
    /// Its device is written, and gets back what it lacks.
    Rebuilding,
    /// Its device takes no part.
    Down,
}
