/// Why a table is not changed.
#[derive(Clone, Copy, Debug, PartialEq, Eq)]
pub enum TableFault {
    /// No volume has this name.
    NoVolume,
    /// A volume has this name.
    NameTaken,
    /// There are 15 volumes.
    TableFull,
    /// No range of this number of blocks is free.
    NoRoom(u64),
}
