ghost use Rattle.std.specs.Prelude.{◌≡◌};
ghost use Rattle.stair_array.specs.Faults.{refusal_for};
ghost use Rattle.stair_command.specs.Refused.{status_of_refusal};
ghost use Rattle.stair_volume.specs.Commands.{status_of_table, status_of_volume};
ghost use Rattle.stair_volume.specs.declared.fault.VolumeFault.TheVariants as volume;

use crate::table_fault::TableFault;
use stair_array::ArrayFault;
use stair_command::{Fault, Status};

/// Why a command on volumes was not done.
#[derive(Clone, Copy, Debug, PartialEq, Eq)]
pub enum VolumeFault {
    /// Block 0 is not a table of volumes.
    NoTable,
    /// A table was to be made, and block 0 is one.
    TableThere,
    /// The table has no such volume, or cannot have one more.
    Table(TableFault),
    /// A step of the array was refused. It is `OutOfRange` if the blocks are not within the volume: its limit is the
    /// volume's number of blocks.
    Array(ArrayFault),
    /// Not all blocks of the input were written; or the sink failed, and a part of the output may have been written.
    Transfer(Fault),
}

impl VolumeFault {
    /// Returns its status, for an array of `slots` slots.
    pub fn status(&self, slots: u8) -> Status
        ensures { result ≡ status_of_volume slots self.now }
    {
        match *self {
            VolumeFault::NoTable => Status::NoTable,
            VolumeFault::TableThere => Status::TableThere,
            VolumeFault::Table(fault) => Status::from(fault),
            VolumeFault::Array(fault) => Status::from(Fault::Step { fault, slots }),
            VolumeFault::Transfer(fault) => Status::from(fault),
        }
    }
}

impl From<TableFault> for Status {
    ghost from_gives = { λ fault status. status ≡ status_of_table fault };

    fn from(fault: TableFault) -> Status {
        match fault {
            TableFault::NoVolume => Status::NoVolume,
            TableFault::NameTaken => Status::NameTaken,
            TableFault::TableFull => Status::TableFull,
            TableFault::NoRoom(blocks) => Status::NoRoom(blocks),
        }
    }
}

impl From<TableFault> for VolumeFault {
    ghost from_gives = { λ why fault. fault ≡ volume.Table why };

    fn from(fault: TableFault) -> VolumeFault {
        VolumeFault::Table(fault)
    }
}

impl From<ArrayFault> for VolumeFault {
    ghost from_gives = { λ why fault. fault ≡ volume.Array why };

    fn from(fault: ArrayFault) -> VolumeFault {
        VolumeFault::Array(fault)
    }
}

impl From<Fault> for VolumeFault {
    ghost from_gives = { λ why fault. fault ≡ volume.Transfer why };

    fn from(fault: Fault) -> VolumeFault {
        VolumeFault::Transfer(fault)
    }
}
