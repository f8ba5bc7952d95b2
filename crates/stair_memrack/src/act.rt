// What a script tells the outside to do.

/// What the outside does. Slots, sectors and media are counted from 0.
#[derive(Clone, Copy, Debug, PartialEq, Eq, Drop)]
pub enum What {
    /// It pulls the slot's medium, which goes after the other media of the slot's drawer. What was written to it stays,
    /// synced or not.
    Pull { slot: u8 },
    /// It pulls the slot's medium in the same way, but what was written to it since its last sync is lost: each sector
    /// holds what it held then, and nothing where it was damaged since.
    PullLosing { slot: u8 },
    /// It puts a medium of so many sectors that was never written into the slot.
    InsertBlank { slot: u8, sectors: u32 },
    /// It puts a medium of the slot's drawer back into the slot. The one that was pulled first has the index 0.
    InsertOld { slot: u8, index: u32 },
    /// It damages a sector of the slot's medium.
    Damage { slot: u8, sector: u32 },
    /// It stops the rack for good.
    Stop,
}

/// An act of the outside: `what` is done before the call numbered `at`. Calls are counted from 0.
#[derive(Clone, Copy, Debug, PartialEq, Eq, Drop)]
pub struct Act {
    pub at: u32,
    pub what: What,
}
