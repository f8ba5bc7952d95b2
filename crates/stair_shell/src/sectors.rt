// The sectors of devices that a command could not read.
use crate::report::{Device, report};
use stair_base::SECOND_PLACE;
use stair_rack::Got;
use std::alloc::{AllocError, Global};

// So many bad sectors of a device are counted.
const MOST: usize = 256;

/// The bad sectors of each device.
#[derive(Drop)]
pub(crate) struct BadSectors {
    devices: Vec<BadOfDevice>,
}

/// The bad sectors of one device.
#[derive(Drop)]
struct BadOfDevice {
    // The first `count` are the numbers of bad sectors, each once.
    numbers: [u32; MOST],
    count: usize,
    // Whether there are others.
    more: bool,
}

impl BadSectors {
    /// Returns the counts of a command that has read no sector.
    pub(crate) fn new(alloc: Global) -> Result<BadSectors, AllocError> {
        let mut devices = Vec::with_capacity(alloc, 32)?;
        for _ in 0..32 {
            devices.push(BadOfDevice {
                numbers: [0; MOST],
                count: 0,
                more: false,
            })?;
        }
        Ok(BadSectors { devices })
    }

    /// Counts the sector of a read with this answer if it could not be read, once. Superblocks are not counted, since a new device has none.
    pub(crate) fn saw_read(&mut self, slot: u8, sector: u32, got: Got) {
        if got == Got::Bad
            && sector > SECOND_PLACE
            && let Some(device) = self.devices.get_mut(usize::from(slot))
        {
            device.add(sector);
        }
    }

    /// Reports how many sectors of each device are bad.
    pub(crate) fn report(&self, rt: &HostRuntime) {
        for slot in 0..32 {
            if let Some(device) = self.devices.get(usize::from(slot)) {
                device.report(rt, slot);
            }
        }
    }

    /// Returns whether a sector of this device is bad.
    pub(crate) fn has(&self, slot: u8) -> bool {
        match self.devices.get(usize::from(slot)) {
            Some(device) => device.count > 0,
            None => false,
        }
    }
}

impl BadOfDevice {
    fn add(&mut self, sector: u32) {
        if self.counts(sector) {
            return;
        }
        match self.numbers.get_mut(self.count) {
            Some(number) => {
                *number = sector;
                self.count = self.count.saturating_add(1);
            }
            None => self.more = true,
        }
    }

    // Returns whether this sector is counted.
    fn counts(&self, sector: u32) -> bool {
        for number in self.numbers.iter().take(self.count) {
            if *number == sector {
                return true;
            }
        }
        false
    }

    fn report(&self, rt: &HostRuntime, slot: u8) {
        let device = Device { slot };
        let count = self.count;
        match (self.more, count) {
            (true, _) => report(rt, device, format_args!("more than {count} bad sectors")),
            (false, 0) => {}
            (false, 1) => report(rt, device, "1 bad sector"),
            (false, _) => report(rt, device, format_args!("{count} bad sectors")),
        }
    }
}
