ghost use Rattle.std.specs.Prelude.{◌<◌};

// The rack on which a scene plays, and what is done to it.
use crate::fault::{Fault, said};
use stair_calls::{WHOLE, act, call};
use stair_memrack::{Act, MemRack, What};
use stair_rack::{Got, Rack};
use std::alloc::{AllocError, Global};

// How many calls a rack keeps, and how many more for each block of its array.
const CALLS: u32 = 8_000;

const CALLS_OF_A_BLOCK: u32 = 50;

/// The shape of an array.
#[derive(Clone, Copy)]
pub(crate) struct Shape {
    /// the number of devices
    pub(crate) n: u8,
    /// the number of rows of a stripe
    pub(crate) r: u8,
    pub(crate) blocks: u64,
    /// the number of sectors of a device
    pub(crate) sectors: u32,
}

impl Shape {
    /// How many calls a rack of this shape keeps.
    pub(crate) fn calls(&self) -> u32 {
        (self.blocks.min(10_000) as u32)
            .saturating_mul(CALLS_OF_A_BLOCK)
            .saturating_add(CALLS)
    }

    /// The sector of a device with its cell of the stripe in this row: after two superblocks, a gate, and the body.
    pub(crate) fn sector_of(&self, stripe: u32, row: u8) -> u32 {
        let r = u32::from(self.r);
        let body = u32::from(self.n).saturating_mul(r);
        stripe
            .saturating_mul(r)
            .saturating_add(body)
            .saturating_add(3)
            .saturating_add(u32::from(row))
    }
}

/// The rack of a scene.
#[derive(Drop)]
pub(crate) struct Stage {
    rack: Option<MemRack>,
    // where the rack is to be restarted before its next use: what is left of pending sectors, and what happens then
    restart: Option<Vec<u32>>,
    acts: Vec<Act>,
    /// the last call of the rack for which an act waits; none once `stair` was called
    pub(crate) due: Option<u32>,
    /// the shape of its array, or of its media
    pub(crate) shape: Shape,
    // a sector, and what the remembered sectors of the devices from it on held
    first: u32,
    remembered: Vec<Option<[u8; 512]>>,
}

impl Stage {
    /// A stage without a rack.
    pub(crate) fn new(alloc: Global) -> Stage {
        Stage {
            rack: None,
            restart: None,
            acts: Vec::new(alloc),
            due: None,
            shape: Shape {
                n: 0,
                r: 0,
                blocks: 0,
                sectors: 0,
            },
            first: 0,
            remembered: Vec::new(alloc),
        }
    }

    /// Puts a rack with blank media of this shape there.
    pub(crate) fn set_media(&mut self, alloc: Global, shape: Shape) -> Result<(), Fault> {
        self.rack = Some(MemRack::new(alloc, shape.n.min(32), shape.sectors, &[], shape.calls())?);
        self.restart = Some(Vec::new(alloc));
        self.acts.clear();
        self.due = None;
        self.shape = shape;
        Ok(())
    }

    /// The rack, restarted where it is to be.
    pub(crate) fn ready(&mut self, alloc: Global) -> Result<&mut MemRack, Fault> {
        if let Some(picks) = self.restart.take() {
            self.rack = match self.rack.take() {
                Some(rack) => Some(rack.after_crash(
                    alloc,
                    &picks,
                    &self.acts,
                    self.shape.calls(),
                )?),
                None => None,
            };
            self.acts.clear();
        }
        match &mut self.rack {
            Some(rack) => Ok(rack),
            None => said(format!(in alloc; "no rack")),
        }
    }

    /// Lets the rack be restarted before its next use, with these picks for what is pending now.
    pub(crate) fn crash(&mut self, alloc: Global, picks: Vec<u32>) -> Result<(), Fault> {
        let rack = self.ready(alloc)?;
        let made = rack.made();
        if self.due.take().is_some_and(|at| made <= at) {
            return said(format!(in alloc; "an act that no call came to"));
        }
        self.restart = Some(picks);
        Ok(())
    }

    /// Adds what happens before a call of the rack that is restarted.
    pub(crate) fn add_act(&mut self, alloc: Global, at: u32, what: What) -> Result<(), Fault> {
        if self.restart.is_none() {
            return said(format!(in alloc; "an act after a call or a want: `crash` comes first"));
        }
        self.acts.push(act(at, what))?;
        self.due = Some(self.due.unwrap_or(0).max(at));
        Ok(())
    }

    /// Makes an array of this text on the media, and fills its blocks where that is wanted; what was said where that isn't done.
    pub(crate) fn create(
        &mut self,
        alloc: Global,
        text: &str,
        is_filled: bool,
    ) -> Result<(), Fault> {
        let blocks = self.shape.blocks;
        let rack = self.ready(alloc)?;
        done(alloc, rack, "create", text.as_bytes())?;
        if is_filled {
            let bytes = fillings(alloc, blocks)?;
            let line = format!(in alloc; "write 0 {blocks}")?;
            done(alloc, rack, line.as_str(), &bytes)?;
        }
        self.crash(alloc, Vec::new(alloc))
    }

    /// Writes these bytes into a sector, from its byte `at` on.
    pub(crate) fn patch(
        &mut self,
        alloc: Global,
        slot: u8,
        sector: u32,
        at: usize,
        bytes: &[u8],
    ) -> Result<(), Fault>
        requires { slot < 32 }
    {
        let rack = self.ready(alloc)?;
        let mut held = held_in(rack, slot, sector).unwrap_or([0; 512]);
        for (place, byte) in bytes.iter().enumerate() {
            if let Some(old) = held.get_mut(at.saturating_add(place)) {
                *old = *byte;
            }
        }
        rack.write(slot, sector, &held);
        rack.sync(slot);
        self.crash(alloc, Vec::new(alloc))
    }

    /// Copies a sector onto another one of the same device.
    pub(crate) fn copy(&mut self, alloc: Global, slot: u8, from: u32, to: u32) -> Result<(), Fault>
        requires { slot < 32 }
    {
        let rack = self.ready(alloc)?;
        let Some(held) = held_in(rack, slot, from) else {
            return said(format!(in alloc; "sector {from} of slot {slot} can't be read"));
        };
        rack.write(slot, to, &held);
        rack.sync(slot);
        self.crash(alloc, Vec::new(alloc))
    }

    /// Remembers the sectors of all devices from this one on.
    pub(crate) fn remember(&mut self, alloc: Global, first: u32) -> Result<(), Fault> {
        self.first = first;
        self.remembered = self.held(alloc)?;
        self.crash(alloc, Vec::new(alloc))
    }

    /// Whether all remembered sectors are as they were.
    pub(crate) fn is_kept(&mut self, alloc: Global) -> Result<bool, Fault> {
        let held = self.held(alloc)?;
        Ok(!held.is_empty() && held == self.remembered)
    }

    // What the sectors of all devices hold, from the first remembered one on.
    fn held(&mut self, alloc: Global) -> Result<Vec<Option<[u8; 512]>>, Fault> {
        let (devices, first, sectors) = (self.shape.n, self.first, self.shape.sectors);
        let rack = self.ready(alloc)?;
        let mut held = Vec::new(alloc);
        for slot in 0..devices.min(32) {
            for sector in first..sectors {
                held.push(held_in(rack, slot, sector))?;
            }
        }
        Ok(held)
    }
}

// Makes a call that is to be done.
fn done(alloc: Global, rack: &mut MemRack, line: &str, input: &[u8]) -> Result<(), Fault> {
    let came = call(alloc, rack, line, input, WHOLE)?;
    let status = came.status;
    if status.code() == 0 {
        Ok(())
    } else {
        said(format!(in alloc; "{line}: {status}"))
    }
}

// The blocks of a filled array.
fn fillings(alloc: Global, blocks: u64) -> Result<Vec<u8>, AllocError> {
    let mut bytes = Vec::new(alloc);
    for block in 0..blocks {
        let filling = (block % 100) as u8 + 1;
        bytes.extend_from_slice(&[filling; 512])?;
    }
    Ok(bytes)
}

/// What a sector holds, where it can be read.
pub(crate) fn held_in(rack: &mut MemRack, slot: u8, sector: u32) -> Option<[u8; 512]>
    requires { slot < 32 }
{
    match read_from(rack, slot, sector) {
        (Got::Good, held) => Some(held),
        (Got::Bad | Got::Gone, _) => None,
    }
}

/// What a read of a sector got, and the bytes.
pub(crate) fn read_from(rack: &mut MemRack, slot: u8, sector: u32) -> (Got, [u8; 512])
    requires { slot < 32 }
{
    let mut into = [0; 512];
    rack.attach(slot);
    let got = rack.read(slot, sector, &mut into);
    (got, into)
}
