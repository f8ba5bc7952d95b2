// A slot of the rack.
ghost use Rattle.std.specs.Prelude.{◌≡◌, ◌≢◌, ◌<◌, ◌-◌, ◌^◌, ℕ, length, map, false, ◌+◌, IfOk, vec_capacity};
ghost use Rattle.stair_memrack.specs.Disk.{stored_in};
ghost use Rattle.stair_memrack.specs.Origin.{held};
ghost use Rattle.stair_memrack.specs.Place.{pulled, inserted, inserted_old, damaged_at, attach_reply, attached_as, read_got, write_reply, written_as, sync_reply, synced_as, answer_of, answered_as, asks_to_let_go};

use crate::disk::{Cells, Disk, Settling, StoredCell};
use crate::record::{Ask, Call};
use stair_rack::{Got, Reply};
use std::alloc::{AllocError, Global};
use std::marker::Model;

/// A slot: the medium that it holds, its drawer, and what its last attach found.
#[derive(Debug, Drop)]
pub(crate) struct Place {
    medium: Option<Disk>,
    // The media that were pulled from it and aren't back in it, the first of them first.
    removed: Vec<Disk>,
    attached: bool,
    found: u32,
}

impl Model for Place {
    ghost use Rattle.std.specs.Prelude.{vec_capacity};
    ghost use Rattle.stair_memrack.specs.Place.{PlaceState};

    ghost Value = { PlaceState };

    ghost view = { λ p. record {
      medium = p.medium;
      removed = p.removed.items;
      attached = p.attached;
      found = p.found;
      room = vec_capacity p.removed;
    } };
}

impl Place {
    /// A slot that holds this medium, and whose drawer holds media with these cells and has memory for so many more.
    pub(crate) fn new(
        alloc: Global,
        medium: Option<Disk>,
        drawer: &Vec<Cells>,
        more: usize,
    ) -> Result<Place, AllocError>
        requires { more < 2 ^ 63 }
        ensures { IfOk result (λ p. p ≡ record {
          medium = medium;
          removed = map (map held) drawer.now.items;
          attached = false;
          found = 0;
          room = length drawer.now.items + more;
        }) }
    {
        Ok(Place {
            medium,
            removed: drawer_over(alloc, drawer, more)?,
            attached: false,
            found: 0,
        })
    }

    /// Its medium.
    pub(crate) fn medium(&self) -> &Option<Disk>
        ensures { result.now ≡ self.now.medium }
    {
        &self.medium
    }

    /// The media of its drawer.
    pub(crate) fn removed(&self) -> &Vec<Disk>
        ensures { result.now.items ≡ self.now.removed }
    {
        &self.removed
    }

    /// Whether what is asked releases what an attach found.
    pub(crate) fn asks_to_let_go(&self, ask: &Ask) -> bool
        ensures { result ≡ asks_to_let_go ask.now self.now }
    {
        match ask {
            Ask::Attach => self.attached || self.found != 0,
            _ => false,
        }
    }

    /// Pulls the medium, where there is one, and it settles so.
    pub(crate) fn pull(&mut self, how: Settling)
        requires { length self.old.removed < self.old.room }
        ensures { self.new ≡ pulled how self.old }
    {
        if let Some(mut disk) = self.medium.take() {
            disk.settle(how);
            self.removed.push_reserved(disk);
            self.attached = false;
        }
    }

    /// Puts this medium in, where the slot holds none.
    pub(crate) fn insert(&mut self, medium: &mut Option<Disk>)
        ensures { self.new ≡ inserted medium.old self.old }
    {
        if self.medium.is_none() {
            self.medium = medium.take();
        }
    }

    /// Puts a medium of the drawer back, where the slot holds none and the drawer has it, as reads find it there.
    pub(crate) fn insert_old(&mut self, index: u32)
        ensures { self.new ≡ inserted_old index self.old }
    {
        if self.medium.is_none() && (index as usize) < self.removed.len() {
            let mut disk = self.removed.remove(index as usize);
            disk.settle(Settling::AsRead);
            self.medium = Some(disk);
        }
    }

    /// Damages the sector, where there is one.
    pub(crate) fn damage(&mut self, sector: u32)
        ensures { self.new ≡ damaged_at sector self.old }
    {
        if let Some(disk) = &mut self.medium {
            disk.damage(sector);
        }
    }

    /// Does what a call asks, and answers it. A good read puts the bytes into `into`, and one that isn't leaves it.
    pub(crate) fn answer(&mut self, stopped: bool, ask: &Ask, into: &mut [u8; 512]) -> Call
        requires { stopped ≡ false → (k : ℕ) →
            (stored_in self.old.medium k).pending < 2 ^ 32 - 1 }
        ensures answer { result ≡ answer_of stopped ask.now self.old }
        ensures after { self.new ≡ answered_as result self.old }
        ensures good { (k : ℕ) → result ≡ Call.Read k Got.Good →
            (stored_in self.old.medium k).now ≡ StoredCell.Good into.new }
        ensures unread { (k : ℕ) (got : Got) → result ≡ Call.Read k got → got ≢ Got.Good →
            into.new ≡ into.old }
    {
        match ask {
            Ask::Attach => Call::Attach(self.attach(stopped)),
            Ask::Sectors => Call::Sectors(self.found),
            Ask::Read(sector) => Call::Read(*sector, self.read(stopped, *sector, into)),
            Ask::Write(sector, from) => {
                Call::Write(*sector, *from, self.write(stopped, *sector, from))
            }
            Ask::Sync => Call::Sync(self.sync(stopped)),
        }
    }

    // Looks at the slot anew.
    fn attach(&mut self, stopped: bool) -> Reply
        ensures answer { result ≡ attach_reply stopped self.old }
        ensures after { self.new ≡ attached_as result self.old }
    {
        match &self.medium {
            Some(disk) if !stopped => {
                self.found = disk.size();
                self.attached = true;
                Reply::Done
            }
            _ => {
                self.found = 0;
                self.attached = false;
                Reply::Gone
            }
        }
    }

    // Reads a sector into `into`, which is unchanged where the answer isn't `Good`.
    fn read(&self, stopped: bool, sector: u32, into: &mut [u8; 512]) -> Got
        ensures answer { result ≡ read_got stopped sector self.now }
        ensures good { result ≡ Got.Good → (stored_in self.now.medium sector).now
            ≡ StoredCell.Good into.new }
        ensures unread { result ≢ Got.Good → into.new ≡ into.old }
    {
        if stopped || !self.attached {
            return Got::Gone;
        }
        match &self.medium {
            Some(disk) => match disk.read(sector) {
                StoredCell::Good(bytes) => {
                    *into = bytes;
                    Got::Good
                }
                StoredCell::Damaged | StoredCell::Torn | StoredCell::TornOverDamage => Got::Bad,
            },
            None => Got::Bad,
        }
    }

    // Writes a sector.
    fn write(&mut self, stopped: bool, sector: u32, from: &[u8; 512]) -> Reply
        requires { stopped ≡ false → (k : ℕ) →
            (stored_in self.old.medium k).pending < 2 ^ 32 - 1 }
        ensures answer { result ≡ write_reply stopped sector self.old }
        ensures after { self.new ≡ written_as sector from.now result self.old }
    {
        if stopped || !self.attached {
            return Reply::Gone;
        }
        match &mut self.medium {
            Some(disk) if sector < disk.size() => {
                disk.write(sector, from);
                Reply::Done
            }
            _ => Reply::Gone,
        }
    }

    // Settles the medium as what reads find.
    fn sync(&mut self, stopped: bool) -> Reply
        ensures answer { result ≡ sync_reply stopped self.old }
        ensures after { self.new ≡ synced_as result self.old }
    {
        if stopped || !self.attached {
            return Reply::Gone;
        }
        if let Some(disk) = &mut self.medium {
            disk.settle(Settling::AsRead);
        }
        Reply::Done
    }
}

// A drawer with media that hold these cells, and with memory for so many more.
fn drawer_over(alloc: Global, media: &Vec<Cells>, more: usize) -> Result<Vec<Disk>, AllocError>
    requires { more < 2 ^ 63 }
    ensures media { IfOk result (λ v. v.items ≡ map (map held) media.now.items) }
    ensures room { IfOk result (λ v. vec_capacity v ≡ length media.now.items + more) }
{
    let mut drawer = Vec::with_capacity(alloc, media.len() + more)?;
    for cells in media.iter() {
        drawer.push_reserved(Disk::over(alloc, cells)?);
    }
    Ok(drawer)
}
