ghost use Rattle.std.specs.Prelude.{◌≡◌, ◌↔◌, ◌^◌, ◌≤◌, ◌<◌, [], Some, All, MatchOption, IsTrue, length, option_map, take};
ghost use Rattle.stair_volume.specs.Table.{
  IsTable,
  find_in,
  is_apart as stands_apart,
  is_free as all_free,
  is_volume as is_volume_of,
  are_volumes as all_volumes,
  end_of,
  extent_of,
  table_with,
  Table as Volumes,
};
ghost use Rattle.stair_volume.specs.Changes.{EndsMet, room as least_room, with_entry, with_volume, without_volume};

use crate::extent::{Entry, Extent};
use crate::table_fault::TableFault;
use stair_conf::Name;
use std::marker::Model;

/// The most volumes that an array may have.
pub const TABLE_LIMIT: usize = 15;

/// The volumes of an array: at most 15, each with a name of its own and blocks of its own, after block 0.
#[derive(Drop)]
pub struct Table {
    blocks: u64,
    len: usize,
    // anything may follow the first `len` of them
    entries: [Entry; TABLE_LIMIT],
}

impl Model for Table {
    ghost use Rattle.stair_volume.specs.Table.{Table as Volumes};
    ghost use Rattle.stair_volume.specs.StoredTable.{IsStored, shown};

    ghost Value = { Volumes };

    ghost view = { shown };

    ghost invariant = { IsStored };
}

impl Table {
    /// Returns the table without volumes of an array of `blocks` blocks.
    pub fn empty(blocks: u64) -> Table
        requires { blocks < 2 ^ 37 }
        ensures { result ≡ table_with blocks [] }
    {
        Table {
            blocks,
            len: 0,
            entries: no_entries(),
        }
    }

    // Returns the table of the first `len` of these entries, or None if it is not well formed.
    pub(crate) fn new(blocks: u64, entries: [Entry; TABLE_LIMIT], len: usize) -> Option<Table>
        requires size { blocks < 2 ^ 37 }
        requires few { len ≤ 15 }
        ensures { (table : Volumes) → (result ≡ Some table)
            ↔ ((table ≡ table_with blocks (take len entries)) × IsTable table) }
    {
        if !are_volumes(blocks, &entries[..len]) {
            return None;
        }
        Some(Table {
            blocks,
            len,
            entries,
        })
    }

    /// Returns the volumes, in the order of the table.
    pub fn entries(&self) -> &[Entry]
        ensures value { result.now ≡ self.now.entries }
        ensures rules { IsTable self.now }
    {
        &self.entries[..self.len]
    }

    /// Returns the blocks of the volume with this name, or `None` if no volume has it.
    pub fn find(&self, name: Name) -> Option<Extent>
        ensures { result ≡ find_in self.now.entries name }
    {
        extent_named(self.entries(), &name)
    }

    /// Returns the table with one volume of `blocks` blocks added at its end. It begins at the least block from which
    /// so many are free.
    ///
    /// The errors, in the order in which they are checked: `NameTaken` if a volume has the name; `TableFull` if there
    /// are 15; `NoRoom`, with the number of blocks, if no range of so many is free. None comes otherwise.
    pub fn with(&self, name: Name, blocks: u64) -> Result<Table, TableFault>
        requires { 1 ≤ blocks }
        ensures { result ≡ with_volume self.now name blocks }
    {
        // brings the invariant of the name into scope
        let _name = name.bytes();
        if self.find(name).is_some() {
            return Err(TableFault::NameTaken);
        }
        if self.len == TABLE_LIMIT {
            return Err(TableFault::TableFull);
        }
        match self.room(blocks) {
            Some(extent) => Ok(self.with_entry(Entry { name, extent })),
            None => Err(TableFault::NoRoom(blocks)),
        }
    }

    /// Returns the table without the volume of this name, with the others in their order. The error is `NoVolume`,
    /// exactly if no volume has the name.
    pub fn without(&self, name: Name) -> Result<Table, TableFault>
        ensures { result ≡ without_volume self.now name }
    {
        if self.find(name).is_none() {
            return Err(TableFault::NoVolume);
        }
        let mut entries = no_entries();
        let mut len = 0;
        for entry in self.entries() {
            if entry.name.bytes() != name.bytes() {
                entries[len] = *entry;
                len += 1;
            }
        }
        Ok(Table {
            blocks: self.blocks,
            len,
            entries,
        })
    }

    // Returns the first free range of `blocks` blocks.
    fn room(&self, blocks: u64) -> Option<Extent>
        ensures { result ≡ option_map (λ first. extent_of first blocks) (least_room self.now blocks) }
    {
        if blocks > self.blocks {
            return None;
        }
        let mut extent = Extent { first: 1, blocks };
        // after each volume that has a block of it, until none has
        while let Some(end) = end_of_met(self.entries(), extent) {
            extent.first = end;
        }
        extent.is_within(self.blocks).then_some(extent)
    }

    // Returns the table with one more entry at its end.
    fn with_entry(&self, entry: Entry) -> Table
        requires few { length self.now.entries < 15 }
        requires rules { IsTable (with_entry self.now entry) }
        ensures { result ≡ with_entry self.now entry }
    {
        let mut entries = no_entries();
        entries[..self.len].copy_from_slice(self.entries());
        entries[self.len] = entry;
        Table {
            blocks: self.blocks,
            len: self.len + 1,
            entries,
        }
    }
}

// Returns entries that fill unused places of a table.
pub(crate) fn no_entries() -> [Entry; TABLE_LIMIT] {
    let Some(name) = Name::new(b"_") else {
        unreachable!();
    };
    let extent = Extent {
        first: 0,
        blocks: 0,
    };
    [Entry { name, extent }; TABLE_LIMIT]
}

// Returns the blocks of the volume of this name.
fn extent_named(entries: &[Entry], name: &Name) -> Option<Extent>
    ensures { result ≡ find_in entries.now name.now }
{
    for entry in entries {
        if entry.name.bytes() == name.bytes() {
            return Some(entry.extent);
        }
    }
    None
}

// Returns the block after some entry that shares a block with it, if any.
fn end_of_met(entries: &[Entry], extent: Extent) -> Option<u64>
    requires { All (λ entry. end_of entry.extent < 2 ^ 64) entries.now }
    ensures { MatchOption result (IsTrue (all_free entries.now extent))
        (EndsMet entries.now extent) }
{
    for entry in entries {
        if entry.extent.meets(extent) {
            return Some(entry.extent.end());
        }
    }
    None
}

// Returns whether no entry has a block of it.
fn is_free(entries: &[Entry], extent: Extent) -> bool
    ensures { result ≡ all_free entries.now extent }
{
    entries.iter().all(|entry| !entry.extent.meets(extent))
}

// Returns whether no other entry has its name or a block of it.
fn is_apart(others: &[Entry], entry: &Entry) -> bool
    ensures { result ≡ stands_apart others.now entry.now }
{
    extent_named(others, &entry.name).is_none() && is_free(others, entry.extent)
}

// Returns whether it is a volume of an array of `blocks` blocks.
fn is_volume(blocks: u64, entry: &Entry) -> bool
    ensures { result ≡ is_volume_of blocks entry.now }
{
    // brings the invariant of the name into scope
    let _name = entry.name.bytes();
    entry.extent.blocks >= 1 && entry.extent.is_within(blocks)
}

// Returns whether these are volumes of an array of `blocks` blocks, each apart from those after it.
fn are_volumes(blocks: u64, entries: &[Entry]) -> bool
    ensures { result ≡ all_volumes blocks entries.now }
{
    for (k, entry) in entries.iter().enumerate() {
        if !is_volume(blocks, entry) || !is_apart(&entries[k + 1..], entry) {
            return false;
        }
    }
    true
}
