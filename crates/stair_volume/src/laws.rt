//! Laws of the table of volumes.

ghost use Rattle.std.specs.Prelude.{◌≡◌, ◌↔◌, ◌^◌, ◌<◌, ◌≤◌, ℕ, List, All, Contains, None, Ok, Some, length};
ghost use Rattle.stair_model.specs.Stripe.{SECTOR};
ghost use Rattle.stair_conf.specs.Name.{IsName};
ghost use Rattle.stair_volume.specs.Table.{IsTable, extent_of, find_in, Table};
ghost use Rattle.stair_volume.specs.Page.{HasTable, entry_bytes, small_entry_bytes, small_table_bytes, table_bytes, table_of};
ghost use Rattle.stair_volume.specs.Changes.{Adds, IsFree, IsLeastFree, Removes, room, volume_of, with_volume, without_volume};
ghost use Rattle.stair_volume.specs.declared.extent.Entry.{Entry};
ghost use Rattle.stair_volume.specs.declared.extent.Extent.{Extent};

/// States the laws of the table of volumes. It does nothing.
///
/// - A table reads back from the 512 bytes that it is written as, and from no others.
/// - A new volume gets the least first block at which there is room.
/// - A table after a volume was added or removed is well formed, and has the other volumes as they were.
pub fn table_laws()
    // what bytes say
    ensures read { (blocks : ℕ) (bytes : List ℕ) (table : Table) →
        (table_of blocks bytes ≡ Some table) ↔ HasTable blocks bytes table }
    ensures once { (blocks : ℕ) (bytes : List ℕ) (a b : Table) → HasTable blocks bytes a →
        HasTable blocks bytes b → a ≡ b }
    ensures back { (table : Table) → IsTable table →
        table_of table.blocks (table_bytes table.entries) ≡ Some table }
    ensures sector { (table : Table) → IsTable table → length (table_bytes table.entries) ≡ SECTOR }
    ensures bytes { (table : Table) → IsTable table →
        All (λ byte. byte < 256) (table_bytes table.entries) }
    // numbers below 2^32 are written in four bytes each: all of an array of at most 4,194,304 blocks are
    ensures small { (entry : Entry) → entry.extent.first < 2 ^ 32 → entry.extent.blocks < 2 ^ 32 →
        entry_bytes entry ≡ small_entry_bytes entry }
    ensures as_before { (table : Table) → IsTable table → table.blocks ≤ 4194304 →
        table_bytes table.entries ≡ small_table_bytes table.entries }

    // which blocks a name has
    ensures found { (table : Table) (name : List ℕ) (extent : Extent) → IsTable table →
        (find_in table.entries name ≡ Some extent)
        ↔ Contains table.entries (volume_of name extent) }

    // where there is room
    ensures least { (table : Table) (count first : ℕ) →
        (room table count ≡ Some first) ↔ IsLeastFree table count first }
    ensures no_room { (table : Table) (count : ℕ) →
        (room table count ≡ None) ↔ ((first : ℕ) → ¬ IsFree table (extent_of first count)) }

    // a volume added, and one removed
    ensures adds { (old new : Table) (name : List ℕ) (count : ℕ) →
        with_volume old name count ≡ Ok new → Adds old new name count }
    ensures added { (old new : Table) (name : List ℕ) (count : ℕ) → IsTable old → IsName name →
        1 ≤ count → with_volume old name count ≡ Ok new → IsTable new }
    ensures removes { (old new : Table) (name : List ℕ) → IsTable old →
        without_volume old name ≡ Ok new → Removes old new name }
    ensures removed { (old new : Table) (name : List ℕ) → IsTable old →
        without_volume old name ≡ Ok new → IsTable new }
{}
