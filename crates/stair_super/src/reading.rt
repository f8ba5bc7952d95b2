ghost use Rattle.std.specs.Prelude.{◌≡◌, ℕ, [], false, ◌+◌, ◌<◌, ◌≤◌, ◌↔◌, IsTrue, IfSome, length, take, drop, slice_index, slice_index_or};
ghost use Rattle.std.specs.Int.{w32, w64, from_be_bytes};
ghost use Rattle.stair_model.specs.Stripe.{SECTOR};
ghost use Rattle.stair_super.specs.Superblock.{Superblock, superblock_of, IsWellFormed, IsJoined, mark_at, joined_at};
ghost use Rattle.stair_super.specs.Spelling.{code, CanSay, IsOfVersion, SpellsSuperblock, spelled_in};
ghost use Rattle.stair_super.specs.declared.version.Version.TheVariants.{One};
ghost use Rattle.stair_super.specs.declared.mark.Mark.TheVariants.{Down};

use crate::block::Super;
use crate::configuration::Configuration;
use crate::label::Label;
use crate::mark::Mark;
use crate::version::Version;
use crate::writing::written;
use stair_base::{Geometry, SECTOR};

fn u32_at(bytes: &[u8; SECTOR], at: usize) -> u32
    requires { at + 4 ≤ SECTOR }
    ensures { result ≡ from_be_bytes w32 (take 4 (drop at bytes.now)) }
{
    u32::from_be_bytes([bytes[at], bytes[at + 1], bytes[at + 2], bytes[at + 3]])
}

fn u64_at(bytes: &[u8; SECTOR], at: usize) -> u64
    requires { at + 8 ≤ SECTOR }
    ensures { result ≡ from_be_bytes w64 (take 8 (drop at bytes.now)) }
{
    let mut number = [0; 8];
    number.copy_from_slice(&bytes[at..at + 8]);
    u64::from_be_bytes(number)
}

fn id_of(bytes: &[u8; SECTOR]) -> [u8; 16]
    ensures { result ≡ take 16 (drop 8 bytes.now) }
{
    let mut id = [0; 16];
    id.copy_from_slice(&bytes[8..24]);
    id
}

/// The 32 bytes from byte 28 on.
fn coverage_of(bytes: &[u8; SECTOR]) -> [u64; 32]
    ensures { result ≡ take 32 (drop 28 bytes.now) }
{
    widened(&bytes[28..60])
}

fn widened(bytes: &[u8]) -> [u64; 32]
    requires { length bytes.now ≡ 32 }
    ensures { result ≡ bytes.now }
{
    let mut e = [0; 32];
    for (l, byte) in bytes.iter().enumerate() {
        e[l] = u64::from(*byte);
    }
    e
}

fn geometry_of(bytes: &[u8; SECTOR]) -> Option<Geometry>
    ensures { (s : Superblock) → SpellsSuperblock bytes.now s → result ≡ Some s.array.geometry }
{
    let classes = usize::from(bytes[27]);
    if classes > 32 {
        return None;
    }
    Geometry::large(
        u64::from(bytes[24]),
        u64::from(bytes[25]),
        u64::from(bytes[26]),
        &coverage_of(bytes)[..classes],
        u64::from(u32_at(bytes, 60)),
        id_of(bytes),
    )
    .ok()
}

fn mark_of(byte: u8) -> Option<Mark>
    ensures { (mark : Mark) → byte ≡ code mark → result ≡ Some mark }
{
    match byte {
        1 => Some(Mark::Live),
        2 => Some(Mark::Rebuilding),
        3 => Some(Mark::Down),
        _ => None,
    }
}

/// The mark of a slot below 32 in an array of n slots.
fn mark_in(bytes: &[u8; SECTOR], n: usize, slot: usize) -> Option<Mark>
    requires { slot < 32 }
    ensures { (s : Superblock) → SpellsSuperblock bytes.now s → n ≡ s.array.geometry.n →
        result ≡ Some (mark_at s slot) }
{
    if slot < n {
        mark_of(bytes[96 + 9 * slot])
    } else {
        Some(Mark::Down)
    }
}

fn joined_in(bytes: &[u8; SECTOR], n: usize, slot: usize) -> u64
    requires { slot < 32 }
    ensures { (s : Superblock) → SpellsSuperblock bytes.now s → n ≡ s.array.geometry.n →
        result ≡ joined_at s slot }
{
    if slot < n {
        u64_at(bytes, 97 + 9 * slot)
    } else {
        0
    }
}

fn marks_of(bytes: &[u8; SECTOR], n: usize) -> Option<[Mark; 32]>
    ensures { (s : Superblock) → SpellsSuperblock bytes.now s → n ≡ s.array.geometry.n →
        result ≡ Some s.array.marks }
{
    let mut marks = [Mark::Down; 32];
    for slot in 0..32 {
        marks[slot] = mark_in(bytes, n, slot)?;
    }
    Some(marks)
}

fn joins_of(bytes: &[u8; SECTOR], n: usize) -> [u64; 32]
    ensures { (s : Superblock) → SpellsSuperblock bytes.now s → n ≡ s.array.geometry.n →
        result ≡ s.array.joins }
{
    let mut joins = [0; 32];
    for slot in 0..32 {
        joins[slot] = joined_in(bytes, n, slot);
    }
    joins
}

fn is_joined(mark: Mark, joined: u64, epoch: u64) -> bool
    ensures { IsTrue result ↔ IsJoined mark joined epoch }
{
    match mark {
        Mark::Live | Mark::Rebuilding => joined >= 1 && joined <= epoch,
        Mark::Down => joined == 0,
    }
}

fn are_joined(marks: &[Mark; 32], joins: &[u64; 32], epoch: u64) -> bool
    ensures { IsTrue result ↔ ((j : ℕ) → j < 32 →
        IsJoined (slice_index_or marks.now j Down) (slice_index joins.now j) epoch) }
{
    for j in 0..32 {
        if !is_joined(marks[j], joins[j], epoch) {
            return false;
        }
    }
    true
}

fn are_down_from(marks: &[Mark; 32], n: usize) -> bool
    ensures { IsTrue result ↔ ((j : ℕ) → n ≤ j → j < 32 → slice_index_or marks.now j Down ≡ Down) }
{
    for j in n..32 {
        if marks[j] != Mark::Down {
            return false;
        }
    }
    true
}

fn version_of(bytes: &[u8; SECTOR]) -> Option<Version>
    ensures { (s : Superblock) (spells : SpellsSuperblock bytes.now s) →
        result ≡ Some spells.version }
{
    match bytes[7] {
        b'1' => Some(Version::One),
        b'2' => Some(Version::Two),
        b'3' => Some(Version::Three),
        _ => None,
    }
}

fn frozen_in(bytes: &[u8; SECTOR], version: Version) -> bool
    ensures first { version ≡ One → result ≡ false }
    ensures read { (s : Superblock) (spells : SpellsSuperblock bytes.now s) →
        version ≡ spells.version → result ≡ s.array.frozen }
{
    match version {
        Version::One => false,
        Version::Two | Version::Three => bytes[384] == 1,
    }
}

fn label_in(bytes: &[u8; SECTOR], version: Version) -> Option<Label>
    ensures first { version ≡ One → result ≡ Some [] }
    ensures read { (s : Superblock) (spells : SpellsSuperblock bytes.now s) →
        version ≡ spells.version → result ≡ Some s.array.label }
{
    match version {
        Version::One => Some(Label::empty()),
        Version::Two | Version::Three => {
            let length = usize::from(bytes[385]);
            if length > 64 {
                return None;
            }
            Label::new(&bytes[386..386 + length])
        }
    }
}

/// Whether arrays of this geometry have superblocks of this version.
fn is_of(version: Version, geometry: &Geometry) -> bool
    ensures { IsTrue result ↔ IsOfVersion version geometry.now }
{
    match version {
        Version::One | Version::Two => geometry.is_small(),
        Version::Three => !geometry.is_small(),
    }
}

/// What the epoch names, where all its fields can be read and the version is that of its geometry.
fn array_of(bytes: &[u8; SECTOR], version: Version) -> Option<Configuration>
    ensures said { IfSome result (λ array. CanSay version array) }
    ensures read { (s : Superblock) (spells : SpellsSuperblock bytes.now s) →
        version ≡ spells.version → result ≡ Some s.array }
{
    let geometry = geometry_of(bytes)?;
    if !is_of(version, &geometry) {
        return None;
    }
    let n = usize::from(geometry.n());
    let marks = marks_of(bytes, n)?;
    let label = label_in(bytes, version)?;
    Some(Configuration {
        geometry,
        epoch: u64_at(bytes, 88),
        marks,
        joins: joins_of(bytes, n),
        frozen: frozen_in(bytes, version),
        label,
    })
}

/// Whether these are the fields of a well-formed superblock.
fn is_well_formed(array: &Configuration, slot: u8, joined: u64, draw: u64) -> bool
    ensures { IsTrue result ↔ IsWellFormed (superblock_of array.now slot joined draw) }
{
    let n = usize::from(array.geometry.n());
    let here = usize::from(slot);
    if here >= n {
        return false;
    }
    if array.epoch < 1 || array.epoch > draw {
        return false;
    }
    if !are_joined(&array.marks, &array.joins, array.epoch) || !are_down_from(&array.marks, n) {
        return false;
    }
    array.marks[here] != Mark::Down && joined == array.joins[here]
}

/// The well-formed superblock whose fields stand at their places, where there is one. The bytes between them aren't
/// looked at.
fn fields_of(bytes: &[u8; SECTOR], version: Version) -> Option<Super>
    ensures said { IfSome result (λ s. CanSay version s.array) }
    ensures read { (s : Superblock) (spells : SpellsSuperblock bytes.now s) →
        version ≡ spells.version → result ≡ Some s }
{
    let array = array_of(bytes, version)?;
    let slot = bytes[64];
    let joined = u64_at(bytes, 72);
    let draw = u64_at(bytes, 80);
    if is_well_formed(&array, slot, joined, draw) {
        Some(Super::new(array, slot, joined, draw))
    } else {
        None
    }
}

/// Whether the bytes are those of the superblock in this version, none left unlooked at.
fn is_spelled(bytes: &[u8; SECTOR], version: Version, block: &Super) -> bool
    ensures { IsTrue result ↔ (bytes.now ≡ spelled_in version block.now) }
{
    written(version, block) == *bytes
}

/// The superblock that these bytes are in version 1, 2 or 3, or None where they aren't those of a well-formed one.
///
/// [`write_super`](crate::write_super) gives the table of the bytes, and [`Super`] says when a superblock is well
/// formed. One of version 1 isn't frozen, and its label is empty. The geometry of one of version 3 is a large one, and
/// that of the others a small one.
pub fn read_super(bytes: &[u8; SECTOR]) -> Option<Super>
    ensures ok { IfSome result (λ s. SpellsSuperblock bytes.now s) }
    ensures read { (s : Superblock) → SpellsSuperblock bytes.now s → result ≡ Some s }
    ensures none { result ≡ None → (s : Superblock) → ¬ SpellsSuperblock bytes.now s }
{
    let version = version_of(bytes)?;
    let block = fields_of(bytes, version)?;
    if is_spelled(bytes, version, &block) {
        Some(block)
    } else {
        None
    }
}
