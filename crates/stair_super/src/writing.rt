ghost use Rattle.std.specs.Prelude.{◌≡◌, ◌+◌, ◌≤◌, ◌++◌, length};
ghost use Rattle.stair_model.specs.Stripe.{SECTOR};
ghost use Rattle.stair_super.specs.declared.version.Version.TheVariants.{One};
ghost use Rattle.stair_model.specs.Geometry.{IsSmall};
ghost use Rattle.stair_super.specs.Spelling.{SpellsSuperblock, version_for, IsPlain, magic, padded, geometry_part, numbers_part, entries, code, frozen_code, label_part, notes_part, spelled_in, spelled};

use crate::block::Super;
use crate::label::Label;
use crate::mark::Mark;
use crate::page::Page;
use crate::version::Version;
use stair_base::{Geometry, SECTOR};

fn code_of(mark: Mark) -> u8
    ensures { result ≡ code mark }
{
    match mark {
        Mark::Live => 1,
        Mark::Rebuilding => 2,
        Mark::Down => 3,
    }
}

/// The coverage vector, with zeros after it.
fn put_coverage(page: &mut Page, geometry: &Geometry)
    requires { length page.old + 32 ≤ SECTOR }
    ensures text { page.new ≡ page.old ++ padded geometry.now.e }
    ensures len { length page.new ≡ length page.old + 32 }
{
    for l in 0..geometry.classes() {
        page.put(&[geometry.coverage(l)]);
    }
    page.skip(usize::from(32 - geometry.classes()));
}

/// The mark and the joined number of each slot.
fn put_entries(page: &mut Page, block: &Super)
    requires { length page.old + 288 ≤ SECTOR }
    ensures text { page.new ≡ page.old ++ entries block.now 32 }
    ensures len { length page.new ≡ length page.old + 288 }
{
    let n = usize::from(block.geometry().n());
    let marks = block.marks();
    let joins = block.joins();
    for j in 0..32 {
        if j < n {
            page.put(&[code_of(marks[j])]);
            page.put_u64(joins[j]);
        } else {
            page.skip(9);
        }
    }
}

/// The array: its identity, its numbers, its coverage vector and its stripes.
fn put_geometry(page: &mut Page, geometry: &Geometry)
    requires { length page.old + 56 ≤ SECTOR }
    ensures text { page.new ≡ page.old ++ geometry_part geometry.now }
    ensures len { length page.new ≡ length page.old + 56 }
{
    page.put(&geometry.id());
    page.put(&[geometry.n(), geometry.m(), geometry.r(), geometry.classes()]);
    put_coverage(page, geometry);
    page.put_u32(geometry.stripes());
}

/// The slot, and the numbers of the device and of the epoch.
fn put_numbers(page: &mut Page, block: &Super)
    requires { length page.old + 32 ≤ SECTOR }
    ensures text { page.new ≡ page.old ++ numbers_part block.now }
    ensures len { length page.new ≡ length page.old + 32 }
{
    page.put(&[block.slot()]);
    page.skip(7);
    page.put_u64(block.joined());
    page.put_u64(block.draw());
    page.put_u64(block.epoch());
}

fn frozen_code_of(frozen: bool) -> u8
    ensures { result ≡ frozen_code frozen }
{
    if frozen { 1 } else { 0 }
}

/// The label's length and the label. After it the page stays zero.
fn put_label(page: &mut Page, label: &Label)
    requires { length page.old + 127 ≤ SECTOR }
    ensures text { page.new ≡ page.old ++ label_part label.now }
    ensures len { length page.new ≡ length page.old + 127 }
{
    let text = label.bytes();
    page.put(&[text.len() as u8]);
    page.put(text);
    page.skip(126 - text.len());
}

/// What the version says besides marks: the frozen mark and the label.
fn put_notes(page: &mut Page, version: Version, block: &Super)
    requires { length page.old + 128 ≤ SECTOR }
    ensures text { page.new ≡ page.old ++ notes_part version block.now.array }
    ensures len { length page.new ≡ length page.old + 128 }
{
    match version {
        Version::One => page.skip(128),
        Version::Two | Version::Three => {
            page.put(&[frozen_code_of(block.frozen())]);
            put_label(page, &block.label());
        }
    }
}

fn put_magic(page: &mut Page, version: Version)
    requires { length page.old + 8 ≤ SECTOR }
    ensures text { page.new ≡ page.old ++ magic version }
    ensures len { length page.new ≡ length page.old + 8 }
{
    match version {
        Version::One => page.put(b"STAIRSB1"),
        Version::Two => page.put(b"STAIRSB2"),
        Version::Three => page.put(b"STAIRSB3"),
    }
}

/// The version in which superblocks of such an array are written: 2, or 3 where it is a large one.
fn version_for(geometry: &Geometry) -> Version
    ensures { result ≡ version_for geometry.now }
{
    if geometry.is_small() {
        Version::Two
    } else {
        Version::Three
    }
}

/// The bytes of a superblock in this version. Version 1 leaves the frozen mark and the label out.
pub fn written(version: Version, block: &Super) -> [u8; SECTOR]
    ensures { result ≡ spelled_in version block.now }
{
    let mut page = Page::new();
    put_magic(&mut page, version);
    put_geometry(&mut page, &block.geometry());
    put_numbers(&mut page, block);
    put_entries(&mut page, block);
    put_notes(&mut page, version, block);
    page.bytes()
}

/// The bytes of a superblock: a sector, in which all numbers are big-endian and bytes that aren't named are zero.
///
/// | bytes | field |
/// |---|---|
/// | 0 to 7 | `STAIRSB2`, and `STAIRSB3` of a large array |
/// | 8 to 23 | id |
/// | 24 to 27 | n, m, r and the length of e |
/// | 28 to 59 | e, one byte each entry, then zeros |
/// | 60 to 63 | stripes |
/// | 64 | slot |
/// | 72 to 79 | joined |
/// | 80 to 87 | draw |
/// | 88 to 95 | epoch |
/// | 96 + 9·j to 104 + 9·j | of slot j below n: its mark (1 Live, 2 Rebuilding, 3 Down) and its joined number |
/// | 384 | 1 where the array is frozen, else 0 |
/// | 385 | the length of the label |
/// | from 386 on | the label |
///
/// This is version 2, or version 3 where the geometry isn't a small one ([`Geometry::is_small`]).
/// [`write_super_v1`] writes version 1.
pub fn write_super(block: &Super) -> [u8; SECTOR]
    ensures text { result ≡ spelled block.now }
    ensures spells { SpellsSuperblock result block.now }
{
    written(version_for(&block.geometry()), block)
}

/// The bytes of a superblock in version 1 of the format, for arrays that older programs are to read. It begins with
/// `STAIRSB1` and has nothing from byte 384 on, so the array may be neither frozen nor labelled, and it is a small one.
pub fn write_super_v1(block: &Super) -> [u8; SECTOR]
    requires plain { IsPlain block.now.array }
    requires small { IsSmall block.now.array.geometry }
    ensures text { result ≡ spelled_in One block.now }
    ensures spells { SpellsSuperblock result block.now }
{
    let _slot = block.slot();
    written(Version::One, block)
}
