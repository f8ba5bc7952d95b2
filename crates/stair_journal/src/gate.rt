// The bytes of a gate.
ghost use Rattle.std.specs.Prelude.{◌≡◌, ◌+◌, ◌*◌, ◌<◌, ◌⊎◌, ◌↔◌, ℕ, None, IfSome, IsTrue};
ghost use Rattle.std.specs.Prelude.{drop, take};
ghost use Rattle.std.specs.Int.{w32, from_be_bytes};
ghost use Rattle.stair_model.specs.CellSet.{HasCell, IsCellSet, IsInStripe};
ghost use Rattle.stair_model.specs.Geometry.{IsWithinLimits};
ghost use Rattle.stair_rack.specs.Sector.{Good};
ghost use Rattle.stair_journal.specs.Gate.{
  IsOpenWith,
  ReadsClosed,
  closed_gate as closed,
  open_gate as opened,
  bitmap as bitmap_of,
  bitmap_byte as byte_of,
  has_number as is_numbered,
};
ghost use Rattle.stair_journal.specs.GateSteps.{IsMarked, IsMarkedCell, IsMarkedIn};
ghost use Rattle.stair_journal.specs.Redo.{IsRedo};

use crate::redo::Redo;
use byteorder::{BigEndian, ByteOrder};
use stair_base::{CellSet, Geometry, SECTOR};

/// The bytes of a closed gate: `STAIRGT1`, and zeros after it.
pub fn closed_gate() -> [u8; SECTOR]
    ensures { result ≡ closed }
{
    let mut gate = [0; SECTOR];
    gate[..8].copy_from_slice(b"STAIRGT1");
    gate
}

/// The bytes of a gate that is open with this redo.
pub(crate) fn open_gate(geometry: &Geometry, redo: &Redo) -> [u8; SECTOR]
    requires { IsRedo geometry.now redo.now }
    ensures { result ≡ opened geometry.now redo.now }
{
    let mut gate = closed_gate();
    gate[8] = 1;
    BigEndian::write_u32(&mut gate[12..16], redo.stripe);
    gate[16..144].copy_from_slice(&bitmap(geometry, &redo.cells));
    gate
}

// Cell (i, j) has number i·n + j, and cell number 8·q + p is bit 7 - p of byte q.
fn bitmap(geometry: &Geometry, cells: &CellSet) -> [u8; 128]
    requires { IsCellSet cells.now }
    ensures { result ≡ bitmap_of geometry.now cells.now }
{
    let mut bitmap = [0; 128];
    for q in 0..128u8 {
        bitmap[usize::from(q)] = bitmap_byte(geometry, cells, q);
    }
    bitmap
}

fn bitmap_byte(geometry: &Geometry, cells: &CellSet, q: u8) -> u8
    requires formed { IsCellSet cells.now }
    requires place { q < 128 }
    ensures { result ≡ byte_of geometry.now cells.now q }
{
    let first = 8 * u16::from(q);
    let mut byte = 0;
    for p in 0..8 {
        if has_number(geometry, cells, first + p) {
            byte += 0x80 >> p;
        }
    }
    byte
}

fn has_number(geometry: &Geometry, cells: &CellSet, number: u16) -> bool
    requires { IsCellSet cells.now }
    ensures { result ≡ is_numbered geometry.now cells.now number }
{
    let n = u16::from(geometry.n());
    let row = number / n;
    row < 32 && cells.has(row as u8, (number % n) as u8)
}

/// The redo with which a gate of these bytes is open; `None` where it reads as closed.
pub(crate) fn read_gate(geometry: &Geometry, bytes: &[u8; SECTOR]) -> Option<Redo>
    ensures open { IfSome result (λ redo. IsOpenWith geometry.now (Good bytes.now) redo) }
    ensures closed { result ≡ None → ReadsClosed geometry.now (Good bytes.now) }
{
    let redo = marked_redo(geometry, bytes);
    if is_open_with(geometry, bytes, &redo) {
        Some(redo)
    } else {
        None
    }
}

// The only redo that a gate of these bytes can be open with.
fn marked_redo(geometry: &Geometry, bytes: &[u8; SECTOR]) -> Redo
    ensures only { (redo : Redo) → IsOpenWith geometry.now (Good bytes.now) redo → result ≡ redo }
    ensures formed { IsCellSet result.cells }
    ensures inside { IsInStripe geometry.now result.cells }
{
    Redo {
        stripe: stripe_in(bytes),
        cells: marked_cells(geometry, bytes),
    }
}

// A gate is what is written for its redo, and nothing else.
fn is_open_with(geometry: &Geometry, bytes: &[u8; SECTOR], redo: &Redo) -> bool
    requires formed { IsCellSet redo.now.cells }
    requires inside { IsInStripe geometry.now redo.now.cells }
    ensures { IsTrue result ↔ IsOpenWith geometry.now (Good bytes.now) redo.now }
{
    is_redo(geometry, redo) && open_gate(geometry, redo) == *bytes
}

fn is_redo(geometry: &Geometry, redo: &Redo) -> bool
    requires formed { IsCellSet redo.now.cells }
    requires inside { IsInStripe geometry.now redo.now.cells }
    ensures { IsTrue result ↔ IsRedo geometry.now redo.now }
{
    redo.stripe < geometry.stripes() && redo.cells.count() > 0
}

fn stripe_in(bytes: &[u8; SECTOR]) -> u32
    ensures { result ≡ from_be_bytes w32 (take 4 (drop 12 bytes.now)) }
{
    u32::from_be_bytes([bytes[12], bytes[13], bytes[14], bytes[15]])
}

// The cells of the stripe that are marked in the bitmap.
fn marked_cells(geometry: &Geometry, bytes: &[u8; SECTOR]) -> CellSet
    ensures members { (i j : ℕ) → HasCell result i j ↔ IsMarkedCell geometry.now bytes.now i j }
    ensures formed { IsCellSet result }
    ensures limits { IsWithinLimits geometry.now }
{
    let mut cells = CellSet::empty();
    for row in 0..geometry.r() {
        mark_row(geometry, bytes, row, &mut cells);
    }
    cells
}

// Adds the cells of a row that are marked.
fn mark_row(geometry: &Geometry, bytes: &[u8; SECTOR], row: u8, cells: &mut CellSet)
    requires row_in { row < geometry.now.r }
    requires formed { IsCellSet cells.old }
    ensures members { (i j : ℕ) → HasCell cells.new i j ↔
        (HasCell cells.old i j ⊎ ((i ≡ row) × IsMarkedIn geometry.now bytes.now i j)) }
    ensures formed { IsCellSet cells.new }
{
    let first = u16::from(row) * u16::from(geometry.n());
    for slot in 0..geometry.n() {
        if is_marked(bytes, first + u16::from(slot)) {
            cells.add(row, slot);
        }
    }
}

fn is_marked(bytes: &[u8; SECTOR], number: u16) -> bool
    requires { number < 1024 }
    ensures { IsTrue result ↔ IsMarked bytes.now number }
{
    bytes[16 + usize::from(number / 8)] >> (7 - number % 8) & 1 == 1
}
