//! The laws of the cell layout: what each cell of a stripe is, how data cells are numbered, and where blocks lie.

ghost use Rattle.std.specs.Prelude.{◌≡◌, ℕ, ◌+◌, ◌<◌, ◌⊎◌, ◌↔◌};
ghost use Rattle.stair_model.specs.Geometry.{
  Geometry,
  IsWithinLimits,
  classes,
  coverage,
  data_chunks,
  data_cells,
  block_count,
};
ghost use Rattle.stair_model.specs.Cell.{
  Data,
  Global,
  Parity,
  global_chunk,
  global_row,
  data_before,
  cell_at,
  IsPlaceOf,
};
ghost use Rattle.stair_model.specs.Examples.{four_devices, eight_devices};

/// What each cell of a stripe is, for every geometry within the limits. It does nothing.
///
/// The row parities are the chunks from n-m on. The global parities of class l are the bottom e_l cells of chunk
/// n-m-m'+l. All other cells are data cells, which are numbered row by row, so that each number below u is the number
/// of exactly one cell. There are u of them.
pub fn cell_laws()
    ensures parity { (g : Geometry) (i j k : ℕ) → IsWithinLimits g → i < g.r → j < g.n →
        ((cell_at g i j ≡ Parity k) ↔ ((k < g.m) × (j ≡ data_chunks g + k))) }
    ensures global { (g : Geometry) (i j l h : ℕ) → IsWithinLimits g → i < g.r → j < g.n →
        ((cell_at g i j ≡ Global l h) ↔ ((l < classes g) × (h < coverage g l)
        × (i ≡ global_row g l h) × (j ≡ global_chunk g l))) }
    ensures data_in_range { (g : Geometry) (i j d : ℕ) → IsWithinLimits g → i < g.r → j < g.n →
        cell_at g i j ≡ Data d → (d < data_cells g) × (j < data_chunks g) }
    ensures data_reached { (g : Geometry) (d : ℕ) → IsWithinLimits g → d < data_cells g →
        (i : ℕ) × (j : ℕ) × (i < g.r) × (j < g.n) × (cell_at g i j ≡ Data d) }
    // two cells with one number are one cell
    ensures data_once { (g : Geometry) (i j i' j' d : ℕ) → IsWithinLimits g →
        i < g.r → j < g.n → i' < g.r → j' < g.n →
        cell_at g i j ≡ Data d → cell_at g i' j' ≡ Data d → (i ≡ i') × (j ≡ j') }
    // row by row
    ensures data_order { (g : Geometry) (i j i' j' d d' : ℕ) → IsWithinLimits g →
        i < g.r → j < g.n → i' < g.r → j' < g.n →
        cell_at g i j ≡ Data d → cell_at g i' j' ≡ Data d' →
        (i < i') ⊎ ((i ≡ i') × (j < j')) → d < d' }
    ensures data_count { (g : Geometry) → IsWithinLimits g → data_before g g.r 0 ≡ data_cells g }
{}

/// Where blocks lie, for every geometry within the limits. It does nothing.
///
/// Each block has exactly one place, and each data cell of each stripe is the place of exactly one block.
pub fn block_laws()
    ensures has_place { (g : Geometry) (b : ℕ) → IsWithinLimits g → b < block_count g →
        (stripe : ℕ) × (row : ℕ) × (chunk : ℕ) × (stripe < g.stripes)
        × IsPlaceOf g b stripe row chunk }
    ensures one_place { (g : Geometry) (b stripe row chunk stripe' row' chunk' : ℕ) →
        IsWithinLimits g → IsPlaceOf g b stripe row chunk → IsPlaceOf g b stripe' row' chunk' →
        (stripe ≡ stripe') × (row ≡ row') × (chunk ≡ chunk') }
    ensures has_block { (g : Geometry) (stripe row chunk d : ℕ) → IsWithinLimits g →
        stripe < g.stripes → row < g.r → chunk < g.n → cell_at g row chunk ≡ Data d →
        (b : ℕ) × (b < block_count g) × IsPlaceOf g b stripe row chunk }
    ensures one_block { (g : Geometry) (b c stripe row chunk : ℕ) → IsWithinLimits g →
        IsPlaceOf g b stripe row chunk → IsPlaceOf g c stripe row chunk → b ≡ c }
{}

/// Known cells of two geometries, counted by hand from the text of the layout. It does nothing.
pub fn known_cells()
    ensures four_limits { IsWithinLimits four_devices }
    ensures four_count { data_cells four_devices ≡ 5 }
    ensures four_row_0 { (cell_at four_devices 0 0 ≡ Data 0) × (cell_at four_devices 0 1 ≡ Data 1)
        × (cell_at four_devices 0 2 ≡ Data 2) × (cell_at four_devices 0 3 ≡ Parity 0) }
    ensures four_row_1 { (cell_at four_devices 1 0 ≡ Data 3) × (cell_at four_devices 1 1 ≡ Data 4)
        × (cell_at four_devices 1 2 ≡ Global 0 0) × (cell_at four_devices 1 3 ≡ Parity 0) }
    ensures eight_limits { IsWithinLimits eight_devices }
    ensures eight_count { data_cells eight_devices ≡ 20 }
    // rows 0 and 1 have six data cells each, and row 2 has five
    ensures eight_row_2 { (cell_at eight_devices 2 4 ≡ Data 16)
        × (cell_at eight_devices 2 5 ≡ Global 2 0) × (cell_at eight_devices 2 7 ≡ Parity 1) }
    ensures eight_row_3 { (cell_at eight_devices 3 2 ≡ Data 19)
        × (cell_at eight_devices 3 3 ≡ Global 0 0) × (cell_at eight_devices 3 4 ≡ Global 1 0)
        × (cell_at eight_devices 3 5 ≡ Global 2 1) × (cell_at eight_devices 3 6 ≡ Parity 0) }
    // block 57 is data cell 17 of stripe 2
    ensures eight_block { IsPlaceOf eight_devices 57 2 3 0 }
{}
