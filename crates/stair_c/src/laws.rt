//! The laws of the layout of a buffer.

ghost use Rattle.std.specs.Prelude.{◌≡◌, ℕ, ◌+◌, ◌*◌, ◌<◌};
ghost use Rattle.stair_model.specs.Geometry.{Geometry};
ghost use Rattle.stair_c.specs.Chunks.{sector_number};

/// Which sector of a buffer of k stripes each of their cells has. It does nothing.
///
/// Each cell has a sector of its own, and each sector a cell. Where `stair_place` says that a block is at a sector of a
/// slot's chunks, this is the block's sector in a buffer, the slot's k·r sectors preceded by those of the slots before.
pub fn sector_laws()
    ensures within { (g : Geometry) (k s i j : ℕ) → s < k → i < g.r → j < g.n →
        sector_number g k s i j < g.n * k * g.r }
    ensures apart { (g : Geometry) (k s i j t u v : ℕ) → s < k → t < k → i < g.r → u < g.r →
        sector_number g k s i j ≡ sector_number g k t u v → (s ≡ t) × (i ≡ u) × (j ≡ v) }
    ensures has_cell { (g : Geometry) (k p : ℕ) → p < g.n * k * g.r →
        (s : ℕ) × (i : ℕ) × (j : ℕ) × (s < k) × (i < g.r) × (j < g.n) × (p ≡ sector_number g k s i j) }
    ensures in_chunks { (g : Geometry) (k s i j : ℕ) →
        sector_number g k s i j ≡ j * (k * g.r) + (s * g.r + i) }
{}
