// The way of a redo, image by image.
ghost use Rattle.std.specs.Prelude.{◌≡◌, ◌<◌, ◌⊎◌, ℕ};
ghost use Rattle.stair_model.specs.Device.{cell_sector, gate_sector};
ghost use Rattle.stair_model.specs.Geometry.{Geometry, IsWithinLimits};
ghost use Rattle.stair_model.specs.Slots.{Slots, HasSlot};
ghost use Rattle.stair_model.specs.Stripe.{cell};
ghost use Rattle.stair_rack.specs.Media.{Image};
ghost use Rattle.stair_rack.specs.Sector.{Torn};
ghost use Rattle.stair_member.specs.Current.{IsLost};
ghost use Rattle.stair_journal.specs.Body.{IsOrDamaged};
ghost use Rattle.stair_journal.specs.Gate.{ReadsClosed};
ghost use Rattle.stair_journal.specs.declared.redo.Redo.{Redo};
ghost use Rattle.stair_state.specs.Blocks.{Codewords};
ghost use Rattle.stair_state.specs.Forms.{HasForm, HasGate, IsCommitted, IsIdle, IsInRedo, IsOpen, IsUncommitted};

/// The stages of a redo, over a set of live slots. It does nothing.
pub fn redo_laws()
    // idle with closed gates is uncommitted
    ensures begun { (g : Geometry) (old new : Codewords) (image : Image) (live : Slots) →
        IsIdle g old (HasSlot live) image →
        ((j : ℕ) → HasSlot live j → ReadsClosed g ((image j).cell gate_sector)) →
        IsUncommitted g old new (HasSlot live) image }
    // with each gate open or lost it is committed to the new stripes
    ensures committed { (g : Geometry) (old new : Codewords) (image : Image) (live : Slots)
        (redo : Redo) → IsUncommitted g old new (HasSlot live) image →
        ((j : ℕ) → HasSlot live j →
        IsOpen g image j redo ⊎ IsLost ((image j).cell gate_sector)) →
        HasGate (HasSlot live) image → IsCommitted g new (HasSlot live) image }
    // with the cells of its redo in place it is idle
    ensures placed { (g : Geometry) (words : Codewords) (image : Image) (live : Slots)
        (stage : IsCommitted g words (HasSlot live) image) → IsWithinLimits g →
        ((t i j : ℕ) → t < g.stripes → i < g.r → j < g.n → HasSlot live j →
        IsInRedo stage.redo t i j →
        IsOrDamaged (cell (words t) i j) ((image j).cell (cell_sector g t i))) →
        IsIdle g words (HasSlot live) image }
    // where no change is in doubt the form is idle or committed
    ensures certain { (g : Geometry) (words : Codewords) (image : Image) (live : Slots) →
        HasForm g words words (HasSlot live) image →
        IsIdle g words (HasSlot live) image ⊎ IsCommitted g words (HasSlot live) image }
    // a torn cell of a live slot is one of a redo that is open on a live slot
    ensures torn { (g : Geometry) (old new : Codewords) (image : Image) (live : Slots)
        (t i j : ℕ) → HasForm g old new (HasSlot live) image → t < g.stripes → i < g.r →
        j < g.n → HasSlot live j → (image j).cell (cell_sector g t i) ≡ Torn →
        (slot : ℕ) × (redo : Redo) × HasSlot live slot × IsOpen g image slot redo
        × IsInRedo redo t i j }
{}
