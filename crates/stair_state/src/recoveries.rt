// What a recovery knows, and where it leads.
ghost use Rattle.std.specs.Prelude.{◌≡◌, ◌⊎◌, ℕ, true, List};
ghost use Rattle.stair_model.specs.Device.{gate_sector};
ghost use Rattle.stair_model.specs.Geometry.{Geometry, IsWithinLimits};
ghost use Rattle.stair_model.specs.Slots.{Slots, HasSlot};
ghost use Rattle.stair_model.specs.Stripe.{cell};
ghost use Rattle.stair_rack.specs.Answers.{Ran, is_ready};
ghost use Rattle.stair_rack.specs.History.{Happening, slot_state, stopped};
ghost use Rattle.stair_rack.specs.Media.{Image};
ghost use Rattle.stair_rack.specs.Moments.{AtEveryMoment};
ghost use Rattle.stair_rack.specs.Placed.{Placed};
ghost use Rattle.stair_journal.specs.Gate.{ReadsClosed, closed_gate, open_gate};
ghost use Rattle.stair_journal.specs.Journalling.{gate_writes};
ghost use Rattle.stair_journal.specs.declared.redo.Redo.{Redo};
ghost use Rattle.stair_state.specs.Forms.{Encodes, HaveOneRedo, IsCommitted, IsIdle, IsOpen, IsUncommitted};
ghost use Rattle.stair_state.specs.Recovering.{IsClosedSector, IsKnownBad, IsKnownClosed, IsKnownOpen, IsOpenSector, IsUnreadable};
ghost use Rattle.stair_state.specs.Redoing.{AreHeld, AtRest, Done, InPlace, IsIn, IsLeftIn, IsRedoing, Placing, Reaches, Redoing, Stage, Uncommitted, WritesNone};

/// How a recovery goes on from what a crash left. It does nothing.
pub fn recovery_laws()
    // Stripes that are in place, with every gate closed, are at rest.
    ensures at_rest { (a : Redoing) (live : Slots) (image : Image) →
        Encodes a.geometry a.old (HasSlot live) image →
        ((j : ℕ) → HasSlot live j → ReadsClosed a.geometry ((image j).cell gate_sector)) →
        IsLeftIn a AtRest (HasSlot live) image }
    // Uncommitted, with one gate open and none with another redo, it is a redo, in its stage of that name.
    ensures uncommitted { (a : Redoing) (live : Slots) (image : Image) (j : ℕ) →
        IsWithinLimits a.geometry → HaveOneRedo a.geometry (HasSlot live) image →
        IsUncommitted a.geometry a.old a.new (HasSlot live) image → HasSlot live j →
        IsOpen a.geometry image j a.redo →
        IsRedoing a × IsLeftIn a Uncommitted (HasSlot live) image }
    // So is idle with an open gate, whose redo changes nothing;
    ensures idle { (a : Redoing) (live : Slots) (image : Image) (j : ℕ) →
        IsWithinLimits a.geometry → a.new ≡ a.old →
        HaveOneRedo a.geometry (HasSlot live) image →
        IsIdle a.geometry a.old (HasSlot live) image → HasSlot live j →
        IsOpen a.geometry image j a.redo →
        IsRedoing a × IsLeftIn a Uncommitted (HasSlot live) image }
    // and committed is the stage in which cells are placed.
    ensures committed { (a : Redoing) (live : Slots) (image : Image) →
        IsWithinLimits a.geometry → a.new ≡ a.old →
        (form : IsCommitted a.geometry a.new (HasSlot live) image) → form.redo ≡ a.redo →
        IsRedoing a × IsLeftIn a Placing (HasSlot live) image }
    // What is so of a gate while its slot is in use is known of it,
    ensures found { (g : Geometry) (redo : Redo) (live : Slots) (start h : List Happening)
        (j : ℕ) → AreHeld g (HasSlot live) start h → HasSlot live j → is_ready h j ≡ true →
        let gate = (slot_state h j).sector gate_sector in
        (IsOpenSector g redo gate → IsKnownOpen g redo start h j)
        × (IsClosedSector g gate → IsKnownClosed g start h j)
        × (IsUnreadable gate → IsKnownBad start h j) }
    // and stays known while it isn't written.
    ensures known { (g : Geometry) (redo : Redo) (live : Slots) (start old new : List Happening)
        (j : ℕ) → HasSlot live j → Ran (WritesNone (HasSlot live)) old new →
        (IsKnownOpen g redo start old j → IsKnownOpen g redo start new j)
        × (IsKnownClosed g start old j → IsKnownClosed g start new j)
        × (IsKnownBad start old j → IsKnownBad start new j) }
    // At rest, closing gates keeps the stage, whatever the slots.
    ensures closing { (a : Redoing) (stage : Stage) (live to gone : Slots)
        (start old new : List Happening) → (stage ≡ AtRest) ⊎ (stage ≡ Done) →
        IsIn a stage (HasSlot live) start old →
        Placed (gate_writes closed_gate) (HasSlot to) (HasSlot gone) old new →
        AtEveryMoment (IsIn a stage (HasSlot live) start) old new }
    // Uncommitted, opening the gates that aren't known open leads on, unless the rack is stopped.
    ensures opening { (a : Redoing) (live to gone : Slots) (start old new : List Happening) →
        IsRedoing a → AreHeld a.geometry (HasSlot live) start old →
        IsIn a Uncommitted (HasSlot live) start old →
        Placed (gate_writes (open_gate a.geometry a.redo)) (HasSlot to) (HasSlot gone) old new →
        ((j : ℕ) → HasSlot live j →
        HasSlot to j ⊎ IsKnownOpen a.geometry a.redo start old j) →
        AtEveryMoment (IsIn a Uncommitted (HasSlot live) start) old new ×
        Reaches a Placing (HasSlot live) start new }
    // While cells are placed, opening gates again keeps the stage, where those of live slots in use are known bad. Over an
    // open gate a cut write would leave one that is neither open nor lost.
    ensures reopening { (a : Redoing) (live to gone : Slots) (start old new : List Happening) →
        IsRedoing a → AreHeld a.geometry (HasSlot live) start old →
        IsIn a Placing (HasSlot live) start old →
        Placed (gate_writes (open_gate a.geometry a.redo)) (HasSlot to) (HasSlot gone) old new →
        ((j : ℕ) → HasSlot live j → HasSlot to j → is_ready old j ≡ true →
        IsKnownBad start old j) →
        AtEveryMoment (IsIn a Placing (HasSlot live) start) old new }
    // Where every live gate is known closed, a redo that wasn't committed wasn't begun,
    ensures unopened { (a : Redoing) (live : Slots) (start h : List Happening) →
        IsIn a Uncommitted (HasSlot live) start h →
        ((j : ℕ) → HasSlot live j → IsKnownClosed a.geometry start h j) →
        IsIn a AtRest (HasSlot live) start h }
    // and one whose cells are in place is done.
    ensures closed { (a : Redoing) (live : Slots) (start h : List Happening) →
        IsIn a InPlace (HasSlot live) start h →
        ((j : ℕ) → HasSlot live j → IsKnownClosed a.geometry start h j) →
        IsIn a Done (HasSlot live) start h }
{}
