//! What a rack represents in a session: between calls, at every moment at which an epoch is established, and once it stands.

ghost use Rattle.std.specs.Prelude.{◌≡◌, ◌<◌, ◌⊎◌, ℕ, IsTrue, List, Option, None};
ghost use Rattle.stair_model.specs.Slots.{Slots, HasSlot};
ghost use Rattle.stair_rack.specs.Crash.{CrashMayLeave};
ghost use Rattle.stair_rack.specs.History.{Happening, slot_state, stopped};
ghost use Rattle.stair_rack.specs.Media.{Image};
ghost use Rattle.stair_rack.specs.Offline.{IsAttached, WasPulled};
ghost use Rattle.stair_super.specs.Superblock.{Superblock};
ghost use Rattle.stair_member.specs.Aims.{IsAimed};
ghost use Rattle.stair_member.specs.Current.{IsCurrent};
ghost use Rattle.stair_member.specs.Fencing.{HasStood, IsFencing};
ghost use Rattle.stair_member.specs.Membership.{Membership, why_of};
ghost use Rattle.stair_member.specs.declared.aim.EpochChange.{EpochChange};
ghost use Rattle.stair_member.specs.declared.aim.EpochChange.TheVariants.{Fence};
ghost use Rattle.stair_member.specs.declared.why.Why.TheVariants.{Here};
ghost use Rattle.stair_state.specs.Blocks.{AreEncodingsOf, Codewords};
ghost use Rattle.stair_state.specs.Redoing.{IsIn, IsRedoing, Redoing, Stage, new_in, old_in};
ghost use Rattle.stair_state.specs.Represents.{IsLargeEnough, Represents, RepresentsAlone};
ghost use Rattle.stair_state.specs.State.{Change, Content, changed_if};
ghost use Rattle.stair_state.specs.Tolerance.{IsTolerated, IsToleratedAlone};
ghost use Rattle.stair_invariant.specs.InSession.{
  HasEpoch,
  IsAimedContent,
  IsInSession,
  IsOfContent,
  IsReadyFor,
  state_with,
};

/// What the rack of a session represents, also while an epoch is established. It does nothing.
pub fn epoch_laws()
    // between calls the rack represents the state that the member and the stripes tell
    ensures represents { (m : Membership) (words : Codewords) (content : Content)
        (before h : List Happening) → IsInSession m words h → IsOfContent m words content →
        IsTolerated m.array.geometry before h →
        Represents (state_with m content None m.array) h }
    // At every moment at which an epoch is established, up to which no medium came back, whatever a crash leaves represents the state, with the seats that
    // its current superblock has; where a change of frozen mark or label is made, that is in doubt.
    ensures meanwhile { (aim : EpochChange) (gone : Slots) (m last : Membership) (words : Codewords)
        (content : Content) (doubt : Option Change) (old h new : List Happening)
        (image : Image) → IsReadyFor aim m words old → IsFencing aim gone m last old h new →
        ¬ IsTrue (stopped h) → CrashMayLeave h image →
        IsOfContent m words content → IsAimedContent aim m words content doubt →
        (tolerated : IsToleratedAlone m.array.geometry image) →
        RepresentsAlone (state_with m content doubt tolerated.current.array) image }
    // What is current in it is of the member's epoch, or of one that is for this, in which a slot was dropped only where
    // it was gone.
    ensures names { (aim : EpochChange) (gone : Slots) (m last : Membership) (words : Codewords)
        (old h new : List Happening) (image : Image) (current : Superblock) →
        IsReadyFor aim m words old → IsFencing aim gone m last old h new →
        ¬ IsTrue (stopped h) → CrashMayLeave h image →
        IsToleratedAlone m.array.geometry image →
        IsCurrent m.array.geometry image current →
        (current.array ≡ m.array) ⊎ ((m.array.epoch < current.array.epoch)
        × IsAimed aim (HasSlot gone) m current.array) }
    // At each moment of a redo, which is in this stage on each live slot that is attached, the rack represents the state, with
    // the redo's change in doubt.
    ensures amid { (a : Redoing) (m : Membership) (stage : Stage) (live : Slots)
        (start h before : List Happening) (content : Content) (doubt : Option Change) →
        HasEpoch m h → a.geometry ≡ m.array.geometry → IsRedoing a →
        IsIn a stage (HasSlot live) start h →
        ((j : ℕ) → j < m.array.geometry.n → why_of m j ≡ Here → IsAttached h j →
        HasSlot live j × ((¬ WasPulled start h j)
        × IsLargeEnough m.array.geometry (slot_state h j).size)) →
        AreEncodingsOf m.array.geometry content.blocks (old_in a stage) →
        AreEncodingsOf m.array.geometry (changed_if doubt content).blocks (new_in a stage) →
        m.array.frozen ≡ content.frozen → m.array.label ≡ content.label →
        IsTolerated m.array.geometry before h →
        Represents (state_with m content doubt m.array) h }
    // Where slots are left out in the midst of it, so does whatever a crash leaves at each moment of that, with the seats that
    // its current superblock has.
    ensures fenced { (a : Redoing) (m last : Membership) (stage : Stage) (live gone : Slots)
        (start old h new : List Happening) (image : Image) (content : Content)
        (doubt : Option Change) → HasEpoch m old → a.geometry ≡ m.array.geometry → IsRedoing a →
        IsIn a stage (HasSlot live) start old →
        ((j : ℕ) → j < m.array.geometry.n → why_of m j ≡ Here → IsAttached old j →
        HasSlot live j × ((¬ WasPulled start old j)
        × IsLargeEnough m.array.geometry (slot_state old j).size)) →
        AreEncodingsOf m.array.geometry content.blocks (old_in a stage) →
        AreEncodingsOf m.array.geometry (changed_if doubt content).blocks (new_in a stage) →
        m.array.frozen ≡ content.frozen → m.array.label ≡ content.label →
        IsFencing Fence gone m last old h new → ¬ IsTrue (stopped h) →
        CrashMayLeave h image → (tolerated : IsToleratedAlone m.array.geometry image) →
        RepresentsAlone (state_with m content doubt tolerated.current.array) image }
    // Once an epoch stands all that a session knows is so again, with the slot that was promoted among those that serve.
    ensures after { (aim : EpochChange) (gone : Slots) (m last : Membership) (words : Codewords)
        (old new : List Happening) → IsReadyFor aim m words old →
        HasStood aim gone m last old new → ¬ IsTrue (stopped new) → IsInSession last words new }
{}
