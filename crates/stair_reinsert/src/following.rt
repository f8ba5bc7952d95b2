//! What holds of a medium while it is in its slot, and wherever it lies later.

ghost use Rattle.std.specs.Prelude.{◌≡◌, ℕ, IsSome, List, Some, slice_get};
ghost use Rattle.stair_model.specs.Slots.{HasSlot, Slots};
ghost use Rattle.stair_rack.specs.Answers.{IsHistory, IsNoAttach, Ran, any_call};
ghost use Rattle.stair_rack.specs.Crash.{CrashMayLeave};
ghost use Rattle.stair_rack.specs.History.{Happening, slot_state};
ghost use Rattle.stair_rack.specs.Media.{Image, Medium};
ghost use Rattle.stair_rack.specs.Moments.{AtEveryMoment, IsMoment};
ghost use Rattle.stair_rack.specs.Offline.{IsAttached, WasPulled};
ghost use Rattle.stair_rack.specs.Placed.{IsSlot};
ghost use Rattle.stair_member.specs.Editions.{Edition};
ghost use Rattle.stair_member.specs.Epochs.{IsIssuing, Issued, WasGiven};
ghost use Rattle.stair_member.specs.Membership.{Membership};
ghost use Rattle.stair_member.specs.declared.aim.EpochChange.{EpochChange};
ghost use Rattle.stair_state.specs.Degraded.{AreDamagedCopies};
ghost use Rattle.stair_state.specs.Forms.{HasGate, RepresentsBy};
ghost use Rattle.stair_state.specs.Reassembly.{InSlot, Location, Outside};
ghost use Rattle.stair_state.specs.Redoing.{IsIn, IsLeftIn, IsRedoing, Placing, Redoing, Stage, new_in, old_in};
ghost use Rattle.stair_state.specs.Represents.{no_write};
ghost use Rattle.stair_reinsert.specs.Following.{AreOfNamed, HoldsNamed, Wherever, name_of};
ghost use Rattle.stair_reinsert.specs.Given.{HasCopy, HasGivenOrOwn, KnowsSuper};

/// Media and their names. It does nothing.
pub fn name_laws()
    // no two media of a slot have one name
    ensures apart { (h : List Happening) (j : ℕ) (p q : Location) →
        name_of h j p ≡ name_of h j q → p ≡ q }
    // a slot that wasn't pulled has the medium that it had
    ensures unpulled { (old new : List Happening) (j : ℕ) → Ran any_call old new →
        IsSome (slot_state old j).size → (¬ WasPulled old new j) →
        name_of new j InSlot ≡ name_of old j InSlot }
    // and so has one that is attached, where no call attached it meanwhile
    ensures attached { (old new : List Happening) (j : ℕ) → IsHistory old →
        Ran (IsNoAttach j) old new → IsAttached new j →
        (¬ WasPulled old new j) × (name_of new j InSlot ≡ name_of old j InSlot) }
    // a medium that lay outside has what it had, or damage, wherever it lies then
    ensures outside { (old new : List Happening) (j i : ℕ) (medium : Medium) → IsHistory old →
        Ran (IsNoAttach j) old new → slice_get (slot_state old j).removed i ≡ Some medium →
        Wherever new j (name_of old j (Outside i)) (AreDamagedCopies medium.cell) }
    // and while a rack is only looked at so has every medium, attached anew or not
    ensures looked { (old new : List Happening) (j : ℕ) (name : Location) → IsHistory old →
        Ran no_write old new → Wherever new j name (AreOfNamed old j name) }
{}

/// What a session knows of media that were pulled. It does nothing.
pub fn wherever_laws()
    // Slot j wasn't pulled before the moment `from`, and from then on it is in a stage of a redo, but for the outside. So is
    // its medium, however media are put together then.
    ensures stage { (a : Redoing) (stage : Stage) (start from h : List Happening) (j : ℕ)
        (image to : Image) → IsSome (slot_state start j).size → IsMoment start from h → (¬ WasPulled start from j) → Ran (IsNoAttach j) start h →
        AtEveryMoment (IsIn a stage (IsSlot j) start) from h → CrashMayLeave h image →
        HoldsNamed h image to (name_of start j InSlot) j → IsLeftIn a stage (IsSlot j) to }
    // and slots whose media are in a stage have the stripes of the stage
    ensures stands { (a : Redoing) (stage : Stage) (some : Slots) (to : Image) → IsRedoing a →
        ((j : ℕ) → HasSlot some j → IsLeftIn a stage (IsSlot j) to) →
        ((stage ≡ Placing) → HasGate (HasSlot some) to) →
        RepresentsBy a.geometry (old_in a stage) (new_in a stage) (HasSlot some) to }
    // a medium has the draw that its slot was given, or that place of it was damaged since
    ensures given { (slots : Slots) (editions : List Edition) (draw epoch : ℕ)
        (old h : List Happening) (j : ℕ) → IsSome (slot_state old j).size →
        Ran (IsIssuing slots editions) old h → WasGiven slots editions draw epoch old h j →
        Wherever h j (name_of old j InSlot) (HasCopy editions draw epoch j) }
    // At each moment of a call that establishes an epoch the superblock of a medium is one that it was given in the call, or
    // the one that it had: it is never written over, so a superblock that it hides never counts again.
    ensures superblock { (aim : EpochChange) (gone : Slots) (m last : Membership)
        (old h new : List Happening) (issued : Issued aim gone m last old new) (j : ℕ) →
        IsMoment old h new → HasSlot issued.slots j → KnowsSuper m old j →
        Wherever h j (name_of old j InSlot)
        (HasGivenOrOwn issued.slots issued.editions old j) }
{}
