//! The record of a session, where no medium comes back: what its rack represents, and how it is led on.

ghost use Rattle.std.specs.Prelude.{◌≡◌, ◌≢◌, ◌<◌, ◌≤◌, ◌⊎◌, ℕ, IsTrue, List, None, Option, Some};
ghost use Rattle.stair_model.specs.Geometry.{Geometry};
ghost use Rattle.stair_model.specs.Slots.{HasSlot, Slots};
ghost use Rattle.stair_rack.specs.Answers.{Ran};
ghost use Rattle.stair_rack.specs.Crash.{CrashMayLeave};
ghost use Rattle.stair_rack.specs.History.{Happening, slot_state, stopped};
ghost use Rattle.stair_rack.specs.Media.{Image};
ghost use Rattle.stair_rack.specs.Offline.{IsAttached, IsHeld, IsOfflineUntilAttached, WasPulled};
ghost use Rattle.stair_rack.specs.Placed.{Placed, Writes};
ghost use Rattle.stair_rack.specs.Stretch.{NothingReturned};
ghost use Rattle.stair_rack.specs.RackState.{RackState};
ghost use Rattle.stair_super.specs.Superblock.{Superblock};
ghost use Rattle.stair_member.specs.Aims.{admitted};
ghost use Rattle.stair_member.specs.Epochs.{Issued};
ghost use Rattle.stair_member.specs.Establishing.{Establishes, Leaves};
ghost use Rattle.stair_member.specs.Fencing.{HasStood, IsBegun, IsFencing};
ghost use Rattle.stair_member.specs.Membership.{IsHere, IsMembership, Membership, why_of};
ghost use Rattle.stair_member.specs.Seeing.{Sees};
ghost use Rattle.stair_member.specs.declared.aim.EpochChange.{EpochChange};
ghost use Rattle.stair_member.specs.declared.aim.EpochChange.TheVariants.{Fence, Promote};
ghost use Rattle.stair_member.specs.declared.why.Why.TheVariants.{Rebuilding};
ghost use Rattle.stair_state.specs.Blocks.{AreEncodingsOf, Codewords};
ghost use Rattle.stair_state.specs.Redoing.{AtRest, Done, IsApart, IsIn, IsRedoing, Placing, Redoing, Stage, new_in, next, old_in, writes_in};
ghost use Rattle.stair_state.specs.Represents.{IsLargeEnough, Represents, RepresentsAlone};
ghost use Rattle.stair_state.specs.State.{Change, Content, changed_if};
ghost use Rattle.stair_state.specs.Tolerance.{IsTolerated, IsToleratedAlone};
ghost use Rattle.stair_invariant.specs.Chunks.{IsBesideChunks};
ghost use Rattle.stair_invariant.specs.Effects.{DoesStage, IsOver, FencesGone, Snapshot, snapshot, stage_writes};
ghost use Rattle.stair_invariant.specs.InSession.{
  HasEpoch,
  IsAimedContent,
  IsBesideEpochs,
  IsOfContent,
  IsReadyFor,
  state_with,
};
ghost use Rattle.stair_invariant.specs.Leading.{IsAmidRedo, IsBesideArray, IsOpenAmid, KeepsRebuilds, led_to};
ghost use Rattle.stair_invariant.specs.Rebuilding.{IsRebuiltTo, Rebuild};
ghost use Rattle.stair_invariant.specs.Session.{ArrayState, IsArray, IsLiveIn, IsOpenWith, IsRebuiltIn};
ghost use Rattle.stair_invariant.specs.UnderWay.{IsUnderWay};

/// What an open array's session leads to. It does nothing.
pub fn open_laws()
    // between calls the rack represents the state that the member and the stripes tell
    ensures represents { (before : List Happening) (a : ArrayState) (words : Codewords)
        (h : List Happening) (content : Content) → IsOpenWith before a words h →
        NothingReturned before h → IsBegun None a.member h →
        IsOfContent a.member words content → IsTolerated a.member.array.geometry before h →
        Represents (state_with a.member content None a.member.array) h }
    // At every moment at which an epoch is established that neither admits nor promotes, whatever a crash leaves represents
    // the state, with the seats that its current superblock has; a change of frozen mark or label that it makes is in doubt.
    ensures meanwhile { (aim : EpochChange) (gone : Slots) (before : List Happening) (a : ArrayState)
        (words : Codewords) (last : Membership) (content : Content) (doubt : Option Change)
        (old h new : List Happening) (image : Image) → IsOpenWith before a words old →
        NothingReturned before old → admitted aim ≡ None → ((j : ℕ) → aim ≢ Promote j) →
        IsFencing aim gone a.member last old h new → ¬ IsTrue (stopped h) →
        CrashMayLeave h image → IsOfContent a.member words content →
        IsAimedContent aim a.member words content doubt →
        (tolerated : IsToleratedAlone a.member.array.geometry image) →
        RepresentsAlone (state_with a.member content doubt tolerated.current.array) image }
    // Calls that are beside all that it has keep the record, and what a call that establishes an epoch may begin with.
    ensures beside { (before : List Happening) (a : ArrayState) (words : Codewords)
        (old new : List Happening) → IsOpenWith before a words old → IsBegun None a.member old →
        Ran (IsBesideArray a) old new → NothingReturned before new → (¬ IsTrue (stopped new)) →
        IsOpenWith before a words new × IsBegun None a.member new }
    // In the midst of a redo what no stripe has a say in is so,
    ensures amid { (before : List Happening) (a : ArrayState) (words : Codewords)
        (h : List Happening) → IsOpenWith before a words h → IsOpenAmid before a h }
    // by which the session has its epoch,
    ensures epoch { (before : List Happening) (a : ArrayState) (h : List Happening) →
        IsOpenAmid before a h → NothingReturned before h → (¬ IsTrue (stopped h)) →
        IsBegun None a.member h → HasEpoch a.member h }
    // and stays so through calls beside the epochs.
    ensures beside_epochs { (before : List Happening) (a : ArrayState)
        (old new : List Happening) → IsOpenAmid before a old → IsBegun None a.member old →
        Ran (IsBesideEpochs a.member) old new → NothingReturned before new →
        (¬ IsTrue (stopped new)) → IsOpenAmid before a new × IsBegun None a.member new }
    // Once the redo is done on each attached live slot, of a medium that it had since the redo began, the record is that with
    // the new stripes,
    ensures done { (r : Redoing) (before : List Happening) (a : ArrayState) (live : Slots)
        (start h : List Happening) → IsOpenAmid before a h →
        r.geometry ≡ a.member.array.geometry → IsIn r Done (HasSlot live) start h →
        ((j : ℕ) → IsLiveIn a.member j → IsAttached h j → HasSlot live j
        × ((¬ WasPulled start h j)
        × IsLargeEnough a.member.array.geometry (slot_state h j).size)) →
        ((rebuild : Rebuild) → a.rebuild ≡ Some rebuild → IsAttached h rebuild.slot →
        (¬ WasPulled start h rebuild.slot)
        × IsRebuiltTo a.member.array.geometry r.new rebuild.slot rebuild.stripe start h) →
        IsOpenWith before a r.new h }
    // as it is where all of the redo was beside the epochs.
    ensures redone { (r : Redoing) (before : List Happening) (a : ArrayState) (live : Slots)
        (old new : List Happening) → IsOpenWith before a r.old old → IsBegun None a.member old →
        r.geometry ≡ a.member.array.geometry → Ran (IsBesideEpochs a.member) old new →
        NothingReturned before new → (¬ IsTrue (stopped new)) →
        IsIn r Done (HasSlot live) old new →
        ((j : ℕ) → IsLiveIn a.member j → IsAttached new j → HasSlot live j) →
        ((rebuild : Rebuild) → a.rebuild ≡ Some rebuild → IsAttached new rebuild.slot →
        IsRebuiltTo a.member.array.geometry r.new rebuild.slot rebuild.stripe old new) →
        IsOpenWith before a r.new new × IsBegun None a.member new }
    // Once an epoch stands that the session was ready for the record is that of the new epoch.
    ensures established { (aim : EpochChange) (gone : Slots) (before : List Happening)
        (a b : ArrayState) (words : Codewords) (old new : List Happening) →
        IsOpenWith before a words old → IsReadyFor aim a.member words old →
        ((j : ℕ) → admitted aim ≡ Some j → IsHeld before old j) →
        HasStood aim gone a.member b.member old new → (¬ IsTrue (stopped new)) →
        KeepsRebuilds a b → IsOpenWith before b words new × IsBegun None b.member new }
    // So it is after a fence by the member that some slots left, as those that were gone to a call,
    ensures fenced { (leaving gone : Slots) (before : List Happening) (a b : ArrayState)
        (start : Membership) (words : Codewords) (old new : List Happening) →
        IsOpenWith before a words old → NothingReturned before old →
        Leaves leaving a.member start → HasStood Fence gone start b.member old new →
        (¬ IsTrue (stopped new)) → KeepsRebuilds a b →
        IsOpenWith before b words new × IsBegun None b.member new }
    // and so is what lasts in the midst of a redo.
    ensures fenced_amid { (leaving gone : Slots) (before : List Happening) (a b : ArrayState)
        (start : Membership) (old new : List Happening) → IsOpenAmid before a old →
        NothingReturned before old → Leaves leaving a.member start →
        HasStood Fence gone start b.member old new → (¬ IsTrue (stopped new)) →
        KeepsRebuilds a b → IsOpenAmid before b new × IsBegun None b.member new }
    // A fence by the member that some slots left, each of which was offline if it took part, is one by the member that it was,
    // where these slots were gone too: so what is said of every moment of a fence is so of this one.
    ensures left { (leaving gone all : Slots) (before : List Happening)
        (m start last : Membership) (old h new : List Happening) → Leaves leaving m start →
        ((j : ℕ) → HasSlot gone j ⊎ HasSlot leaving j → HasSlot all j) → IsBegun None m old →
        ((j : ℕ) → HasSlot leaving j → IsHere m j → IsOfflineUntilAttached before old j) →
        IsFencing Fence gone start last old h new → IsFencing Fence all m last old h new }
    // An epoch that was established on an honest rack, by a call that began so, stands.
    ensures stood { (aim : EpochChange) (m last : Membership) (old new : RackState)
        (does : Establishes aim m last None old new) → IsTrue new.honest →
        IsBegun (admitted aim) m old.history → NothingReturned old.history new.history →
        ((slot : ℕ) → aim ≡ Promote slot → IsHere m slot) →
        HasStood aim does.gone m last old.history new.history }
    // By both, the record is led on where slots of the array that were gone are left out on an honest rack,
    ensures fences_gone { (leaving : Slots) (before : List Happening) (a : ArrayState)
        (words : Codewords) (old : RackState) (y : Snapshot) → IsOpenWith before a words old.history →
        IsBegun None a.member old.history → FencesGone leaving None (snapshot a.member old) y →
        IsTrue y.told.honest →
        ((j : ℕ) → HasSlot leaving j → j < a.member.array.geometry.n) →
        NothingReturned before y.told.history →
        (¬ IsTrue (stopped y.told.history)) →
        IsOpenWith before (led_to a y.member) words y.told.history
        × IsBegun None y.member y.told.history }
    // and what lasts in the midst of a redo.
    ensures fences_gone_amid { (leaving : Slots) (before : List Happening) (a : ArrayState)
        (old : RackState) (y : Snapshot) → IsOpenAmid before a old.history →
        IsBegun None a.member old.history → FencesGone leaving None (snapshot a.member old) y →
        IsTrue y.told.honest →
        ((j : ℕ) → HasSlot leaving j → j < a.member.array.geometry.n) →
        NothingReturned before y.told.history →
        (¬ IsTrue (stopped y.told.history)) →
        IsOpenAmid before (led_to a y.member) y.told.history
        × IsBegun None y.member y.told.history }
    // A phase of a redo is beside the epochs, where it is on no slot that is rebuilt, or places cells; and beside the chunks
    // of a slot that it isn't on.
    ensures phase { (r : Redoing) (m : Membership) (stage : Stage) (to gone : Slots)
        (old new : List Happening) → IsRedoing r →
        ((j : ℕ) → HasSlot to j → why_of m j ≡ Rebuilding → stage ≡ Placing) →
        Placed (writes_in r stage) (HasSlot to) (HasSlot gone) old new →
        Ran (IsBesideEpochs m) old new }
    ensures spares { (what : Writes) (to gone : Slots) (old new : List Happening)
        (g : Geometry) (j next : ℕ) → Placed what (HasSlot to) (HasSlot gone) old new →
        (¬ HasSlot to j) → Ran (IsBesideChunks g j next) old new }
    // So what lasts in the midst of a redo is led on by a stage of it.
    ensures stage { (r : Redoing) (before : List Happening) (a : ArrayState) (stage : Stage)
        (to : Slots) (old : RackState) (y : Snapshot) → IsRedoing r → IsOpenAmid before a old.history →
        IsBegun None a.member old.history → IsOver stage a.member to →
        DoesStage (stage_writes r.geometry r.redo (r.new r.redo.stripe) stage) to None
        (snapshot a.member old) y → IsTrue y.told.honest →
        NothingReturned before y.told.history →
        (¬ IsTrue (stopped y.told.history)) →
        IsOpenAmid before (led_to a y.member) y.told.history
        × IsBegun None y.member y.told.history }
    // A redo begins at rest on the live slots that are attached;
    ensures redo_begins { (r : Redoing) (before : List Happening) (a : ArrayState)
        (h : List Happening) → IsOpenWith before a r.old h →
        r.geometry ≡ a.member.array.geometry → IsAmidRedo r before a AtRest h h }
    // in each stage of it the rack represents the state, with its change in doubt;
    ensures redo_represents { (r : Redoing) (before : List Happening) (a : ArrayState)
        (stage : Stage) (start h : List Happening) (content : Content) (doubt : Option Change) →
        IsRedoing r → IsAmidRedo r before a stage start h → NothingReturned before h →
        IsBegun None a.member h →
        AreEncodingsOf a.member.array.geometry content.blocks (old_in r stage) →
        AreEncodingsOf a.member.array.geometry (changed_if doubt content).blocks
        (new_in r stage) →
        a.member.array.frozen ≡ content.frozen → a.member.array.label ≡ content.label →
        IsTolerated a.member.array.geometry before h →
        Represents (state_with a.member content doubt a.member.array) h }
    // it goes from stage to stage, with the slots that were gone left out and a rebuild as far as it was,
    ensures redo_goes { (r : Redoing) (before : List Happening) (a : ArrayState) (stage : Stage)
        (to : Slots) (start : List Happening) (old : RackState) (y : Snapshot) → IsRedoing r →
        IsAmidRedo r before a stage start old.history → IsBegun None a.member old.history →
        IsOver stage a.member to →
        DoesStage (stage_writes r.geometry r.redo (r.new r.redo.stripe) stage) to None
        (snapshot a.member old) y → IsTrue y.told.honest →
        NothingReturned before y.told.history →
        (¬ IsTrue (stopped y.told.history)) →
        IsAmidRedo r before (led_to a y.member) (next stage) start y.told.history
        × IsBegun None y.member y.told.history }
    // and is done with the new stripes.
    ensures redo_ends { (r : Redoing) (before : List Happening) (a : ArrayState)
        (start h : List Happening) → IsAmidRedo r before a Done start h →
        IsOpenWith before a r.new h }
    // On the slots in use it is under way, so that what is said of each moment of such a redo is so of it.
    ensures redo_under_way { (r : Redoing) (before : List Happening) (a : ArrayState)
        (stage : Stage) (start h : List Happening) → IsAmidRedo r before a stage start h →
        NothingReturned before h → (¬ IsTrue (stopped h)) → IsBegun None a.member h →
        IsUnderWay r stage start a.member h }
    // The calls that establish an epoch are apart from a redo, and beside the chunks that were rebuilt.
    ensures issues { (aim : EpochChange) (gone live : Slots) (m last : Membership)
        (old new : List Happening) (g : Geometry) (j next : ℕ) →
        Issued aim gone m last old new → Ran (IsApart (HasSlot live)) old new
        × Ran (IsBesideChunks g j next) old new }
    // A rebuild is kept where its slot is one that is rebuilt still,
    ensures keeps { (a : ArrayState) (last : Membership) → IsArray a →
        last.array.geometry ≡ a.member.array.geometry → KeepsRebuilds a (led_to a last) }
    // and the record is one with another rebuild, or one that has come further, by what is so of its slot.
    ensures rebuilds { (before : List Happening) (a b : ArrayState) (words : Codewords)
        (h : List Happening) → IsOpenWith before a words h → b.member ≡ a.member →
        ((rebuild : Rebuild) → b.rebuild ≡ Some rebuild → IsRebuiltIn a.member rebuild.slot
        × ((rebuild.stripe ≤ a.member.array.geometry.stripes)
        × (IsAttached h rebuild.slot →
        IsRebuiltTo a.member.array.geometry words rebuild.slot rebuild.stripe h h))) →
        IsOpenWith before b words h }
    // It stays so once the member looked at a slot that doesn't take part.
    ensures sees { (before : List Happening) (a : ArrayState) (slot : ℕ)
        (first second : Option Superblock) (seen : Membership) (words : Codewords)
        (h : List Happening) → IsOpenWith before a words h → IsBegun None a.member h →
        Sees slot first second a.member seen → IsMembership seen → (¬ IsHere a.member slot) →
        IsOpenWith before (record a { member = seen }) words h × IsBegun None seen h }
{}
