//! A slot's own superblock in a session, and what it says of all its media.

ghost use Rattle.std.specs.Prelude.{◌≡◌, ◌-◌, ◌<◌, ◌≤◌, ◌⊎◌, ℕ, IsTrue, List, None};
ghost use Rattle.stair_model.specs.Geometry.{Geometry};
ghost use Rattle.stair_model.specs.Slots.{HasSlot, Slots};
ghost use Rattle.stair_rack.specs.Answers.{IsHistory, Ran, any_call};
ghost use Rattle.stair_rack.specs.Crash.{EachImage};
ghost use Rattle.stair_rack.specs.History.{Happening, slot_state, stopped};
ghost use Rattle.stair_rack.specs.Offline.{IsAttached, IsHeld, WasPulled};
ghost use Rattle.stair_rack.specs.Sector.{content, damaged};
ghost use Rattle.stair_rack.specs.Stretch.{NothingReturned};
ghost use Rattle.stair_rack.specs.RackState.{RackState};
ghost use Rattle.stair_super.specs.Superblock.{Superblock};
ghost use Rattle.stair_member.specs.Aims.{admitted};
ghost use Rattle.stair_member.specs.Current.{IsCurrent, IsLive};
ghost use Rattle.stair_member.specs.Epochs.{Issued, Stands, StandsOnDisk};
ghost use Rattle.stair_member.specs.Fencing.{HasStood, IsBegun};
ghost use Rattle.stair_member.specs.Membership.{IsHere, IsMembership, Membership, place_of};
ghost use Rattle.stair_member.specs.Superblocks.{HoldsSuper};
ghost use Rattle.stair_member.specs.declared.aim.EpochChange.{EpochChange};
ghost use Rattle.stair_state.specs.Blocks.{Codewords};
ghost use Rattle.stair_state.specs.Redoing.{AttachesNone};
ghost use Rattle.stair_state.specs.Represents.{IsLargeEnough};
ghost use Rattle.stair_state.specs.Tolerance.{IsTolerated};
ghost use Rattle.stair_invariant.specs.Changing.{IsAttachedOrBare};
ghost use Rattle.stair_invariant.specs.Effects.{FencesGone, Snapshot, snapshot};
ghost use Rattle.stair_invariant.specs.InSession.{HaveReached, IsBehindPlaces, IsInSession, TakesPart};
ghost use Rattle.stair_invariant.specs.Leading.{IsOpenAmid};
ghost use Rattle.stair_invariant.specs.Session.{ArrayState, HasOwn, IsLiveIn, IsOpenWith};

/// What a session knows of slots by their own superblocks. It does nothing.
pub fn own_laws()
    // where nothing came back a held slot is attached to its medium, or bare; of a rack that is stopped nothing is said, since
    // there a slot that was never attached is held too
    ensures bare { (before h : List Happening) (j : ℕ) → Ran any_call before h →
        NothingReturned before h → IsHeld before h j →
        IsTrue (stopped h) ⊎ IsAttachedOrBare h j }
    // a rack that is within tolerance at the moment goes on
    ensures goes_on { (g : Geometry) (before h : List Happening) → IsTolerated g before h →
        ¬ IsTrue (stopped h) }
    // on one that goes on all slots but m have the epoch of an open array
    ensures reached { (before : List Happening) (a : ArrayState) (words : Codewords)
        (h : List Happening) → IsOpenWith before a words h → NothingReturned before h →
        (¬ IsTrue (stopped h)) → EachImage (HaveReached a.member) h }
    // and it is in session, where its member knows the media
    ensures in_session { (before : List Happening) (a : ArrayState) (words : Codewords)
        (h : List Happening) → IsOpenWith before a words h → NothingReturned before h →
        (¬ IsTrue (stopped h)) → IsBegun None a.member h → IsInSession a.member words h }
    // a slot has its own superblock as long as its medium isn't pulled, through calls that write no superblock place and
    // whatever the outside does
    ensures own_kept { (m : Membership) (h new : List Happening) (j : ℕ) → IsMembership m →
        j < m.array.geometry.n → IsHistory h → IsAttached h j → HasOwn m h j →
        Ran IsBehindPlaces h new → (¬ WasPulled h new j) → HasOwn m new j }
    // so does each attached one that takes part, where besides they attach none of these
    ensures own_beside { (m : Membership) (h new : List Happening) → IsMembership m →
        IsHistory h → ((j : ℕ) → IsHere m j → IsAttached h j → HasOwn m h j) →
        Ran (λ i call. IsBehindPlaces i call × AttachesNone (IsHere m) i call) h new →
        (j : ℕ) → IsHere m j → IsAttached new j → HasOwn m new j }
    // and it holds no draw that wasn't seen, in either place
    ensures own_drawn { (m : Membership) (h : List Happening) (j k : ℕ) (s : Superblock) →
        IsMembership m → IsHere m j → HasOwn m h j → k < 2 →
        HoldsSuper (content ((slot_state h j).sector k)) s → s.draw ≤ m.drawn }
    // so whichever media come back, once an epoch stands: a slot that takes part then has its own superblock of it, where it
    // held no draw at first that wasn't seen
    ensures own_given { (aim : EpochChange) (gone : Slots) (m last : Membership)
        (old new : List Happening) → IsHistory old → Issued aim gone m last old new →
        Stands m last → IsMembership last → StandsOnDisk (admitted aim) last old new →
        (j : ℕ) → IsHere last j → IsAttached new j →
        (IsAttached old j → (k : ℕ) (s : Superblock) → k < 2 →
        HoldsSuper (content ((slot_state old j).sector k)) s → s.draw ≤ m.drawn) →
        HasOwn last new j }
    // each slot that takes part then, where none came back
    ensures own_stood { (aim : EpochChange) (gone : Slots) (m last : Membership)
        (old new : List Happening) → HasStood aim gone m last old new →
        (j : ℕ) → IsHere last j → IsAttached new j → HasOwn last new j }
    // In the midst of a redo too it takes part by that in whatever a crash leaves, however many other slots are lost: all that
    // is current names the member's epoch,
    ensures current { (before : List Happening) (a : ArrayState) (h : List Happening) (j : ℕ) →
        IsOpenAmid before a h → IsBegun None a.member h → IsHere a.member j → IsAttached h j →
        ¬ ((slot_state h j).sector (1 - place_of a.member j) ≡ damaged) →
        EachImage (λ image. (current : Superblock) →
        IsCurrent a.member.array.geometry image current → current.array ≡ a.member.array) h }
    // and gives the slot the mark of the member's reason,
    ensures takes_part { (before : List Happening) (a : ArrayState) (h : List Happening)
        (j : ℕ) → IsOpenAmid before a h → IsBegun None a.member h → IsHere a.member j →
        IsAttached h j → ¬ ((slot_state h j).sector (1 - place_of a.member j) ≡ damaged) →
        EachImage (TakesPart a.member j) h }
    // so that one that is live to the member is live in each image.
    ensures live { (before : List Happening) (a : ArrayState) (h : List Happening) (j : ℕ) →
        IsOpenAmid before a h → IsBegun None a.member h → IsLiveIn a.member j → IsAttached h j →
        ¬ ((slot_state h j).sector (1 - place_of a.member j) ≡ damaged) →
        EachImage (λ image. (current : Superblock) →
        IsCurrent a.member.array.geometry image current →
        IsLive a.member.array.geometry image current j) h }
    // And it stays live to the member where slots are left out, while it is attached and isn't one of them.
    ensures stays_live { (leaving : Slots) (before : List Happening) (a : ArrayState)
        (old : RackState) (y : Snapshot) (j : ℕ) → IsOpenAmid before a old.history →
        FencesGone leaving None (snapshot a.member old) y → IsTrue y.told.honest →
        ¬ IsTrue (stopped y.told.history) → IsLiveIn a.member j → (IsAttached old.history j →
        IsLargeEnough a.member.array.geometry (slot_state old.history j).size) →
        ¬ HasSlot leaving j → IsAttached y.told.history j → IsLiveIn y.member j }
{}
