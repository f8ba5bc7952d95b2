//! What becomes of an array whose media come back while an epoch is established, and once it stands.

ghost use Rattle.std.specs.Prelude.{◌≡◌, ◌≢◌, ◌<◌, ℕ, IsTrue, List, None, Some};
ghost use Rattle.stair_model.specs.Geometry.{Geometry};
ghost use Rattle.stair_model.specs.Slots.{HasSlot, Slots};
ghost use Rattle.stair_rack.specs.Answers.{IsHistory, Ran};
ghost use Rattle.stair_rack.specs.Crash.{CrashMayLeave, EachImage};
ghost use Rattle.stair_rack.specs.History.{Happening, stopped};
ghost use Rattle.stair_rack.specs.Media.{Image};
ghost use Rattle.stair_rack.specs.Moments.{IsMoment};
ghost use Rattle.stair_rack.specs.Offline.{IsAttached};
ghost use Rattle.stair_rack.specs.RackState.{RackState};
ghost use Rattle.stair_member.specs.Aims.{admitted};
ghost use Rattle.stair_member.specs.Epochs.{Issued};
ghost use Rattle.stair_member.specs.Establishing.{Establishes, Leaves};
ghost use Rattle.stair_member.specs.Membership.{IsHere, IsMembership, Membership};
ghost use Rattle.stair_member.specs.declared.aim.EpochChange.{EpochChange};
ghost use Rattle.stair_member.specs.declared.aim.EpochChange.TheVariants.{Fence, Promote};
ghost use Rattle.stair_state.specs.Blocks.{AreEncodingsOf, Codewords};
ghost use Rattle.stair_state.specs.Holding.{CurrentMedia, IsConsistentBy};
ghost use Rattle.stair_state.specs.State.{State, new_content};
ghost use Rattle.stair_state.specs.Tolerance.{IsTolerated};
ghost use Rattle.stair_invariant.specs.Returning.{CoversMedia, HasOwnNewest, IsKnownWherever, KnowsMedia, current_media_of};
ghost use Rattle.stair_invariant.specs.Session.{ArrayState, IsOpenWith, seats_in};
ghost use Rattle.stair_reinsert.specs.Beginning.{AreCurrentMediaClosed, BeginsWherever, IsBesideMember, SaysContent, StandsWherever};
ghost use Rattle.stair_reinsert.specs.Given.{KnowsSuper};

/// A call that establishes an epoch, on a rack that is consistent however its media lie. It does nothing.
pub fn epoch_laws()
    // At each moment of it, whatever comes back meanwhile and whatever it answers, each image that a crash may leave is consistent
    // by the same holders, since the same epoch.
    ensures keeps { (s : State) (current_media : CurrentMedia) (since : ℕ) (aim : EpochChange) (gone : Slots)
        (m last : Membership) (old h new : List Happening) (image : Image)
        (begins : BeginsWherever s current_media since aim m old) → Issued aim gone m last old new →
        IsMoment old h new → CrashMayLeave h image →
        IsConsistentBy s begins.is.encodings current_media since image }
    // Once its epoch stands each is so since that one, by the live slots of the member.
    ensures stands { (s : State) (current_media : CurrentMedia) (since : ℕ) (aim : EpochChange) (gone : Slots)
        (m last : Membership) (old new : List Happening) (image : Image)
        (begins : BeginsWherever s current_media since aim m old) →
        StandsWherever aim gone m last old new → CrashMayLeave new image →
        IsConsistentBy s begins.is.encodings (current_media_of last) last.array.epoch image }
    // Then no medium bears a later epoch, and the member knows all media.
    ensures covers { (s : State) (current_media : CurrentMedia) (since : ℕ) (aim : EpochChange) (gone : Slots)
        (m last : Membership) (old new : List Happening) →
        BeginsWherever s current_media since aim m old → StandsWherever aim gone m last old new →
        CoversMedia s.geometry last.array.epoch new }
    ensures knows { (s : State) (current_media : CurrentMedia) (since : ℕ) (aim : EpochChange) (gone : Slots)
        (m last : Membership) (old new : List Happening) →
        BeginsWherever s current_media since aim m old → StandsWherever aim gone m last old new →
        EachImage (IsKnownWherever None last (IsAttached new)) new }
    // Within tolerance, where the gates of holders read closed, a session knows of all media what it is to know then.
    ensures goes_on { (s : State) (current_media : CurrentMedia) (since : ℕ) (aim : EpochChange) (gone : Slots)
        (m last : Membership) (before old new : List Happening) →
        BeginsWherever s current_media since aim m old → StandsWherever aim gone m last old new →
        AreCurrentMediaClosed s.geometry current_media m old → IsTolerated s.geometry before new →
        KnowsMedia (record s { seats = Some (seats_in last.array) }) last new }
    // Each slot that takes part and is attached has its own superblock, and nothing in its next place ties with that.
    ensures own { (s : State) (current_media : CurrentMedia) (since : ℕ) (aim : EpochChange) (gone : Slots)
        (m last : Membership) (old new : List Happening) (j : ℕ) →
        BeginsWherever s current_media since aim m old → StandsWherever aim gone m last old new →
        ¬ IsTrue (stopped new) → IsHere last j → IsAttached new j → HasOwnNewest last new j }
    // So stands an epoch that was established on an honest rack.
    ensures established { (aim : EpochChange) (m last : Membership) (old new : RackState)
        (establishes : Establishes aim m last None old new) → IsTrue new.honest →
        ((slot : ℕ) → aim ≡ Promote slot → IsHere m slot) →
        StandsWherever aim establishes.gone m last old.history new.history }
{}

/// What a session has when it establishes an epoch that neither admits nor promotes. It does nothing.
pub fn begin_laws()
    // what a slot's own superblock tells of what lies in its places, where the next one holds none but it that isn't older
    ensures own { (m : Membership) (h : List Happening) (j : ℕ) → IsHistory h →
        IsMembership m → IsHere m j → IsAttached h j → HasOwnNewest m h j → KnowsSuper m h j }
    // Between calls, within tolerance, where it knows of all media what it is to know, it has what such a call begins with.
    ensures begins { (s : State) (aim : EpochChange) (before : List Happening) (a : ArrayState)
        (words : Codewords) (h : List Happening) → IsHistory h → IsOpenWith before a words h →
        a.member.array.geometry ≡ s.geometry →
        AreEncodingsOf s.geometry s.content.blocks words →
        (new_content s).blocks ≡ s.content.blocks → admitted aim ≡ None →
        ((j : ℕ) → aim ≢ Promote j) → KnowsMedia s a.member h → IsTolerated s.geometry before h →
        SaysContent s aim a.member →
        BeginsWherever s (current_media_of a.member) a.member.array.epoch aim a.member h }
    // and the gates of holders read closed then.
    ensures closes { (s : State) (before : List Happening) (a : ArrayState) (words : Codewords)
        (h : List Happening) → IsHistory h → IsOpenWith before a words h →
        a.member.array.geometry ≡ s.geometry →
        AreEncodingsOf s.geometry s.content.blocks words →
        (new_content s).blocks ≡ s.content.blocks → KnowsMedia s a.member h →
        IsTolerated s.geometry before h →
        AreCurrentMediaClosed s.geometry (current_media_of a.member) a.member h }
    // A fence by the member that some slots left begins so where one by the member that it was does.
    ensures leaves { (s : State) (current_media : CurrentMedia) (since : ℕ) (leaving : Slots)
        (m start : Membership) (h : List Happening) → BeginsWherever s current_media since Fence m h →
        Leaves leaving m start → ((j : ℕ) → HasSlot leaving j → j < m.array.geometry.n) →
        BeginsWherever s current_media since Fence start h }
    ensures leaves_closed { (g : Geometry) (current_media : CurrentMedia) (leaving : Slots)
        (m start : Membership) (h : List Happening) → AreCurrentMediaClosed g current_media m h →
        Leaves leaving m start → AreCurrentMediaClosed g current_media start h }
    // What it knows of all media it knows still after calls that write nothing and attach no slot that takes part, whatever comes
    // back meanwhile, if that is within tolerance.
    ensures looked { (s : State) (m : Membership) (before old new : List Happening) →
        IsHistory old → m.array.geometry ≡ s.geometry → IsMembership m →
        Ran (IsBesideMember m) old new →
        KnowsMedia s m old → IsTolerated s.geometry before new →
        s.seats ≡ Some (seats_in m.array) → KnowsMedia s m new }
{}
