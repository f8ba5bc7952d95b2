//! The first fence of an opening: it begins with what a survey found, whose epoch need not stand.

ghost use Rattle.std.specs.Prelude.{◌≡◌, ◌<◌, ℕ, IsTrue, List, Some};
ghost use Rattle.stair_model.specs.Slots.{Slots, HasSlot};
ghost use Rattle.stair_rack.specs.Crash.{CrashMayLeave};
ghost use Rattle.stair_rack.specs.History.{Happening, stopped};
ghost use Rattle.stair_rack.specs.Media.{Image};
ghost use Rattle.stair_member.specs.Fencing.{IsFencing};
ghost use Rattle.stair_member.specs.Membership.{Membership, why_of};
ghost use Rattle.stair_member.specs.declared.aim.EpochChange.TheVariants.{Fence};
ghost use Rattle.stair_member.specs.declared.why.Why.TheVariants.{Here};
ghost use Rattle.stair_state.specs.Forms.{HasGate, RepresentsBy};
ghost use Rattle.stair_state.specs.Represents.{RepresentsAlone};
ghost use Rattle.stair_state.specs.State.{State};
ghost use Rattle.stair_state.specs.Tolerance.{IsToleratedAlone};
ghost use Rattle.stair_invariant.specs.Opening.{IsFoundFor};
ghost use Rattle.stair_invariant.specs.Session.{seats_in};

/// What a crash leaves at each moment of the first fence after a survey. It does nothing.
pub fn first_fence_laws()
    // Slots that are live to the member have one form in it, tolerated or not, from the stripes before a change in doubt to
    // those after it.
    ensures form { (s : State) (m last : Membership) (before old mid h new : List Happening)
        (gone live : Slots) (image : Image) →
        (found : IsFoundFor s m before old mid) → IsFencing Fence gone m last mid h new →
        CrashMayLeave h image →
        ((j : ℕ) → HasSlot live j → (j < m.array.geometry.n) × (why_of m j ≡ Here)) →
        HasGate (HasSlot live) image →
        RepresentsBy s.geometry found.represents.encodings.old found.represents.encodings.new
        (HasSlot live) image }
    // Where it is within tolerance it represents the state that the rack represented when the survey began, with the seats of
    // its own current superblock, and the change in doubt as it was.
    ensures stands { (s : State) (m last : Membership) (before old mid h new : List Happening)
        (gone : Slots) (image : Image) → IsFoundFor s m before old mid →
        IsFencing Fence gone m last mid h new → ¬ IsTrue (stopped h) → CrashMayLeave h image →
        (tolerated : IsToleratedAlone m.array.geometry image) →
        RepresentsAlone (record s { seats = Some (seats_in tolerated.current.array) }) image }
{}
