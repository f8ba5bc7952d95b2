//! What a write of blocks does to an array, where no medium comes back.

ghost use Rattle.std.specs.Prelude.{◌≡◌, ◌<◌, ℕ, IsTrue, List, Some, Err, false};
ghost use Rattle.stair_model.specs.Geometry.{block_count};
ghost use Rattle.stair_rack.specs.Crash.{EachImage};
ghost use Rattle.stair_rack.specs.History.{Happening};
ghost use Rattle.stair_rack.specs.Offline.{IsOffline};
ghost use Rattle.stair_rack.specs.Stretch.{NothingReturned};
ghost use Rattle.stair_rack.specs.declared.watcher.Event.{Event};
ghost use Rattle.stair_super.specs.declared.mark.Mark.TheVariants.{Live};
ghost use Rattle.stair_member.specs.Seats.{Seats};
ghost use Rattle.stair_state.specs.State.{State};
ghost use Rattle.stair_invariant.specs.CutOff.{IsStillThere};
ghost use Rattle.stair_invariant.specs.Returning.{StaysWithinTolerance, NoneReturns};
ghost use Rattle.stair_array.specs.Machine.{Answer, EpochsSpent, IsFinal, Refusal, WriteBlocks};
ghost use Rattle.stair_array.specs.Promise.{IsInState, LeadsStep, Performs, Seen, is_open};
ghost use Rattle.stair_array.specs.Writes.{IsCutOffIn};

/// What a write of blocks leads to. It does nothing.
pub fn write_laws()
    // What is promised of a step is so of it: it is one of the machine, refused or not, what a crash leaves at a moment of it is
    // what one within the step leaves, and it is done where it can be.
    ensures promise { (first : ℕ) (contents : List (List ℕ))
        (answer : Answer (WriteBlocks first contents)) (events : List Event) (x y : Seen)
        (p : Performs (WriteBlocks first contents) answer events x y) →
        LeadsStep NoneReturns p.was.member (WriteBlocks first contents) answer x y }
    // Within tolerance no blocks of an array that isn't frozen are refused, unless no epoch is left: what couldn't be read of
    // their stripe is covered, and enough slots are left.
    ensures refused { (first : ℕ) (contents : List (List ℕ))
        (answer : Answer (WriteBlocks first contents)) (events : List Event) (refusal : Refusal)
        (x y : Seen) (p : Performs (WriteBlocks first contents) answer events x y) →
        IsTrue y.told.honest → (before : List Happening) (s : State) →
        IsInState NoneReturns before s x →
        StaysWithinTolerance NoneReturns s.geometry (is_open x.session) before y.told.history →
        first < block_count s.geometry → s.content.frozen ≡ false → answer ≡ Err refusal →
        refusal ≡ EpochsSpent }
    // Where more slots were cut off than is tolerated, one that is refused for good leaves the state as it was, with the blocks set
    // or in doubt, seats aside, as long as a slot that was live serves with a whole journal, and no other array stands. Each image
    // has the seats that the array had, or those that are left where slots were dropped.
    ensures cut_off { (first : ℕ) (contents : List (List ℕ)) (refusal : Refusal)
        (events : List Event) (x y : Seen)
        (p : Performs (WriteBlocks first contents) (Err refusal) events x y) → IsFinal refusal →
        IsTrue y.told.honest → (before : List Happening) (s : State) (seats : Seats) →
        IsInState NoneReturns before s x → s.seats ≡ Some seats →
        NothingReturned before y.told.history →
        EachImage (IsStillThere (IsOffline before y.told.history) s.geometry
        (λ j. (seats j).mark ≡ Live)) y.told.history →
        IsCutOffIn first contents s seats y.told.history }
{}
