//! What a read of a block does to an array, where no medium comes back.

ghost use Rattle.std.specs.Prelude.{◌≡◌, ◌<◌, ℕ, IsTrue, List, Err};
ghost use Rattle.stair_model.specs.Geometry.{block_count};
ghost use Rattle.stair_rack.specs.History.{Happening};
ghost use Rattle.stair_rack.specs.declared.watcher.Event.{Event};
ghost use Rattle.stair_state.specs.State.{State};
ghost use Rattle.stair_invariant.specs.Returning.{StaysWithinTolerance, NoneReturns};
ghost use Rattle.stair_array.specs.Machine.{Answer, EpochsSpent, ReadBlock, Refusal};
ghost use Rattle.stair_array.specs.Promise.{IsInState, LeadsStep, Performs, Seen, is_open};

/// What a read of a block leads to. It does nothing.
pub fn read_laws()
    // What is promised of a step is so of it: it is one of the machine, refused or not, what a crash leaves at a moment of it is
    // what one within the step leaves, and it is done where it can be.
    ensures promise { (b : ℕ) (answer : Answer (ReadBlock b)) (events : List Event) (x y : Seen)
        (p : Performs (ReadBlock b) answer events x y) →
        LeadsStep NoneReturns p.was.member (ReadBlock b) answer x y }
    // Within tolerance no block of the array is refused, unless no epoch is left: what couldn't be read of its stripe is covered,
    // and enough slots are left.
    ensures refused { (b : ℕ) (answer : Answer (ReadBlock b)) (events : List Event)
        (refusal : Refusal) (x y : Seen) (p : Performs (ReadBlock b) answer events x y) →
        IsTrue y.told.honest → (before : List Happening) (s : State) →
        IsInState NoneReturns before s x →
        StaysWithinTolerance NoneReturns s.geometry (is_open x.session) before y.told.history →
        b < block_count s.geometry → answer ≡ Err refusal → refusal ≡ EpochsSpent }
{}
