//! What the replacement of a slot does to an array, where no medium comes back.

ghost use Rattle.std.specs.Prelude.{ℕ, List};
ghost use Rattle.stair_rack.specs.declared.watcher.Event.{Event};
ghost use Rattle.stair_invariant.specs.Returning.{NoneReturns};
ghost use Rattle.stair_array.specs.Machine.{Answer, ReplaceSlot};
ghost use Rattle.stair_array.specs.Promise.{LeadsStep, Performs, Seen};

/// What the replacement of a slot leads to. It does nothing.
pub fn replace_laws()
    // What is promised of a step is so of it: it is one of the machine, refused or not, what a crash leaves at a moment of it is
    // what one within the step leaves, and it is done where it can be.
    ensures promise { (slot : ℕ) (answer : Answer (ReplaceSlot slot)) (events : List Event)
        (x y : Seen) (p : Performs (ReplaceSlot slot) answer events x y) →
        LeadsStep NoneReturns p.was.member (ReplaceSlot slot) answer x y }
{}
