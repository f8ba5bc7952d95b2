//! What a look at the seats of an array does, where no medium comes back.

ghost use Rattle.std.specs.Prelude.{List};
ghost use Rattle.stair_rack.specs.declared.watcher.Event.{Event};
ghost use Rattle.stair_invariant.specs.Returning.{NoneReturns};
ghost use Rattle.stair_array.specs.Machine.{Answer, LookAtSeats};
ghost use Rattle.stair_array.specs.Promise.{LeadsStep, Performs, Seen};

/// What a look at the seats leads to. It does nothing.
pub fn look_laws()
    // What is promised of a step is so of it: the seats that it answers are the array's, and nothing is changed.
    ensures promise { (answer : Answer LookAtSeats) (events : List Event) (x y : Seen)
        (p : Performs LookAtSeats answer events x y) →
        LeadsStep NoneReturns p.was.member LookAtSeats answer x y }
{}
