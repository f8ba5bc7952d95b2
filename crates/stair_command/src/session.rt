//! The laws of a session within a call, on any rack, honest or not.

ghost use Rattle.stair_command.specs.Drawn.{DrawsAreFew, DrawsAreWithin, SpentAtTheEnd};
ghost use Rattle.stair_command.specs.Kept.{NoneIsGivenUp, NoneIsLeftOut};
ghost use Rattle.stair_command.specs.LeftOut.{LiveSlotsAreLeftOutByNone};
ghost use Rattle.stair_command.specs.Living.{LiveSlotsAreKept, LiveSlotsStay};
ghost use Rattle.stair_command.specs.Rebuilt.{ChunksInOrder, RunsAreWhole};

/// What follows over a trace of steps of one array, whatever the rack is. It does nothing.
pub fn session_laws<R, W>()
    // a slot of an open array goes Down only where a step found it gone
    ensures kept { NoneIsGivenUp R W }
    // and at the opening only where it didn't take part as the array was found
    ensures opened { NoneIsLeftOut R W }
    // on an honest rack that is an array in a state, within tolerance and where no medium comes back: a slot that is live to an open
    // array and stays whole is live in the end
    ensures stays { LiveSlotsStay R W }
    // and so is one that was live before anything was written, and stays whole in the whole session
    ensures live { LiveSlotsAreKept R W }
    // and whatever comes of the call, its opening refused or its array stopped, no epoch that it begins leaves such a slot out
    ensures left_out { LiveSlotsAreLeftOutByNone R W }
    // the chunks of a rebuild come in order, and a promotion with the last of them
    ensures rebuilt { ChunksInOrder R W }
    // so a chunk comes after all that are below it, and a promotion after all but the last
    ensures whole { RunsAreWhole R W }
    // the greatest draw rises by no more than the weights of the slots and the steps allow
    ensures drawn { DrawsAreFew R W }
    // which in plain numbers is 64 and an allowance for each step
    ensures within { DrawsAreWithin R W }
    // no step is refused for want of epochs before nearly all numbers were drawn
    ensures spent { SpentAtTheEnd }
{}
