//! The laws of completeness: a command whose program is sure is done.

ghost use Rattle.stair_command.specs.Served.{PlannedAreServed};
ghost use Rattle.stair_command.specs.Sure.{
  DevicesCanReplace,
  NoneIsReplaced,
  PlannedSureIsDone,
  ServesAlongAny,
  StayingAreKept,
  SteplessSureIsDone,
  SureIsDone,
  ToleratedStaysWithinTolerance,
};

/// What follows of every call whose program is sure to end with Done. It does nothing.
pub fn sure_laws<R, W, S, K>()
    // where no medium comes back and failures are within tolerance at every moment, they are so along every trace
    ensures calm { ToleratedStaysWithinTolerance R W }
    // on an array within tolerance it is done, where nothing of the outside is in its way, whether media come back or not
    ensures done { SureIsDone R W S K }
    // a slot is kept that is never offline, and whose medium is large enough
    ensures kept { StayingAreKept R W }
    // an array that serves throughout, while no medium comes back, serves along every trace
    ensures serves { ServesAlongAny R W }
    // where it draws few numbers nothing is asked of its trace but that each slot which is to be replaced can be
    ensures planned { PlannedSureIsDone R W S K }
    // and none is where it admits no medium
    ensures unreplaced { NoneIsReplaced R W S K }
    // and one can be where its slot takes no part in the array, and has a device throughout the call that is large enough and of no other one
    ensures replaceable { DevicesCanReplace R W S K }
    // on an array that serves along its trace a survey finds it, and each step that passes its tests is done, of any program that draws few numbers
    ensures served { PlannedAreServed R W S K }
    // over a rack alone nothing is asked of steps
    ensures stepless { SteplessSureIsDone R S K }
{}
