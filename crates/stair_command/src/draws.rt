//! The laws of draws: how great they become in an image.

ghost use Rattle.stair_command.specs.Bounded.{
  CallsAreBounded,
  EpochsAreBounded,
  StepsAreBounded,
  TracesAreBounded,
  TracesAreWithin,
};
ghost use Rattle.stair_command.specs.Living.{CallsAreOfArray};

/// What follows of draws at every moment of a call. It does nothing.
pub fn draw_laws<R, W>()
    // while an epoch is established none becomes greater than the member's at last
    ensures epochs { EpochsAreBounded }
    // nor in a step on an honest rack
    ensures steps { StepsAreBounded }
    // over a trace none becomes greater than the slots' weights and the steps' allowances let it
    ensures bounded { TracesAreBounded R W }
    // nor than plain numbers let it
    ensures within { TracesAreWithin R W }
    // and so it is over a whole call, of what was borne at its entry
    ensures calls { CallsAreBounded R W }
    // a call on an array that stands within tolerance is of this array
    ensures alone { CallsAreOfArray R W }
{}
