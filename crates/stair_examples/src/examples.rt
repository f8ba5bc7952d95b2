//! Laws by example: for each definition what meets it, and what does not.

ghost use Rattle.stair_examples.specs.Arrays.{
  ExamplesOfEncodes,
  ExamplesOfStaysWithinTolerance,
  ExamplesOfIsConsistentUnderReassembly,
  ExamplesOfIsWithinTolerance,
  ExamplesOfRepresents,
};
ghost use Rattle.stair_examples.specs.Calls.{
  ExamplesOfGoes,
  ExamplesOfRefinesProgram,
  ExamplesOfIsRun,
  ExamplesOfIsSafe,
  ExamplesOfExecutes,
};
ghost use Rattle.stair_examples.specs.Copies.{ExamplesOfIsOlderCopy};
ghost use Rattle.stair_examples.specs.Devices.{ExamplesOfCrashMayLeave};
ghost use Rattle.stair_examples.specs.Histories.{ExamplesOfLives};
ghost use Rattle.stair_examples.specs.Journals.{
  ExamplesOfGate,
  ExamplesOfIsRedo,
  ExamplesOfMembership,
};
ghost use Rattle.stair_examples.specs.Stripes.{ExamplesOfIsCovered};

/// States examples of stripes and devices. It does nothing.
pub fn device_laws()
    // which erased cells the code restores
    ensures is_covered { ExamplesOfIsCovered }
    // what a crash may leave
    ensures crash_may_leave { ExamplesOfCrashMayLeave }
    // what is to be done again, and which gates say so
    ensures redo { ExamplesOfIsRedo }
    ensures gate { ExamplesOfGate }
    // what a session knows of an array
    ensures membership { ExamplesOfMembership }
{}

/// States examples of arrays. It does nothing.
pub fn array_laws()
    // an image that has the stripes
    ensures encodes { ExamplesOfEncodes }
    // what may fail, at a moment and in a session
    ensures is_within_tolerance { ExamplesOfIsWithinTolerance }
    ensures stays_within_tolerance { ExamplesOfStaysWithinTolerance }
    // a rack that is an array in a state, and one that stays an array however its media lie
    ensures represents { ExamplesOfRepresents }
    ensures is_consistent_under_reassembly { ExamplesOfIsConsistentUnderReassembly }
    // a device that was restored from a backup
    ensures is_older_copy { ExamplesOfIsOlderCopy }
{}

/// States examples of calls. It does nothing.
pub fn call_laws()
    // a trace that follows a program, and what source and sink must do by it
    ensures means { ExamplesOfExecutes }
    ensures refines_program { ExamplesOfRefinesProgram }
    // an item, a run, and a run that a crash cuts
    ensures goes { ExamplesOfGoes }
    ensures is_run { ExamplesOfIsRun }
    ensures is_safe { ExamplesOfIsSafe }
    // session after session
    ensures lives { ExamplesOfLives }
{}
