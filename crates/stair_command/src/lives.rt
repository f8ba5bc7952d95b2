//! The laws of lives: what the reads of an array give, session after session.

ghost use Rattle.stair_command.specs.LifeExample.{IsExample};
ghost use Rattle.stair_command.specs.Lives.{
  AcknowledgedIsMade,
  AcknowledgedIsRead,
  ContentIsExplained,
  ReadsAgree,
  ReadsAreExplained,
  UnwrittenStays,
};
ghost use Rattle.stair_command.specs.Sessions.{CallsAreLived, CrashesAreLived, CutsAreOfProgram, RunsAreLived};

/// What follows of every life, whatever crashes, sessions and openings it has. It does nothing.
pub fn life_laws()
    // one list of fates explains every read
    ensures reads { ReadsAreExplained }
    // and what the array holds at the end, its frozen mark and its label too
    ensures content { ContentIsExplained }
    // a write, a frozen mark or a label that was acknowledged counts as made, whatever the fates
    ensures made { AcknowledgedIsMade }
    // a block that nobody wrote reads as it did at first
    ensures unwritten { UnwrittenStays }
    // a write that was acknowledged is read until the block is written again
    ensures acknowledged { AcknowledgedIsRead }
    // two reads of a block give the same where nobody wrote it between them, so that a doubt is settled once
    ensures settled { ReadsAgree }
    // a life of two writes, one cut and one refused for good, in all that may become of them
    ensures example { IsExample }
{}

/// What calls of the program have to do with lives. It does nothing.
pub fn session_lives<R, W, S, K>()
    // a run goes on with a life
    ensures runs { RunsAreLived }
    // and so does a session that a crash cut, with whatever that left
    ensures crashes { CrashesAreLived R W }
    // a step that was cut is one of the plan's, so a session without a write of a block is lived by none
    ensures of_program { CutsAreOfProgram R W }
    // calls one after the other, each whole or cut by a crash, are one life, and the rack is the array that it leads to
    ensures calls { CallsAreLived R W S K }
{}
