//! Laws of what reads of volumes give, over a life.

ghost use Rattle.stair_volume_lives.specs.Lives.{LivesAreExplained, MadeIsZero, ReadsAgree, ReadsAreLast, WrittenIsRead};
ghost use Rattle.stair_volume_lives.specs.CallLives.{CallsAreLived, ProgramsWriteNone};
ghost use Rattle.stair_volume_lives.specs.Example.{EachIsReadAgain, EitherIsLived};

/// States what holds for each volume after any list of commands on an array, each whole or cut. It does nothing.
pub fn volume_lives()
    // one list of fates, given once for all, explains every byte of every read of a volume, and what the array holds of it
    ensures explained { LivesAreExplained }
    // each byte of a read is that of the last command that was done and writes it, or of one that was begun later
    ensures last { ReadsAreLast }
    // a write that was done is read until the byte is changed
    ensures written { WrittenIsRead }
    // a volume that was made reads as zeros until it is changed
    ensures made { MadeIsZero }
    // two reads give the same if nothing changed the byte between them: a write that was cut is settled once
    ensures settled { ReadsAgree }
{}

/// States what calls of the program do to the volumes of an array, each whole or cut by a crash. It does nothing.
pub fn volume_calls<R, W, S, K>()
    // commands on volumes, and calls that write no block of the volume or of the table, are one life of this volume,
    // which explains each `vread` of it that was done
    ensures lived { CallsAreLived R W S K }
    // a call whose program has no write of a block leaves it
    ensures unwritten { ProgramsWriteNone }
{}

/// States an example: a volume of two blocks, a write of both that a crash cuts, and reads after it. It does nothing.
pub fn volume_example()
    // the read finds the write made, or not made
    ensures either { EitherIsLived }
    // a second read gives the same
    ensures again { EachIsReadAgain }
{}
