//! Laws of a call that executes the program of the words, and of the answers for an input.

ghost use Rattle.std.specs.Prelude.{ℕ, ◌↔◌, List};
ghost use Rattle.stair_model.specs.Geometry.{Geometry};
ghost use Rattle.stair_command.specs.Answer.{IsAnswer};
ghost use Rattle.stair_engine.specs.Laws.{
  AllIsComplete,
  AllIsCompleteWithReinsertion,
  AllIsKept,
  ArrayIsLeft,
  ArrayIsMade,
  ArrayIsMended,
  ArraysAreSpared,
  BytesAreAnswered,
  ClientsAreAnswered,
  DifferAtErased,
  DrawsAreBounded,
  GuardsHalt,
  MemoryComesFirst,
  PlanIsDone,
  RackIsLeft,
  ReplacementIsDone,
  ScriptIsDone,
  ScrubsAreCounted,
  SessionIsMended,
  ShowOnlyLooks,
  SourceIsLeft,
  UsageIsExact,
  WholeBlocksStand,
  WordsAreDone,
  VolumesAreChanged,
  VolumesAreReadAlike,
};
ghost use Rattle.stair_command.specs.Outside.{views};
ghost use Rattle.stair_status.specs.declared.status.Status.{Status};
ghost use Rattle.stair_conf.specs.declared.job.StripeCommand.TheVariants.{Restore};

use stair_rack::{Sink, Source};

/// States what follows from a call that executes the program of the words. It does nothing.
pub fn program_laws<R, W, S: Source, K: Sink>()
    // the words spell no job exactly where the answer is Usage, if there was memory
    ensures usage { UsageIsExact S K }
    // `plan 4 1 2 1` is done, if there was memory and the sink counts no fault: no other status can answer every call
    ensures constant { PlanIsDone S K }
    // of a command on one stripe: limits, cause, what is taken, that the end is looked for, what is put out, and the
    // steps, by the status
    ensures done { WordsAreDone (views S.Source K.Sink) }
    // of such a command, with a source that reports its bytes, without faults and with enough memory: the status and
    // the output for these bytes
    ensures answers { BytesAreAnswered (views S.Source K.Sink) }
    // a fault comes only if its count rose, no count falls, and when nothing is written to the output
    ensures kept { AllIsKept S K }
    // a command on one stripe makes no call on the devices, and what it refuses before the input leaves all
    ensures left { RackIsLeft R W S K }
    // `show` makes no call on the source, and changes no sector of an honest rack
    ensures looks { ShowOnlyLooks R W S K }
    // what takes no input makes no call on the source
    ensures untaken { SourceIsLeft S K }
    // if no step of `write` was refused, the whole blocks that came are written, and no others
    ensures written { WholeBlocksStand S K }
    // every command but those that make or open an array leaves one as it was
    ensures stands { ArrayIsLeft R W S K }
    // when out of memory no device was written
    ensures memory { MemoryComesFirst R W S K }
    // what `create` made
    ensures created { ArrayIsMade R W S K }
    // `create` writes over no array that is within tolerance
    ensures spared { ArraysAreSpared R W S K }
    // a job is done where it can be, if there was memory
    ensures complete { AllIsComplete R W S K }
    // the same along the trace of its call, whether media are reinserted or not
    ensures complete_with_reinsertion { AllIsCompleteWithReinsertion R W S K }
    // a replacement by any medium is done, if its slot is Down and the medium is fit as that step begins
    ensures replaced { ReplacementIsDone R W S K }
    // a script is done, if each of its lines can be; a guarded one may be halted
    ensures scripted { ScriptIsDone R W S K }
    // `guard` is halted exactly where a watcher left
    ensures halted { GuardsHalt R W S K }
    // `serve` answers a client by steps that are done
    ensures answered { ClientsAreAnswered R W S K }
    // a command on volumes changes what it is to change, and nothing else
    ensures changed { VolumesAreChanged R W S K }
    // a read of a volume writes only the bytes of the volume: two arrays that hold the same volume are read alike
    ensures alike { VolumesAreReadAlike R W S K }
    // how far the draws of superblocks rise in a call
    ensures bounded { DrawsAreBounded R W S K }
    // what a scrub, a replacement and a rebuild leave good
    ensures mended { ArrayIsMended R W S K }
    // what they leave good as the session knows its slots, whatever the rack was before
    ensures ended { SessionIsMended R W S K }
    // the number that a scrub reports is that of the cells that could not be read, on a rack that is left alone
    ensures counted { ScrubsAreCounted R W S K }
{}

/// States that the bytes in place of an erased cell make no difference. It does nothing.
pub fn restore_laws()
    // two inputs with the same map, whose cells differ only at erased cells
    ensures erased_bytes { (g : Geometry) (a b : List ℕ) → DifferAtErased g a b →
        (status : Status) (output : List ℕ)
        → IsAnswer Restore g a status output ↔ IsAnswer Restore g b status output }
{}
