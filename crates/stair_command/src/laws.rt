//! The laws of all calls, whatever their programs are.

ghost use Rattle.stair_command.specs.Laws.{
  FaultsAreTold,
  MemoryIsAskedFirst,
  MemoryIsAskedUnwritten,
  NothingIsPutOut,
  OthersNeverCome,
  RacksAreLeft,
  RacksAreLookedAt,
  RacksSuffice,
  SourcesAreLeft,
  WatchersAreTold,
};

/// What follows of every call that means its program, by a predicate on the program. It does nothing.
pub fn trace_laws<R, W, S, K>()
    // a fault comes only where its count rose, and no count falls
    ensures faults { FaultsAreTold S K }
    // a program that puts out last puts out nothing of what isn't done
    ensures unput { NothingIsPutOut S K }
    // no status comes that is no fault, no lack of memory, and none of the plan's own
    ensures others { OthersNeverCome S K }
    // a program that takes nothing leaves the source, which can't fail it
    ensures untaken { SourcesAreLeft S K }
    // a program that makes no call leaves the rack
    ensures still { RacksAreLeft R S K }
    // where memory was short no call was made, if it is asked for before anything is done to an array
    ensures memory { MemoryIsAskedFirst R S K }
    // a program that only looks at an honest rack changes no sector of it
    ensures looks { RacksAreLookedAt R S K }
    // where memory was short nothing was written, if it is asked for before an array is made or a step is taken
    ensures unwritten { MemoryIsAskedUnwritten R W S K }
    // all watchers were told the events of a call's steps, in order
    ensures watched { WatchersAreTold R W S K }
    // of a program that takes no step all holds that holds over a rack alone
    ensures rack { RacksSuffice R W S K }
{}
