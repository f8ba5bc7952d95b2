//! The laws of runs: a call is a run of the machine, and a crash cuts it safely.

ghost use Rattle.stair_command.specs.Headline.{
  AcknowledgedAreTaken,
  AllRefinePrograms,
  CallsAreRuns,
  CallsAreRunsWherever,
  CreatesAreRefused,
  PerformedLeads,
  TracesAreCutSafely,
  TracesAreRuns,
  TracesLead,
};
ghost use Rattle.stair_invariant.specs.Returning.{Returning};

/// What follows of every trace whose steps lead on. It does nothing.
pub fn run_laws<R, W, S, K>()
    // no step that was acknowledged is missing from a run
    ensures acknowledged { AcknowledgedAreTaken }
    // where all that is performed leads on every trace does
    ensures led { TracesLead R W }
    // from a session's beginning a trace is a run of the machine
    ensures runs { TracesAreRuns R W }
    // a crash cuts it within a step or between two
    ensures cuts { TracesAreCutSafely R W }
    // no array is made over one that is within tolerance, also where media come back
    ensures refused { CreatesAreRefused }
    // what a call means gives both, where no medium comes back
    ensures refines { CallsAreRuns R W S K }
    // and so it does where media come back
    ensures wherever { CallsAreRunsWherever R W S K }
    // all that is performed leads on, whether media come back or not
    ensures performed { (returning : Returning) → PerformedLeads returning }
    // so every call is borne out
    ensures called { AllRefinePrograms R W S K }
{}
