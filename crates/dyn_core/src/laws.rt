ghost use Rattle.dyn_core.specs.Laws.{RunsByCases, StarlessRunsAlike, RunsKeepKinds};

/// A law of the definitions: the runs of a program by cases on its form, once under a bound on the
/// turns of each iteration and once without. A sequence has the chains of runs of its parts in order,
/// a choice the runs of its branches, an iteration the chains of runs of its body, of as many turns as
/// are allowed.
pub fn runs_by_cases()
    ensures { RunsByCases }
{}

/// A law of the definitions: a program without iterations has the same runs under every bound.
pub fn starless_runs_alike()
    ensures { StarlessRunsAlike }
{}

/// A law of the definitions: over a well unit, a run of a program whose kinds fit leads from a state
/// that has the kinds to one that has them, and each object of the first heap is in the last one, with
/// its number and its class.
pub fn runs_keep_kinds()
    ensures { RunsKeepKinds }
{}
