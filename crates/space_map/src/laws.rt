//! Laws of the definitions: each function does nothing, and its contract is the law.

ghost use Rattle.space_map.specs.Laws.{RunsAreCertain, FaultsAreCertain, RunsShowNoFault, ReplayIsOfTheRuns, NoneIsHeldAtFirst, LastRunDecides, LastBatchDecides, CondensedHoldsTheRest};

/// What words hold is certain: they give one list of runs or have one first fault, and never both.
pub fn reading_is_certain()
    ensures runs { RunsAreCertain }
    ensures faults { FaultsAreCertain }
    ensures apart { RunsShowNoFault }
{}

/// What words say of a unit is what the runs say that `decode` answers.
pub fn replay_is_of_the_runs()
    ensures { ReplayIsOfTheRuns }
{}

/// The last run that covers a unit decides whether it is held.
pub fn last_run_decides()
    ensures none { NoneIsHeldAtFirst }
    ensures run { LastRunDecides }
    ensures batch { LastBatchDecides }
{}

/// A side that is written anew, from the free runs of its metaslab, holds the rest.
pub fn condensed_holds_the_rest()
    ensures { CondensedHoldsTheRest }
{}
