//! Laws of the closed journals: each function does nothing, and its contract is the law.
//!
//! That each journal is legal, and that each of its notes needs a right of 0 to 16 and is of a lane from 1 to 16, is a clause
//! of `close_cells`. What a list of steps says of one journal stands among the laws of `ms_model`. The laws here carry both
//! over to what a holder did in all cells: its calls answer journeys, which join; its passes come back; and then the journals
//! have just these journeys, whatever other holders did meanwhile.

ghost use Rattle.ms_cell.specs.Laws.{NoJourney, JourneysJoin, StepsJoin, StaysSeated, OwnNotesGrow, KeeperKnowsGroups, KeeperKnowsGate, FreshAreSeated, SeatedAreIdle, RestsAreIdle, HaveThemselves, HaveAllAlong, JournalsHaveEachJourney, NotesAreOfHolders, JournalsGoOn, LanePartsAreSteps, KeeperPartsAreSteps, StepsStand, GateStepsStand, PlacesNeverFall, GatePlacesNeverFall, HoldsAreWithin, HoldsNeverFall, SettlesStand, GateSettlesStand};

/// Two journeys of a holder, one after the other, are one, with the steps of both in order; and a holder stays the one that
/// it was.
pub fn journeys_join()
    ensures none { NoJourney }
    ensures both { JourneysJoin }
    ensures steps { StepsJoin }
    ensures seated { StaysSeated }
{}

/// A holder knows its own notes: what it has seen has those that it had seen before, and then those of its steps. So the keeper
/// knows which groups are collected and settled, whatever lanes did meanwhile.
pub fn holders_know_their_notes()
    ensures own { OwnNotesGrow }
    ensures groups { KeeperKnowsGroups }
    ensures gate { KeeperKnowsGate }
{}

/// Passes come back: those of a holder, as those of the rest, may be joined, and what was joined once is kept by each later
/// joining.
pub fn passes_come_back()
    ensures fresh { FreshAreSeated }
    ensures seated { SeatedAreIdle }
    ensures rests { RestsAreIdle }
    ensures whole { HaveThemselves }
    ensures along { HaveAllAlong }
{}

/// The closed journals have of each holder just the steps of its journeys, once and in order.
pub fn journals_have_each_journey()
    ensures { JournalsHaveEachJourney }
{}

/// Each note is of a lane that was given passes, or of the keeper.
pub fn notes_are_of_holders()
    ensures { NotesAreOfHolders }
{}

/// Each journal begins with whatever any holder had seen of it.
pub fn journals_go_on()
    ensures { JournalsGoOn }
{}

/// A holder's part of each journal is what its steps noted there, in order.
pub fn parts_are_steps()
    ensures lanes { LanePartsAreSteps }
    ensures keeper { KeeperPartsAreSteps }
{}

/// The journal that a step found begins the closed one, and the step's note comes next.
pub fn steps_stand()
    ensures metaslab { StepsStand }
    ensures gate { GateStepsStand }
{}

/// Places never fall along a holder.
pub fn places_never_fall()
    ensures metaslab { PlacesNeverFall }
    ensures gate { GatePlacesNeverFall }
{}

/// The group of a hold is the first open one and one more for each closing of the run before it, and never falls along a
/// holder.
pub fn holds_rise()
    ensures within { HoldsAreWithin }
    ensures between { HoldsNeverFall }
{}

/// What the keeper settled stays settled in each journal.
pub fn settles_stand()
    ensures metaslab { SettlesStand }
    ensures gate { GateSettlesStand }
{}
