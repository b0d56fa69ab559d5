//! Laws of the closed journals: each function does nothing, and its contract is the law.
//!
//! That each journal is a legal one of its class is a clause of `close_classes`, and what follows of it stands among the
//! laws of `class_model`. The laws here carry over what a holder did: its calls answer journeys, which join; its passes come
//! back; and then the journals have just these journeys, whatever other holders did meanwhile.

ghost use Rattle.class_group.specs.Laws.{NoJourney, JourneysJoin, StepsJoin, StaysSeated, OwnNotesGrow, FreshAreSeated, SeatedAreIdle, RestsAreIdle, HaveThemselves, HaveAllAlong, JournalsHaveEachJourney, NotesAreOfHolders, JournalsGoOn, NotesAreSteps, StepsStand, PlacesNeverFall};

/// Two journeys of a holder, one after the other, are one, with the steps of both in order; and a holder stays the one that
/// it was.
pub fn journeys_join()
    ensures none { NoJourney }
    ensures both { JourneysJoin }
    ensures steps { StepsJoin }
    ensures seated { StaysSeated }
{}

/// A holder knows its own notes: what it has seen has those that it had seen before, and then those of its steps.
pub fn holders_know_their_notes()
    ensures { OwnNotesGrow }
{}

/// Passes come back: those of a holder, as those of the rest, may be joined, and what was joined once is kept by each later
/// joining.
pub fn passes_come_back()
    ensures fresh { FreshAreSeated }
    ensures seated { SeatedAreIdle }
    ensures rests { RestsAreIdle }
    ensures whole { HaveThemselves }
    ensures along { HaveAllAlong }
{}

/// The closed journals have of each holder just the steps of its journeys, once and in order.
pub fn journals_have_each_journey()
    ensures { JournalsHaveEachJourney }
{}

/// Each note is of a lane that was given passes.
pub fn notes_are_of_holders()
    ensures { NotesAreOfHolders }
{}

/// Each journal begins with whatever any holder had seen of it.
pub fn journals_go_on()
    ensures { JournalsGoOn }
{}

/// A lane's notes in each journal are those of its steps there, in order.
pub fn notes_are_steps()
    ensures { NotesAreSteps }
{}

/// The journal that a step found begins the closed one, and the step's note comes next.
pub fn steps_stand()
    ensures { StepsStand }
{}

/// Places never fall along a holder.
pub fn places_never_fall()
    ensures { PlacesNeverFall }
{}
