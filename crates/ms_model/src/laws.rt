//! Laws of the definitions: each function does nothing, and its contract is the law.

ghost use Rattle.ms_model.specs.Laws.{GrantsOverlapNothing, StatesAreApart, TotalsAddUp, BeginningsAreLegal, GroupsAddUp, FreesWait};
ghost use Rattle.ms_model.specs.Places.{PartsAreOfRights, GatePartsAreOfRights, LaneNotesAreItsSteps, GateNotesAreItsSteps, KeeperNotesAreItsSteps, SettlingsAreKeepersSteps, PlacesNeverFall, GatePlacesNeverFall, PlacesAreWithin, GatePlacesAreWithin, OpenGroupCountsClosings, OpenGroupNeverFalls, OpenGroupIsWithin};

/// In a legal history no unit of a grant, or of a segment that a worker takes, is live, deferred, or held by a group that
/// may still be opened.
pub fn grants_overlap_nothing()
    ensures { GrantsOverlapNothing }
{}

/// Each unit is exactly one of live, deferred and vacant.
pub fn states_are_apart()
    ensures { StatesAreApart }
{}

/// So the three totals add up to the metaslab's units.
pub fn totals_add_up()
    ensures { TotalsAddUp }
{}

/// What stands before a note of a legal history is a legal history.
pub fn beginnings_are_legal()
    ensures { BeginningsAreLegal }
{}

/// What a group holds is what the one before it held, with what it gained and without what it gave back.
pub fn groups_add_up()
    ensures { GroupsAddUp }
{}

/// What was freed in a group waits until the second settle after the group's own, and is vacant from then on.
pub fn frees_wait()
    ensures { FreesWait }
{}

/// The notes that need a lane's number as their right are the lane's part of a journal, and those that need the right 0
/// are the keeper's part, where each note has a lane.
pub fn parts_are_of_rights()
    ensures metaslab { PartsAreOfRights }
    ensures gate { GatePartsAreOfRights }
{}

/// A lane's notes in a journal are those of its steps, in order.
pub fn lane_notes_are_its_steps()
    ensures metaslab { LaneNotesAreItsSteps }
    ensures gate { GateNotesAreItsSteps }
{}

/// The keeper's notes are those of its steps, in order, whichever lanes asked for them.
pub fn keeper_notes_are_its_steps()
    ensures metaslab { KeeperNotesAreItsSteps }
    ensures gate { SettlingsAreKeepersSteps }
{}

/// A later step of a lane stands at a later place, after the earlier step's note.
pub fn places_never_fall()
    ensures metaslab { PlacesNeverFall }
    ensures gate { GatePlacesNeverFall }
{}

/// The place of a step is a beginning of the journal that holds all of the lane's earlier notes and none of the later.
pub fn places_are_within()
    ensures metaslab { PlacesAreWithin }
    ensures gate { GatePlacesAreWithin }
{}

/// The open group is one above the opened one, and rises by one with each closing.
pub fn open_group_counts_closings()
    ensures { OpenGroupCountsClosings }
{}

/// From one place of a lane to a later one the open group never falls, and it is above each group that the lane closed
/// between.
pub fn open_group_never_falls()
    ensures between { OpenGroupNeverFalls }
    ensures within { OpenGroupIsWithin }
{}
