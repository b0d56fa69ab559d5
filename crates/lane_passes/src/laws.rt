//! Laws of the definitions: each function does nothing, and its contract is the law.

ghost use Rattle.lane_passes.specs.Laws.{NoJourney, JourneysJoin, StaysSeated, GroundsStay, EventsJoin};

use seg_trees::SegTrees;

/// Two journeys of a lane, one after the other, are one, with the events of both in order. A lane stays the one that it was,
/// and the ground on which it stands stays too.
pub fn journeys_join<R: SegTrees>()
    ensures none { NoJourney R }
    ensures both { JourneysJoin R }
    ensures events { EventsJoin }
    ensures seated { StaysSeated R }
    ensures ground { GroundsStay R }
{}
