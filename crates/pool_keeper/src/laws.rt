//! Laws of the definitions: each function does nothing, and its contract is the law.

ghost use Rattle.pool_keeper.specs.Laws.{HeldStays, RemembersAtEnd};

/// What a collected group holds stays however the journal grows.
pub fn held_stays()
    ensures { HeldStays }
{}

/// So what a stop left of a run is told by the closed journals, which every holder's journal begins.
pub fn remembers_at_end()
    ensures { RemembersAtEnd }
{}
