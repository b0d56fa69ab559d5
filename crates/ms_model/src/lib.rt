//! The model: what the journals of a pool hold, and which of them are legal.
//!
//! A journal is a plain list of notes. Everything that the allocator may rest on is a definition over it, each a look
//! at one unit or at one note and those before it: the last act on a unit (`specs/Units.antt`), the groups that are
//! settled and collected, whether a unit is held, live, deferred or vacant, where the look for space goes on
//! (`specs/Cursors.antt`), which note may follow (`specs/Legal.antt`), and how a lane's actions lie in a journal
//! (`specs/Steps.antt`). No tree or run list of the code appears in them, and no field that it keeps. Workers and
//! unloading are in the legal history already, though no call makes them.
//!
//! The laws that say that these definitions mean what they should are the contracts of the functions in `laws`: what
//! was freed in a group is deferred until the second settle after the group's own, and vacant from then on
//! (`frees_wait`); no unit of a grant is live, deferred, or held by a group from which the pool may still be opened
//! (`grants_overlap_nothing`); live, deferred and vacant partition the units; and how a lane's steps lie in a
//! journal.
//!
//! `legal` answers none exactly for a legal history (`legal`, `complete`), and else the place of the first note that
//! may not follow those before it (`first`), by a table of its own of what was last done to each unit. It shares no
//! code with the metaslab, so anyone can run it over a journal. It costs the units of the metaslab for each grant,
//! miss and worker's segment, which is told and not proved.
#![tactic(auto)]

mod checking;
mod journals;
pub mod laws;
mod looking;
mod notes;

pub use checking::legal;
pub use journals::{ClassJournal, Journals, MsJournal};
pub use notes::{
    Act, ClassNote, DeviceNote, Did, GateNote, Got, KeeperNote, Kind, Noted, Start, WorkKind,
};
