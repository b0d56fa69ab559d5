//! The allocation classes of a pool under turns, for lanes that run at once: which metaslab a lane looks at next, after
//! OpenZFS's `metaslab_class_t` with its rotor and its active metaslabs.
//!
//! To the layers above: each call takes one turn at one class, makes one call there and gives the turn back, with one
//! note, or with none after want of memory. Its clause says which step the lane took, at which journal (`before`), with
//! which note, and that it took none at any other class; and what it answers is what the rules of `class_model` say of
//! that journal (`specs/Journey.antt`, `specs/Answers.antt`). So it holds whatever other lanes did meanwhile. `begin`
//! notes nothing: its vdev was the rotor's at a journal between what the holder had seen and what it has seen.
//!
//! `make_classes` makes the four classes of a layout. `next_classes` splits the passes of one right off the rest,
//! `join_classes` puts passes together, and `tell_class` hands on what one holder has seen. `close_classes` ends every
//! turn and gives the four journals, which are legal, and says of which rights each has all notes (`specs/Closed.antt`).
//! What the closed journals say of each holder is in `laws`. Who looks at the metaslab that was picked is not its part.
#![tactic(auto)]

mod acts;
mod classes;
mod closing;
mod lanes;
pub mod laws;
mod making;
mod opening;
mod turns;

pub use classes::{ClassPasses, Classes};
pub use closing::close_classes;
pub use lanes::{begin, granted, missed, pick, weigh};
pub use making::{join_classes, next_classes, tell_class};
pub use opening::make_classes;
