//! A turn: a lock round one value whose journal grows by at most one note a turn, and which several threads take in
//! turn.
//!
//! To the layer above: the value that `try_take` and `take` lend begins with all notes that the caller's pass had
//! seen (`seen`), and stands for the fixed part that it stood for when the turn was made (`stands`). Each note needs
//! a right, 0 for the keeper or the number of a lane up to 16; a right is with one pass at a time, and that pass has
//! among its own all notes of the journal that need it, each once and in order, whatever other lanes did meanwhile
//! (`whole`). At the end `close` says so of the closed journal (`seen`), and that each of its notes needs one of these
//! rights (`rights`).
//!
//! `give` appends at most one note, and needs the note's right. `try_take` answers none exactly where it found the
//! lock taken (`some`, `none`), and `close` gives turn and pass back only where it did (`err`). `split` hands a right
//! over, and the first pass has it no longer (`kept`, `given`).
//!
//! Nothing is promised of waiting, fairness or time: not that a try succeeds, nor that `take` returns. No contract
//! says that threads meet and end. A run of today has one lane, and does without.
#![tactic(auto)]

mod held;
mod kept;
mod law;
mod pass;
mod plays;
mod turn;
mod view;

pub use held::Held;
pub use kept::{Kept, MAX_RIGHT};
pub use pass::Pass;
pub use turn::Turn;
