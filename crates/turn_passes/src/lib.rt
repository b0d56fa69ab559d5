//! The passes of lanes, over one turn and over lists of turns: how a new turn's rights are handed out, how passes come
//! back together, and how a turn is closed at the end. It knows no kept type.
//!
//! To the layer above: `next_pass` splits the lowest right off the rest (`fresh`, `rest`), so one call for each lane, in
//! order, gives each lane its pass, and the rest, which nobody notes with, can close the turn whatever became of the
//! lanes. `join_pass` keeps what both had (`joined`), `tell_pass` hands on what one has seen and no right (`went`,
//! `knows`). `close_turn` gives the value, with all notes of the pass's rights among those that the pass has (`ends`).
//! `next_passes`, `join_passes` and `close_turns` do the same for a list of turns, place by place.
#![tactic(auto)]

mod lists;
mod single;

pub use lists::{close_turns, join_passes, next_passes};
pub use single::{close_turn, join_pass, new_turn, next_pass, tell_pass};
