//! Rows of what a run prints: commands, each with what was answered and the line that is wanted, and what was counted at the
//! end with the totals that are wanted. Written by hand from the formats. Each text is handed to a sink that takes all, and,
//! for each of its fronts, to one that takes a few bytes at a call and fails behind that front.
#![tactic(auto)]

mod replies;
mod running;
mod short_sink;
mod totals;

use running::run_rows;
use std::io;

fn main(rt: HostRuntime) -> io::Result<()> {
    run_rows(&rt)
}
