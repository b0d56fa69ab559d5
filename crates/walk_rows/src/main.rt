//! Rows of a copy's walk, step by step: what comes next, written by hand from the rules.
#![tactic(auto)]

mod opened;
mod walks;

use row_tables::call_rows;
use std::io;
use walks::WalkCalls;

fn main(rt: HostRuntime) -> io::Result<()> {
    call_rows(&rt, &mut WalkCalls::new(rt.alloc()), "walks.txt")
}
