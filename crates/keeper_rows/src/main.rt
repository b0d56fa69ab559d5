//! Rows of a pool whose groups become durable while its lanes run.
#![tactic(auto)]

mod checks;
mod device;
mod failing;
mod faults;
mod lane;
mod opening;
mod pool;
mod probe;
mod rows;
mod runs;
mod script;
mod seats;
mod session;
mod texts;
mod working;

use rows::play_rows;
use runs::print_runs;
use std::io;

fn main(rt: HostRuntime) -> io::Result<()> {
    play_rows(&rt, "syncs.txt")?;
    print_runs(&rt)
}
