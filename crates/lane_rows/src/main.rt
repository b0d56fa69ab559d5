//! Rows of whole runs of lanes: the command file, and the replies and totals that are wanted. They are the worked rows of one
//! lane over one metaslab of 256 units, written by hand from the formats.
#![tactic(auto)]

mod opening;
mod rows;
mod running;
mod scripts;

use running::run_rows;
use std::io;

fn main(rt: HostRuntime) -> io::Result<()> {
    run_rows(&rt)
}
