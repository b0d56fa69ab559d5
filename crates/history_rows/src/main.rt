//! Rows of histories: which journals of a metaslab are legal, and the text of journals. A trace of `data/` is read into
//! journals, which are written again.
#![tactic(auto)]

mod histories;
mod lines;
mod reading;
mod traces;

use histories::HistoryCalls;
use row_tables::call_rows;
use std::io;
use traces::TraceCalls;

fn main(rt: HostRuntime) -> io::Result<()> {
    call_rows(&rt, &mut HistoryCalls, "histories.txt")?;
    call_rows(&rt, &mut TraceCalls::new(&rt), "traces.txt")
}
