//! Rows of values of the lowest layers: sizes and runs of units, fits, weights, and the words of space maps. Each table is
//! a file of `data/`, and each of their public calls stands in one of them, with memory enough.
#![tactic(auto)]

mod entries;
mod maps;
mod space;
mod weights;

use entries::EntryCalls;
use maps::MapCalls;
use row_tables::call_rows;
use space::SpaceCalls;
use std::io;
use weights::WeightCalls;

fn main(rt: HostRuntime) -> io::Result<()> {
    call_rows(&rt, &mut SpaceCalls::new(rt.alloc()), "space.txt")?;
    call_rows(&rt, &mut WeightCalls, "weights.txt")?;
    call_rows(&rt, &mut EntryCalls, "entries.txt")?;
    call_rows(&rt, &mut MapCalls::new(rt.alloc()), "maps.txt")
}
