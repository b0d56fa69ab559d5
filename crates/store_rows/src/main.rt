//! Rows of bytes of the pool device: the bytes of the first run, tables and heads with each field at its first wrong
//! value, and images of which one byte was changed. The rows are files of `data/`, made by another program.
#![tactic(auto)]

mod changed;
mod first;
mod heads;
mod tables;

use std::io;

fn main(rt: HostRuntime) -> io::Result<()> {
    first::compare(&rt)?;
    tables::compare(&rt)?;
    heads::compare(&rt)?;
    changed::count(&rt)
}
