//! Rows of reports: pools that are made here, and devices that another program made, with the report of each that this other
//! program counted.
//!
//! A line of `rows.txt` is `make SPEC REPORT` or `image IMAGE AT REPORT`. SPEC has vdevs `CLASS:ASHIFT:UNITS:METASLABS`,
//! joined by commas; AT is a group or `newest`; REPORT is the file of the text that is wanted. IMAGE is a file of lines
//! `PLACE: DIGITS`, the bytes from a place on in hexadecimal digits, and then `length LENGTH`; all else is zeros. Each row is
//! printed twice, and leaves the device as it was. Of a pool that is made, each write and each flush of the sink fails in
//! turn then, and each call of the device.
#![tactic(auto)]

mod failing;
mod images;
mod layouts;
mod rows;

use rows::run_rows;
use std::io;

fn main(rt: HostRuntime) -> io::Result<()> {
    run_rows(&rt)
}
