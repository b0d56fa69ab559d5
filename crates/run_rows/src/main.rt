//! Rows of whole runs over devices in memory, where a call may be made to fail and a stop be taken; and of the words that
//! a run begins with.
//!
//! A row of `data/runs` is a folder. Its calls stand in folders `1`, `2` and so on, and are made in turn over one pool
//! device, which has the bytes of the row's file `device` before, or none. A file of a device's bytes has lines
//! `PLACE: DIGITS`, the bytes from a place on in hexadecimal digits, and then `length LENGTH`; all else is zeros.
//!
//! A call has these files, and one that is missing is empty:
//!
//! - `words`, of the command line, and `commands`, what it reads;
//! - `printed`, `traced`, `told` (on standard error) and `status`, which are wanted;
//! - `left`, the device's bytes afterwards; none: as before the call;
//! - `failing`, which call fails. Lines `source N`, `sink N` and `trace N` name it by its number, from 0. `disk PLACE` is
//!   the call that changes the device first at a place `FLUSHES.WRITES`: behind so many flushes, and so many writes since
//!   the last of them. `disk read N` and `disk flush N` are a read and a flush of the device. Where no such call is made,
//!   none fails. `each sink N` and `each trace N` make each write fail in turn, of which there are at least so many: each
//!   is told and not tried again, and what was written is a beginning of the text. `each disk N PLACE` makes each call of
//!   the device fail, but no read that is as long as the read right before it: nothing is printed and traced before the
//!   place, at which the lanes begin, and `printed_failed` and `traced_failed` behind it; a stop then leaves what `stops`
//!   says of the place of the call;
//! - `stops`, lines `PLACE HOW GROUP -> FOUND`: what a run without commands finds at a group, or at `newest`, on the device
//!   as a stop at the place leaves it, or one at the `end` of the call, where `old`, `new`, `zeros` or `ones` stand in
//!   place of what was not flushed. Where no call fails, each place to which the device comes has a line.
//!
//! The bytes are made by another program, from the formats alone.
#![tactic(auto)]

mod calls;
mod device;
mod failing;
mod faults;
mod folders;
mod forms;
mod images;
mod report;
mod rows;
mod stops;
mod tables;

use row_tables::call_rows;
use rows::run_all;
use std::io;
use tables::{FormCalls, TextCalls};

fn main(rt: HostRuntime) -> io::Result<()> {
    call_rows(&rt, &mut TextCalls, "words.txt")?;
    call_rows(&rt, &mut FormCalls, "forms.txt")?;
    run_all(&rt, "runs")
}
