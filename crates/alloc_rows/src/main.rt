//! Rows of blocks, call by call: what a pool of a few metaslabs grants and takes back, what it refuses and why, and what its
//! journals have at the end. Written by hand from the rules. With a word of any kind it measures what an alloc costs instead.
#![tactic(auto)]

mod asked;
mod bench;
mod blocks;
mod journals;
mod loading;
mod meanwhile;
mod pool;
mod texts;

use bench::measure;
use blocks::BlockCalls;
use row_tables::call_rows;
use std::{env, io};

fn main(rt: HostRuntime) -> io::Result<()> {
    if env::args(&rt)?.count() > 1 {
        return measure(&rt);
    }
    let mut calls = BlockCalls::new(&rt, rt.alloc());
    call_rows(&rt, &mut calls, "blocks.txt")
}
