//! A sync of three groups over devices of which each call fails in turn.
use crate::failing::fail_in_turn;
use std::io;
use std::sync::Wait;
use std::thread::Threads;

pub fn print_runs<R: Print + AllocGlobal + Threads + Wait + Sync>(rt: &R) -> io::Result<()> {
    let failed = fail_in_turn(rt, rt.alloc(), 21)?;
    let seen = if failed { "seen" } else { "not seen" };
    println!(rt; "each call of a sync of three groups fails in turn: {seen}")
}
