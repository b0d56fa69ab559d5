//! Rows of a class, call by call: a table by hand, and random notes with the answers of an independent replay, which
//! `tools/make-class-rows` makes; and lanes on the classes of a pool under turns.
#![tactic(auto)]

mod classes;
mod lanes;
mod opened;
mod pool;

use classes::ClassCalls;
use row_tables::call_rows;
use std::io;

/// Prints whether something was seen.
fn print_seen(rt: &impl Print, what: &str, seen: Option<bool>) -> io::Result<()> {
    let word = if seen == Some(true) {
        "seen"
    } else {
        "not seen"
    };
    println!(rt; "{what}: {word}")
}

fn main(rt: HostRuntime) -> io::Result<()> {
    let alloc = rt.alloc();
    call_rows(&rt, &mut ClassCalls::new(alloc), "classes.txt")?;
    call_rows(&rt, &mut ClassCalls::new(alloc), "random.txt")?;
    let first = lanes::note_the_first_trace(&rt, alloc);
    print_seen(&rt, "the notes of the first trace", first)?;
    let missed = lanes::miss_and_tell(&rt, alloc);
    print_seen(&rt, "a miss makes way for the next one", missed)?;
    let four = lanes::four_get_one_each(&rt, alloc);
    print_seen(&rt, "four lanes get one metaslab each", four)
}
