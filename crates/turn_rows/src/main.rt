//! Threads that share a turn, passes that find it taken, and the gate by itself and under a turn. What is printed is the
//! same whatever the schedule.
#![tactic(auto)]

mod gates;
mod lanes;

use std::io;

/// Prints whether something was seen.
fn print_seen(rt: &impl Print, what: &str, seen: bool) -> io::Result<()> {
    println!(rt; "{what}: {}", if seen { "seen" } else { "not seen" })
}

fn main(rt: HostRuntime) -> io::Result<()> {
    let alloc = rt.alloc();
    print_seen(
        &rt,
        "four lanes keep their order, each whole",
        lanes::keep_their_order(&rt, alloc),
    )?;
    print_seen(
        &rt,
        "a held turn is busy, and another is not",
        lanes::are_busy_while_held(&rt, alloc),
    )?;
    print_seen(&rt, "the third closing waits", gates::third_waits(alloc))?;
    print_seen(
        &rt,
        "a held group is not quiesced",
        gates::held_is_not_quiesced(alloc),
    )?;
    print_seen(
        &rt,
        "a gate stands under a turn",
        gates::stands_under_a_turn(alloc),
    )
}
