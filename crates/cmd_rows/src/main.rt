//! Command files, each with what is wanted of it, out of the file `rows`: prints how many there are, how many of them are
//! good, and how many are not read as is wanted. `tools/make-command-rows` makes the file, and says how it is laid out.
//! And texts by which vdevs are asked for, out of the table `vdevs.txt`, made by hand.
#![tactic(auto)]

mod answers;
mod rows;
mod vdevs;

use cmd_text::read_commands;
use row_tables::call_rows;
use std::alloc::Global;
use std::{fs, io};
use vdevs::VdevCalls;

/// How many rows there were.
#[derive(Drop)]
struct Counts {
    rows: u64,
    good: u64,
    other: u64,
}

/// Reads one row's text, and compares.
fn try_row(
    alloc: Global,
    rt: &HostRuntime,
    row: &rows::Row<'_>,
    counts: &mut Counts,
) -> io::Result<()> {
    let read = read_commands(alloc, &row.text);
    counts.good = counts.good.saturating_add(if read.is_ok() { 1 } else { 0 });
    let answer = answers::answer_of(alloc, &read, row.is_full)?;
    if answer.as_bytes() != row.wanted {
        counts.other = counts.other.saturating_add(1);
        let name = str::from_utf8(row.name).unwrap_or("?");
        println!(rt; "{name}: {answer}")?;
    }
    counts.rows = counts.rows.saturating_add(1);
    Ok(())
}

fn main(rt: HostRuntime) -> io::Result<()> {
    let bytes = fs::read(&rt, "rows")?;
    let mut counts = Counts {
        rows: 0,
        good: 0,
        other: 0,
    };
    let mut rest = bytes.as_slice();
    for _ in 0..1_000_000 {
        let Some((row, next)) = rows::next_row(rt.alloc(), rest)? else {
            break;
        };
        try_row(rt.alloc(), &rt, &row, &mut counts)?;
        rest = next;
    }
    let Counts { rows, good, other } = counts;
    println!(rt;
        "{rows} rows, {good} good, {other} other than wanted, {} bytes left",
        rest.len()
    )?;
    call_rows(&rt, &mut VdevCalls, "vdevs.txt")
}
