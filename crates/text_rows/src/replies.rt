//! Commands with their answers, each kind of either once at least.

use lane_run::Answer;
use std::alloc::{AllocError, Global};
use zms_units::{Class, Copies, Damage, Dva, First, Group, MapCause, MapFault, MsId};

/// A line of the command file, the answer to it, and the line that is wanted.
#[derive(Drop)]
pub struct ReplyRow {
    pub command: &'static str,
    pub answer: Answer,
    pub wanted: &'static str,
}

fn row(command: &'static str, answer: Answer, wanted: &'static str) -> ReplyRow {
    ReplyRow {
        command,
        answer,
        wanted,
    }
}

/// A place `CLASS VDEV:OFFSET:SIZE`.
fn dva(class: Class, vdev: u8, offset: u64, size: u64) -> Dva {
    Dva {
        class,
        vdev,
        offset,
        size,
    }
}

/// A granted block of these copies, of which it has three at most.
fn granted(alloc: Global, group: u64, dvas: &[Dva]) -> Answer {
    let mut copies = Copies::new(alloc);
    for dva in dvas {
        if copies.len() < 3 {
            copies.push(*dva);
        }
    }
    Answer::Granted {
        group: Group(group),
        copies,
    }
}

fn done(group: u64) -> Answer {
    Answer::Done {
        group: Group(group),
    }
}

fn late(group: u64, collected: u64) -> Answer {
    Answer::Late {
        group: Group(group),
        collected: Group(collected),
    }
}

fn device(before: u64, after: u64) -> Answer {
    Answer::Device { before, after }
}

fn damaged(vdev: u8, index: u16) -> Answer {
    Answer::Damaged {
        id: MsId { vdev, index },
        damage: Damage::Word(MapFault {
            word: 3,
            cause: MapCause::Range,
        }),
    }
}

/// A pool that met a fault of its device.
fn suspended(before: u64, after: u64) -> Answer {
    Answer::Suspended {
        first: First::Device { before, after },
    }
}

/// A pool that met damage.
fn suspended_at(vdev: u8, index: u16) -> Answer {
    Answer::Suspended {
        first: First::Damaged {
            id: MsId { vdev, index },
            damage: Damage::Counts { kept: 1, found: 2 },
        },
    }
}

/// Allocs that are granted, with one copy and with three.
fn granted_rows(alloc: Global) -> Result<Vec<ReplyRow>, AllocError> {
    let one = [dva(Class::Normal, 0, 0, 4096)];
    let three = [
        dva(Class::Special, 2, 1024, 1024),
        dva(Class::Log, 1, 4096, 1024),
        dva(Class::Dedup, 255, 18_446_744_073_709_551_615, 2048),
    ];
    let rows = [
        row(
            "1 alloc a 4096 normal 1",
            granted(alloc, 5, &one),
            "1 alloc a granted 5 normal 0:0:4096",
        ),
        row(
            "16 alloc b3 1000 special 3",
            granted(alloc, 6, &three),
            "16 alloc b3 granted 6 special 2:1024:1024 log 1:4096:1024 dedup 255:18446744073709551615:2048",
        ),
    ];
    Ok(Vec::from_array(alloc, rows)?)
}

/// Allocs that are not.
fn refused_rows(alloc: Global) -> Result<Vec<ReplyRow>, AllocError> {
    let rows = [
        row(
            "2 alloc c 16777216 log 2",
            Answer::NoSpace { looked: 7 },
            "2 alloc c nospace 7",
        ),
        row("2 alloc d 0 dedup 1", Answer::BadSize, "2 alloc d badsize"),
        row(
            "3 alloc e 512 normal 4",
            Answer::BadCopies,
            "3 alloc e badcopies",
        ),
        row("3 alloc f 512 normal 1", late(7, 9), "3 alloc f late 7 9"),
        row(
            "1 alloc g 512 normal 1",
            device(0, 1),
            "1 alloc g device 0 1",
        ),
        row(
            "1 alloc h 512 normal 1",
            suspended(3, 4),
            "1 alloc h suspended 3 4",
        ),
        row(
            "1 alloc abcdefghij012345 1 normal 1",
            damaged(0, 1),
            "1 alloc abcdefghij012345 damaged 0 1",
        ),
    ];
    Ok(Vec::from_array(alloc, rows)?)
}

/// Frees of blocks, and of segments.
fn free_rows(alloc: Global) -> Result<Vec<ReplyRow>, AllocError> {
    let rows = [
        row("1 free a", done(8), "1 free a done 8"),
        row("4 free a", Answer::NoName, "4 free a noname"),
        row(
            "1 free h",
            Answer::NotLive {
                vdev: 0,
                offset: 8192,
            },
            "1 free h notlive 0:8192",
        ),
        row("16 free b3", late(1, 2), "16 free b3 late 1 2"),
        row("1 freeseg 0 0 4096", done(8), "1 freeseg 0 0 4096 done 8"),
        row(
            "1 freeseg 255 0 4096",
            Answer::NoSuch,
            "1 freeseg 255 0 4096 nosuch",
        ),
        row(
            "1 freeseg 1 100 9223372036854775807",
            Answer::BadSeg,
            "1 freeseg 1 100 9223372036854775807 badseg",
        ),
        row(
            "1 freeseg 1 512 1024",
            Answer::NotLive {
                vdev: 1,
                offset: 1024,
            },
            "1 freeseg 1 512 1024 notlive 1:1024",
        ),
    ];
    Ok(Vec::from_array(alloc, rows)?)
}

/// Syncs, loads, and the other commands of the grammar.
fn other_rows(alloc: Global) -> Result<Vec<ReplyRow>, AllocError> {
    let busy = Answer::Busy {
        open_group: Group(8),
        synced: Group(5),
    };
    let rows = [
        row(
            "1 sync",
            done(562_949_953_421_311),
            "1 sync done 562949953421311",
        ),
        row("2 sync", busy, "2 sync busy 8 5"),
        row(
            "1 sync",
            suspended_at(255, 65_535),
            "1 sync suspended 255 65535",
        ),
        row(
            "1 sync",
            device(18_446_744_073_709_551_614, 18_446_744_073_709_551_615),
            "1 sync device 18446744073709551614 18446744073709551615",
        ),
        row("15 sync", damaged(15, 1023), "15 sync damaged 15 1023"),
        row("1 load 0 1", Answer::Loaded, "1 load 0 1 done"),
        row(
            "1 load 255 65535",
            Answer::NoSuch,
            "1 load 255 65535 nosuch",
        ),
        row("10 load 3 0", damaged(3, 0), "10 load 3 0 damaged 3 0"),
        row("1 unload 0 1", Answer::NoSuch, "1 unload 0 1 nosuch"),
        row("1 init 0", Answer::NoSuch, "1 init 0 nosuch"),
        row("2 trim 1", Answer::NoSuch, "2 trim 1 nosuch"),
        row("3 autotrim 2", Answer::NoSuch, "3 autotrim 2 nosuch"),
    ];
    Ok(Vec::from_array(alloc, rows)?)
}

/// All rows, in the order of their file.
pub fn reply_rows(alloc: Global) -> Result<Vec<ReplyRow>, AllocError> {
    let mut all = granted_rows(alloc)?;
    for rows in [refused_rows(alloc)?, free_rows(alloc)?, other_rows(alloc)?] {
        for row in rows {
            all.push(row)?;
        }
    }
    Ok(all)
}
