// Images of which one byte of the newest slot or table was changed.
use crate::first::{commit, table_with};
use std::alloc::{AllocError, Global};
use std::io;
use std::rt::Files;
use uber_ring::{TableFault, Uber, newest, read_table};
use vdev_map::{Form, Head, Table, slot_place, table_place};
use zms_dev::{Disk, DiskRoom, Failed, MemDisk};
use zms_units::Group;

/// How many images there are, and how many of them one device is changed for.
const IMAGES: u64 = 10_000;

const BATCH: u64 = 100;

/// The group whose slot and table are changed, and the length of its table.
const NEWEST: u64 = 9;

const TABLE_LEN: u64 = 136;

/// What a changed image shows.
#[derive(Clone, Copy, PartialEq, Eq)]
enum Shown {
    /// The newest group with its table.
    Newest,
    /// The group before it, with its table.
    Before,
    /// The newest group, whose table is told to be damaged.
    Damaged,
    /// Anything else.
    Wrong,
}

/// A generator of numbers, always the same.
#[derive(Drop)]
struct Numbers {
    state: u64,
}

impl Numbers {
    fn next(&mut self) -> u64 {
        self.state = self
            .state
            .wrapping_mul(6_364_136_223_846_793_005)
            .wrapping_add(1_442_695_040_888_963_407);
        self.state >> 33
    }
}

/// A device with the tables and slots of groups 8 and 9.
fn two_groups(alloc: Global) -> Result<Option<MemDisk>, AllocError> {
    let room = DiskRoom {
        end: 135_168 + 262_144 + 136,
        written: 4096,
        calls: 20,
    };
    let mut disk = MemDisk::new(alloc, &[], room, &[])?;
    let before = table_with(alloc, 8, 9, 8, Vec::new(alloc))?;
    let newest = table_with(alloc, NEWEST, 10, 9, Vec::new(alloc))?;
    if commit(alloc, &mut disk, &before) && commit(alloc, &mut disk, &newest) {
        Ok(Some(disk))
    } else {
        Ok(None)
    }
}

/// Whether a table is that of a group: each holds as many units as its group's number.
fn is_of(table: &Table, group: u64) -> bool {
    match table.rows.as_slice() {
        [row] => table.group.0 == group && row.held == group,
        _ => false,
    }
}

fn shown_of(uber: &Uber, table: Result<Table, TableFault>) -> Shown {
    match table {
        Ok(table) if uber.group.0 == NEWEST && is_of(&table, NEWEST) => Shown::Newest,
        Ok(table) if uber.group.0 == 8 && is_of(&table, 8) => Shown::Before,
        Err(TableFault::TableDamaged { .. }) if uber.group.0 == NEWEST => Shown::Damaged,
        _ => Shown::Wrong,
    }
}

/// What the device shows.
fn look(alloc: Global, disk: &mut MemDisk) -> Shown {
    let head = Head {
        form: Form::Logged,
        flush: 8,
        log: 65_536,
    };
    match newest(disk) {
        Ok(Some(uber)) => shown_of(&uber, read_table(alloc, disk, &uber, &head)),
        _ => Shown::Wrong,
    }
}

/// Changes a byte of the newest slot or table, looks, and puts it back.
fn one(alloc: Global, disk: &mut MemDisk, numbers: &mut Numbers) -> Result<Shown, Failed> {
    let number = numbers.next();
    let at = if number % 2 == 0 {
        slot_place(Group(NEWEST)) + number / 2 % 1024
    } else {
        table_place(Group(NEWEST)) + number / 2 % TABLE_LEN
    };
    let change = (numbers.next() % 255) as u8;
    let was = disk.bytes().get(at as usize).copied().unwrap_or(0);
    disk.write(at, &[was.wrapping_add(change).wrapping_add(1)])?;
    let shown = look(alloc, disk);
    disk.write(at, &[was])?;
    Ok(shown)
}

/// How many images show each.
#[derive(Drop)]
struct Tally {
    newest: u64,
    before: u64,
    damaged: u64,
    wrong: u64,
}

impl Tally {
    fn add(&mut self, shown: Shown) {
        match shown {
            Shown::Newest => self.newest = self.newest.saturating_add(1),
            Shown::Before => self.before = self.before.saturating_add(1),
            Shown::Damaged => self.damaged = self.damaged.saturating_add(1),
            Shown::Wrong => self.wrong = self.wrong.saturating_add(1),
        }
    }
}

/// Prints how many images show each.
pub(crate) fn count<R: Files + Print + AllocGlobal>(rt: &R) -> io::Result<()> {
    let Some(first) = two_groups(rt.alloc())? else {
        return println!(rt; "changed images: no device");
    };
    let mut numbers = Numbers { state: 1 };
    let mut tally = Tally {
        newest: 0,
        before: 0,
        damaged: 0,
        wrong: 0,
    };
    for _ in 0..IMAGES / BATCH {
        let room = DiskRoom {
            end: first.bytes().len(),
            written: 200,
            calls: 14_000,
        };
        let mut disk = MemDisk::new(rt.alloc(), first.bytes(), room, &[])?;
        for _ in 0..BATCH {
            tally.add(one(rt.alloc(), &mut disk, &mut numbers).unwrap_or(Shown::Wrong));
        }
    }
    let Tally {
        newest,
        before,
        damaged,
        wrong,
    } = tally;
    println!(rt;
        "changed images: {newest} newest, {before} the one before, {damaged} damaged, {wrong} wrong"
    )
}
