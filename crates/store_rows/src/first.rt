// The bytes that the first run leaves.
use std::alloc::{AllocError, Global};
use std::rt::Files;
use std::{fs, io};
use uber_ring::{newest, valid, write_slot, write_table};
use vdev_map::{LogRow, MsRow, Table, slot_place, table_place};
use zms_dev::{DiskRoom, MemDisk};
use zms_units::{Class, Group, Items, VdevRow};

/// The place of side 0 of the first metaslab, with the default limits.
pub(crate) const FIRST_PLACE: u64 = 27_398_144;

/// The digest of log 5: an allocation of 8 sectors at the start of vdev 0.
const LOG_5: [u8; 32] = [
    0xa4, 0x1c, 0x9e, 0x6e, 0x3a, 0x66, 0xe0, 0x78, 0xd7, 0xf0, 0xd4, 0x87, 0x4d, 0x91, 0xda, 0x88,
    0x45, 0xc9, 0xb5, 0x8c, 0xb7, 0xf4, 0x54, 0x64, 0x0f, 0xe9, 0xce, 0x18, 0xd1, 0x66, 0x36, 0x5c,
];

/// The table of a group over one metaslab of 256 units.
pub(crate) fn table_with(
    alloc: Global,
    group: u64,
    unflushed: u64,
    held: u64,
    logs: Vec<LogRow>,
) -> Result<Table, AllocError> {
    let vdev = VdevRow {
        class: Class::Normal,
        ashift: 12,
        units: 256,
        metaslabs: 1,
    };
    let row = MsRow {
        place: FIRST_PLACE,
        words: 0,
        unflushed: Group(unflushed),
        held,
        side: 0,
    };
    let mut vdevs = Vec::new(alloc);
    vdevs.push(vdev)?;
    let mut rows = Vec::new(alloc);
    rows.push(row)?;
    Ok(Table {
        group: Group(group),
        vdevs: Items::from_vec(vdevs),
        logs: Items::from_vec(logs),
        rows: Items::from_vec(rows),
    })
}

/// Writes a table and its slot; whether both went well.
pub(crate) fn commit(alloc: Global, disk: &mut MemDisk, table: &Table) -> bool {
    if table.group.0 < 4 || table.group.0 >= 1 << 50 {
        return false;
    }
    if table.vdevs.len() > 16 || table.logs.len() > 33 || table.rows.len() > 1024 {
        return false;
    }
    match write_table(alloc, disk, table) {
        Ok(uber) => write_slot(disk, &uber).is_ok(),
        Err(_) => false,
    }
}

/// A device of the first run: created, and then one block of one unit.
fn first_run(alloc: Global) -> Result<Option<MemDisk>, AllocError> {
    let room = DiskRoom {
        end: 1_445_888 + 184,
        written: 4096,
        calls: 400,
    };
    let mut disk = MemDisk::new(alloc, &[], room, &[])?;
    let created = table_with(alloc, 4, 5, 0, Vec::new(alloc))?;
    let mut logs = Vec::new(alloc);
    logs.push(LogRow {
        group: Group(5),
        words: 3,
        digest: LOG_5,
    })?;
    let synced = table_with(alloc, 5, 5, 1, logs)?;
    if commit(alloc, &mut disk, &created) && commit(alloc, &mut disk, &synced) {
        Ok(Some(disk))
    } else {
        Ok(None)
    }
}

/// The place of a part of the device by its name in the rows.
fn place_of(name: &str) -> Option<usize> {
    match name {
        "slot4" => Some(slot_place(Group(4)) as usize),
        "slot5" => Some(slot_place(Group(5)) as usize),
        "table4" => Some(table_place(Group(4)) as usize),
        "table5" => Some(table_place(Group(5)) as usize),
        _ => None,
    }
}

/// Whether the device has the bytes of a row.
fn agrees(alloc: Global, disk: &MemDisk, line: &str) -> bool {
    let Some((name, digits)) = line.split_once(' ') else {
        return false;
    };
    let (Some(at), Ok(wanted)) = (place_of(name), hex::decode(alloc, digits)) else {
        return false;
    };
    let Some(behind) = disk.bytes().get(at..) else {
        return false;
    };
    behind.get(..wanted.len()) == Some(wanted.as_slice())
}

/// The groups of the newest slot and of those of groups 3, 4 and 5, 0 where there is none.
fn groups(disk: &mut MemDisk) -> [u64; 4] {
    let mut found = [0; 4];
    if let Ok(Some(uber)) = newest(disk) {
        found[0] = uber.group.0;
    }
    for k in 1..4usize {
        if let Ok(Some(uber)) = valid(disk, Group(k as u64 + 2)) {
            found[k] = uber.group.0;
        }
    }
    found
}

/// Prints how many rows agree, and which groups have a valid slot.
pub(crate) fn compare<R: Files + Print + AllocGlobal>(rt: &R) -> io::Result<()> {
    let text = fs::read_to_string(rt, "first.txt")?;
    let Some(mut disk) = first_run(rt.alloc())? else {
        return println!(rt; "first.txt: no device");
    };
    let mut agree = 0u64;
    let mut differ = 0u64;
    for line in text.lines() {
        if agrees(rt.alloc(), &disk, line) {
            agree = agree.saturating_add(1);
        } else {
            differ = differ.saturating_add(1);
            println!(rt; "differs: {line}")?;
        }
    }
    println!(rt; "first.txt: {agree} rows agree, {differ} differ")?;
    let [newest, third, fourth, fifth] = groups(&mut disk);
    println!(rt; "newest {newest}, valid {third} {fourth} {fifth}")
}
