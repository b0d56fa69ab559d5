// Tables, and the answer of `read_table` to each.
use hex::FromHex;
use std::alloc::{AllocError, Global};
use std::rt::Files;
use std::{fs, io};
use uber_ring::{TableFault, Uber, read_table};
use vdev_map::{Form, Head, Table, table_place};
use zms_dev::{DiskRoom, MemDisk};
use zms_units::Group;

/// Prints how many rows agree.
pub(crate) fn compare<R: Files + Print + AllocGlobal>(rt: &R) -> io::Result<()> {
    let text = fs::read_to_string(rt, "tables.txt")?;
    let mut agree = 0u64;
    let mut differ = 0u64;
    for line in text.lines() {
        if agrees(rt.alloc(), line)? {
            agree = agree.saturating_add(1);
        } else {
            differ = differ.saturating_add(1);
            println!(rt; "differs: {line}")?;
        }
    }
    println!(rt; "tables.txt: {agree} rows agree, {differ} differ")
}

/// Whether a row agrees: its name, form, flush, log, group, length, digest, the answer, and the bytes.
fn agrees(alloc: Global, line: &str) -> io::Result<bool> {
    let words: Vec<&str> = line.split(' ').collect(alloc)?;
    let [_, form, flush, log, group, len, digest, wanted, bytes] = words.as_slice() else {
        return Ok(false);
    };
    let head = Head {
        form: if number(form) == 0 {
            Form::Whole
        } else {
            Form::Logged
        },
        flush: number(flush),
        log: number(log),
    };
    let Ok(table_digest) = <[u8; 32] as FromHex>::from_hex(*digest) else {
        return Ok(false);
    };
    let uber = Uber {
        group: Group(u64::from(number(group))),
        version: 1,
        table_len: u64::from(number(len)),
        table_digest,
    };
    let bytes = match hex::decode(alloc, if *bytes == "-" { "" } else { *bytes }) {
        Ok(bytes) => bytes,
        Err(_) => return Ok(false),
    };
    let answer = answer(alloc, &head, &uber, &bytes)?;
    Ok(answer.as_str() == *wanted)
}

/// A number of a row, 0 where it is none.
pub(crate) fn number(word: &str) -> u32 {
    word.parse::<u32>().unwrap_or(0)
}

/// What is read of a device with these bytes in the table slot.
fn answer(alloc: Global, head: &Head, uber: &Uber, bytes: &[u8]) -> Result<String, AllocError> {
    if head.flush < 2 || head.flush > 32 || head.log < 64 || head.log > 65_536 {
        return String::from_str(alloc, "head");
    }
    if uber.version != 1
        || uber.group.0 < 4
        || uber.group.0 >= 1 << 50
        || uber.table_len > 262_144
    {
        return String::from_str(alloc, "uberblock");
    }
    let mut image = Vec::new(alloc);
    image.resize(table_place(uber.group) as usize, 0)?;
    image.extend_from_slice(bytes)?;
    let room = DiskRoom {
        end: image.len(),
        written: 0,
        calls: 1,
    };
    let mut disk = MemDisk::new(alloc, &image, room, &[])?;
    text_of(alloc, read_table(alloc, &mut disk, uber, head))
}

fn text_of(alloc: Global, answer: Result<Table, TableFault>) -> Result<String, AllocError> {
    match answer {
        Ok(_) => String::from_str(alloc, "ok"),
        Err(TableFault::TableDamaged { .. }) => String::from_str(alloc, "damaged"),
        Err(TableFault::Malformed { at, .. }) => format!(in alloc; "{at}"),
        Err(TableFault::Failed) => String::from_str(alloc, "failed"),
        Err(TableFault::Memory) => String::from_str(alloc, "memory"),
    }
}
