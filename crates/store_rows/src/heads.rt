// Heads, and the answer of `head_of` to each.
use hex::FromHex;
use std::alloc::{AllocError, Global};
use std::rt::Files;
use std::{fs, io};
use uber_ring::{HeadFault, head_bytes, head_of};
use vdev_map::{Form, Head};

/// Prints how many rows agree.
pub(crate) fn compare<R: Files + Print + AllocGlobal>(rt: &R) -> io::Result<()> {
    let text = fs::read_to_string(rt, "heads.txt")?;
    let mut agree = 0u64;
    let mut differ = 0u64;
    for line in text.lines() {
        if agrees(rt.alloc(), line)? {
            agree = agree.saturating_add(1);
        } else {
            differ = differ.saturating_add(1);
            println!(rt; "differs: {line}")?;
        }
    }
    println!(rt; "heads.txt: {agree} rows agree, {differ} differ")
}

/// Whether a row agrees: its name, the answer, and the bytes. A head is written as the same bytes again.
fn agrees(alloc: Global, line: &str) -> io::Result<bool> {
    let words: Vec<&str> = line.split(' ').collect(alloc)?;
    let [_, wanted, bytes] = words.as_slice() else {
        return Ok(false);
    };
    let Ok(bytes) = <[u8; 64] as FromHex>::from_hex(*bytes) else {
        return Ok(false);
    };
    let answer = head_of(&bytes);
    if let Ok(head) = answer
        && head_bytes(&head) != bytes
    {
        return Ok(false);
    }
    Ok(text_of(alloc, answer)?.as_str() == *wanted)
}

fn text_of(alloc: Global, answer: Result<Head, HeadFault>) -> Result<String, AllocError> {
    match answer {
        Ok(Head { form, flush, log }) => {
            let version = match form {
                Form::Whole => 0u8,
                Form::Logged => 1,
            };
            format!(in alloc; "{version}_{flush}_{log}")
        }
        Err(HeadFault::HeadDamaged { .. }) => String::from_str(alloc, "damaged"),
        Err(HeadFault::Malformed { at, .. }) => format!(in alloc; "{at}"),
    }
}
