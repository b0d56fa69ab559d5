// What a stop may leave of a pool device in memory, as bytes.
ghost use Rattle.std.specs.Prelude.{◌≡◌, ℕ, ◌+◌, ◌<◌, ◌≤◌, List, length, take, drop, map, false, IfOk, OnOk, slice_index_or};
ghost use Rattle.zms_dev.specs.Bytes.{byte, Outside, Torn};
ghost use Rattle.zms_dev.specs.History.{Stage, start, next, after, IsImage};
ghost use Rattle.zms_dev.specs.MemoryDisk.{step_of};
ghost use Rattle.zms_dev.specs.Stop.{Filled, IsAtRest, has_flushed, LeavesBytes};
ghost use Rattle.zms_dev.specs.declared.memory.calls.CallRecord.{CallRecord};

use super::bytes::{cover, extend, overwrite};
use super::calls::{Call, CallRecord};
use std::alloc::{AllocError, Global};

/// What a stop leaves in the ranges that were written since the last flush.
#[derive(Clone, Copy, Debug, PartialEq, Eq)]
pub enum Unflushed {
    /// What stood there at the last flush.
    Old,
    /// What was written.
    New,
    Zeros,
    /// Bytes of all ones.
    Ones,
}

/// An image of a stop after these calls.
pub fn stopped_after(
    alloc: Global,
    first: &[u8],
    written: &[u8],
    records: &[CallRecord],
    how: Unflushed,
) -> Result<Vec<u8>, AllocError>
    ensures image { IfOk result (λ v. IsImage (after (start first.now) (map (step_of written.now) records.now)) v.items) }
    ensures how { IfOk result (λ v. LeavesBytes how (after (start first.now) (map (step_of written.now) records.now)) v.items) }
{
    match how {
        Unflushed::Old => settled_after(alloc, first, written, records),
        Unflushed::New => seen_after(alloc, first, written, records),
        Unflushed::Zeros => torn_after(alloc, first, written, records, 0),
        Unflushed::Ones => torn_after(alloc, first, written, records, 0xff),
    }
}

// What was flushed after these calls.
fn settled_after(
    alloc: Global,
    first: &[u8],
    written: &[u8],
    records: &[CallRecord],
) -> Result<Vec<u8>, AllocError>
    ensures { IfOk result (λ v. v.items ≡ (after (start first.now) (map (step_of written.now) records.now)).settled) }
{
    let settled = last_flush(records);
    seen_after(alloc, first, written, &records[..settled])
}

// What the device read as after these calls.
fn seen_after(
    alloc: Global,
    first: &[u8],
    written: &[u8],
    records: &[CallRecord],
) -> Result<Vec<u8>, AllocError>
    ensures { IfOk result (λ v. v.items ≡ (after (start first.now) (map (step_of written.now) records.now)).seen) }
{
    let mut image = Vec::from_slice(alloc, first)?;
    for made in records {
        apply(&mut image, written, made)?;
    }
    Ok(image)
}

// An image after these calls with this byte in each range that was not flushed, as far as the image goes.
fn torn_after(
    alloc: Global,
    first: &[u8],
    written: &[u8],
    records: &[CallRecord],
    fill: u8,
) -> Result<Vec<u8>, AllocError>
    ensures image { IfOk result (λ v. IsImage (after (start first.now) (map (step_of written.now) records.now)) v.items) }
    ensures filled { IfOk result (λ v. Filled (after (start first.now) (map (step_of written.now) records.now)).ranges fill v.items) }
{
    let settled = last_flush(records);
    let mut image = seen_after(alloc, first, written, &records[..settled])?;
    tear_all(&mut image, written, &records[settled..], fill)?;
    Ok(image)
}

// How many calls there were up to the last flush.
fn last_flush(records: &[CallRecord]) -> usize
    ensures bound { result ≤ length records.now }
    ensures at_rest { (first written : List ℕ) → IsAtRest (after (start first) (map (step_of written) (take result records.now))) }
    ensures none_since { (k : ℕ) (other : CallRecord) → result ≤ k → k < length records.now → has_flushed (slice_index_or records.now k other) ≡ false }
{
    let mut last = 0;
    for (i, made) in records.iter().enumerate() {
        if is_flush(made) {
            last = i + 1;
        }
    }
    last
}

fn is_flush(made: &CallRecord) -> bool
    ensures { result ≡ has_flushed made.now }
{
    match made.call {
        Call::Flush => made.went_well,
        _ => false,
    }
}

// One call on.
fn apply(image: &mut Vec<u8>, written: &[u8], made: &CallRecord) -> Result<(), AllocError>
    ensures { OnOk result (image.new.items ≡ (next (start image.old.items) (step_of written.now made.now)).seen) }
{
    if let Call::Write { at, len, from } = made.call
        && made.went_well
    {
        let bytes = piece(written, from, len);
        let end = (at as usize).checked_add(bytes.len()).ok_or(AllocError)?;
        image.reserve(end.saturating_sub(image.len()))?;
        overwrite(image, at as usize, bytes);
    }
    Ok(())
}

// The bytes of a write, among all that were written.
fn piece(written: &[u8], from: usize, len: usize) -> &[u8]
    ensures { result.now ≡ take len (drop from written.now) }
{
    let rest = &written[from.min(written.len())..];
    &rest[..len.min(rest.len())]
}

// Tears what was written by calls with no flush among them.
fn tear_all(
    image: &mut Vec<u8>,
    written: &[u8],
    records: &[CallRecord],
    fill: u8,
) -> Result<(), AllocError>
    requires { (k : ℕ) (other : CallRecord) → k < length records.now → has_flushed (slice_index_or records.now k other) ≡ false }
    ensures image { (s : Stage) → IsImage s image.old.items → OnOk result (IsImage (after s (map (step_of written.now) records.now)) image.new.items) }
    ensures filled { (s : Stage) → Filled s.ranges fill image.old.items → OnOk result (Filled (after s (map (step_of written.now) records.now)).ranges fill image.new.items) }
{
    for made in records {
        tear(image, written, made, fill)?;
    }
    Ok(())
}

// The byte in all of a range.
fn tear_range(image: &mut Vec<u8>, at: u64, len: usize, fill: u8) -> Result<(), AllocError>
    ensures torn { OnOk result (Torn (Outside at len) image.old.items image.new.items) }
    ensures reaches { OnOk result (at + len ≤ length image.new.items) }
    ensures filled { OnOk result ((p : ℕ) → at ≤ p → p < at + len → byte image.new.items p ≡ fill) }
{
    extend(image, at, len, fill)?;
    cover(image, at, len as u64, fill);
    Ok(())
}

// One call on, with the byte in all of its range.
fn tear(image: &mut Vec<u8>, written: &[u8], made: &CallRecord, fill: u8) -> Result<(), AllocError>
    requires { has_flushed made.now ≡ false }
    ensures image { (s : Stage) → IsImage s image.old.items → OnOk result (IsImage (next s (step_of written.now made.now)) image.new.items) }
    ensures filled { (s : Stage) → Filled s.ranges fill image.old.items → OnOk result (Filled (next s (step_of written.now made.now)).ranges fill image.new.items) }
{
    if let Call::Write { at, len, from } = made.call {
        if made.went_well {
            let len = piece(written, from, len).len();
            tear_range(image, at, len, fill)?;
        } else {
            tear_range(image, at, len, fill)?;
        }
    }
    Ok(())
}
