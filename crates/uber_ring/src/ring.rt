ghost use Rattle.std.specs.Prelude.{◌≡◌, ◌%◌, ◌^◌, ◌<◌, ◌≤◌, ◌⊎◌, Some, OnOk, IfOk, IfSome, IfNone, IsSomeAnd};
ghost use Rattle.zms_dev.specs.Bytes.{Outside};
ghost use Rattle.zms_dev.specs.Causes.{HasCause};
ghost use Rattle.zms_dev.specs.Disk.{Tells, bytes_of, Only};
ghost use Rattle.zms_dev.specs.Runs.{Spares, Untouched, LeavesOnly};
ghost use Rattle.vdev_map.specs.Places.{slot_place};
ghost use Rattle.uber_ring.specs.Slots.{IsUber, NewestOf, TheValid};
ghost use Rattle.uber_ring.specs.Writes.{HasFlushed, IsOldOrNew, IsWritten, Flushes, IsOld, IsNotValid, IsNew, IsShut, IsFilled};
ghost use Rattle.uber_ring.specs.declared.slot.Uber.{Uber};

use crate::Uber;
use crate::slot::{OPEN, SLOTS, slot_body, uber_in_slot};
use vdev_map::slot_place;
use zms_dev::{Disk, Failed, put, read_part};
use zms_units::Group;

/// The length of a ring slot, and the place of its gate byte in it.
const SLOT_LEN: usize = 1024;

const GATE: u64 = 1023;

/// The value of a closed gate byte, as it is written.
const CLOSED: u8 = 0;

/// Makes the slot of an uberblock's group valid with it, and flushes: an open gate is closed first, then all but the
/// gate is written, and then the gate is opened, each with a flush behind it. A gate that reads closed is not written
/// before the rest is, since an unflushed write could leave it open over what stood there. Takes no memory.
///
/// After OpenZFS's `vdev_uberblock_sync`, but for the gate.
pub fn write_slot<D: Disk>(disk: &mut D, uber: &Uber) -> Result<(), Failed>
    requires { IsUber uber.now }
    // Where the slot was flushed, a stop at no moment leaves it valid with anything but what it was valid with before,
    // or this.
    ensures any_moment { Tells (D.state disk.old) → HasFlushed (D.state disk.old) (slot_place uber.now.group.0) 1024
        → LeavesOnly (D.state disk.old) (D.state disk.new) (IsOldOrNew (bytes_of (D.state disk.old)) uber.now) }
    ensures spares { Tells (D.state disk.old) → Spares (Outside (slot_place uber.now.group.0) 1024) (D.state disk.old) (D.state disk.new) }
    ensures written { Tells (D.state disk.old) → OnOk result (IsWritten (bytes_of (D.state disk.new)) uber.now) }
    ensures durable { Tells (D.state disk.old) → OnOk result (Only (bytes_of (D.state disk.new)) (D.state disk.new).may_leave) }
    ensures flushes { Tells (D.state disk.old) → Flushes 3 (D.state disk.old) (D.state disk.new) }
    ensures cause { HasCause (D.faults disk.old) (D.faults disk.new) result }
{
    let at = slot_place(uber.group);
    close_gate(disk, at)?;
    fill_and_open(disk, at, uber)
}

/// Closes the gate of the slot at a place, if it reads open, and flushes.
fn close_gate<D: Disk>(disk: &mut D, at: u64) -> Result<(), Failed>
    requires { at < 2 ^ 32 }
    ensures any_moment { Tells (D.state disk.old) → HasFlushed (D.state disk.old) at 1024
        → LeavesOnly (D.state disk.old) (D.state disk.new) (IsOld at (bytes_of (D.state disk.old))) }
    ensures shut { Tells (D.state disk.old) → HasFlushed (D.state disk.old) at 1024 → OnOk result (IsShut (D.state disk.new) at) }
    ensures spares { Tells (D.state disk.old) → Spares (Outside at 1024) (D.state disk.old) (D.state disk.new) }
    ensures flushes { Tells (D.state disk.old) → Flushes 1 (D.state disk.old) (D.state disk.new) }
    ensures cause { HasCause (D.faults disk.old) (D.faults disk.new) result }
{
    let mut gate = [0u8; 1];
    read_part(disk, at + GATE, &mut gate)?;
    if gate[0] == OPEN {
        put(disk, at + GATE, &[CLOSED])
    } else {
        Ok(())
    }
}

/// Writes all but the gate of the slot at a place, and flushes, and then opens the gate, and flushes.
fn fill_and_open<D: Disk>(disk: &mut D, at: u64, uber: &Uber) -> Result<(), Failed>
    requires at { at < 2 ^ 32 }
    requires uber { IsUber uber.now }
    ensures any_moment { Tells (D.state disk.old) → IsShut (D.state disk.old) at → LeavesOnly (D.state disk.old) (D.state disk.new) (IsNew at uber.now) }
    ensures spares { Tells (D.state disk.old) → Spares (Outside at 1024) (D.state disk.old) (D.state disk.new) }
    ensures written { Tells (D.state disk.old) → at ≡ slot_place uber.now.group.0 → OnOk result (IsWritten (bytes_of (D.state disk.new)) uber.now) }
    ensures durable { Tells (D.state disk.old) → OnOk result (Only (bytes_of (D.state disk.new)) (D.state disk.new).may_leave) }
    ensures flushes { Tells (D.state disk.old) → Flushes 2 (D.state disk.old) (D.state disk.new) }
    ensures cause { HasCause (D.faults disk.old) (D.faults disk.new) result }
{
    fill_slot(disk, at, uber)?;
    open_gate(disk, at, uber)
}

/// Writes all but the gate of the slot at a place, and flushes.
fn fill_slot<D: Disk>(disk: &mut D, at: u64, uber: &Uber) -> Result<(), Failed>
    requires { at < 2 ^ 32 }
    ensures any_moment { Tells (D.state disk.old) → IsShut (D.state disk.old) at → LeavesOnly (D.state disk.old) (D.state disk.new) (IsNotValid at) }
    ensures filled { Tells (D.state disk.old) → OnOk result (IsFilled (D.state disk.new) at uber.now) }
    ensures spares { Tells (D.state disk.old) → Spares (Outside at 1024) (D.state disk.old) (D.state disk.new) }
    ensures flushes { Tells (D.state disk.old) → Flushes 1 (D.state disk.old) (D.state disk.new) }
    ensures cause { HasCause (D.faults disk.old) (D.faults disk.new) result }
{
    let body = slot_body(uber);
    put(disk, at, &body)
}

/// Opens the gate of a slot that is filled, and flushes.
fn open_gate<D: Disk>(disk: &mut D, at: u64, uber: &Uber) -> Result<(), Failed>
    requires at { at < 2 ^ 32 }
    requires uber { IsUber uber.now }
    ensures any_moment { Tells (D.state disk.old) → IsFilled (D.state disk.old) at uber.now → LeavesOnly (D.state disk.old) (D.state disk.new) (IsNew at uber.now) }
    ensures written { Tells (D.state disk.old) → IsFilled (D.state disk.old) at uber.now → at ≡ slot_place uber.now.group.0 → OnOk result (IsWritten (bytes_of (D.state disk.new)) uber.now) }
    ensures durable { Tells (D.state disk.old) → OnOk result (Only (bytes_of (D.state disk.new)) (D.state disk.new).may_leave) }
    ensures spares { Tells (D.state disk.old) → Spares (Outside at 1024) (D.state disk.old) (D.state disk.new) }
    ensures flushes { Tells (D.state disk.old) → Flushes 1 (D.state disk.old) (D.state disk.new) }
    ensures cause { HasCause (D.faults disk.old) (D.faults disk.new) result }
{
    put(disk, at + GATE, &[OPEN])
}

/// The uberblock of a slot, if it is valid.
fn read_slot<D: Disk>(disk: &mut D, slot: u64) -> Result<Option<Uber>, Failed>
    requires { slot < 128 }
    ensures limits { IfOk result (λ found. IfSome found (λ uber. IsUber uber)) }
    ensures found { Tells (D.state disk.old) → IfOk result (TheValid (bytes_of (D.state disk.old)) (λ uber. uber.group.0 % 128 ≡ slot)) }
    ensures rests { Tells (D.state disk.old) → Untouched (D.state disk.old) (D.state disk.new) }
    ensures flushes { Tells (D.state disk.old) → (D.state disk.new).flushes ≡ (D.state disk.old).flushes }
    ensures cause { HasCause (D.faults disk.old) (D.faults disk.new) result }
{
    let mut bytes = [0u8; SLOT_LEN];
    read_part(disk, slot_place(Group(slot)), &mut bytes)?;
    Ok(uber_in_slot(&bytes, slot))
}

/// The uberblock of a group, if the group has a valid slot. One read, and no memory.
pub fn valid<D: Disk>(disk: &mut D, group: Group) -> Result<Option<Uber>, Failed>
    // Whatever the device does.
    ensures limits { IfOk result (λ found. IfSome found (λ uber. IsUber uber)) }
    ensures found { Tells (D.state disk.old) → IfOk result (TheValid (bytes_of (D.state disk.old)) (λ uber. uber.group ≡ group)) }
    ensures rests { Tells (D.state disk.old) → Untouched (D.state disk.old) (D.state disk.new) }
    ensures flushes { Tells (D.state disk.old) → (D.state disk.new).flushes ≡ (D.state disk.old).flushes }
    ensures cause { HasCause (D.faults disk.old) (D.faults disk.new) result }
{
    let found = read_slot(disk, group.0 % SLOTS)?;
    Ok(if_of_group(found, group))
}

/// The uberblock of the greatest group that has a valid slot, if any has one: `vdev_uberblock_load`. Reads each of the
/// 128 slots once, and takes no memory.
pub fn newest<D: Disk>(disk: &mut D) -> Result<Option<Uber>, Failed>
    // Whatever the device does.
    ensures limits { IfOk result (λ found. IfSome found (λ uber. IsUber uber)) }
    ensures found { Tells (D.state disk.old) → IfOk result (NewestOf (bytes_of (D.state disk.old))) }
    ensures rests { Tells (D.state disk.old) → Untouched (D.state disk.old) (D.state disk.new) }
    ensures flushes { Tells (D.state disk.old) → (D.state disk.new).flushes ≡ (D.state disk.old).flushes }
    ensures cause { HasCause (D.faults disk.old) (D.faults disk.new) result }
{
    let mut best = None;
    for slot in 0..SLOTS {
        let found = read_slot(disk, slot)?;
        best = newer_of(best, found);
    }
    Ok(best)
}

/// An uberblock, if it is of a group.
fn if_of_group(found: Option<Uber>, group: Group) -> Option<Uber>
    ensures same { IfSome result (λ uber. (found ≡ Some uber) × (uber.group ≡ group)) }
    ensures none { IfNone result ((uber : Uber) → found ≡ Some uber → uber.group ≡ group → ⊥) }
{
    match found {
        Some(uber) if uber.group == group => Some(uber),
        _ => None,
    }
}

/// Of two uberblocks the one of the greater group.
fn newer_of(best: Option<Uber>, found: Option<Uber>) -> Option<Uber>
    ensures either { (result ≡ best) ⊎ (result ≡ found) }
    ensures best { (uber : Uber) → best ≡ Some uber → IsSomeAnd result (λ newer. uber.group.0 ≤ newer.group.0) }
    ensures found { (uber : Uber) → found ≡ Some uber → IsSomeAnd result (λ newer. uber.group.0 ≤ newer.group.0) }
{
    match (best, found) {
        (Some(old), Some(new)) => Some(if old.group < new.group { new } else { old }),
        (None, _) => found,
        (_, None) => best,
    }
}
