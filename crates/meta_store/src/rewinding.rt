// The opened group becomes the only one.
ghost use Rattle.std.specs.Prelude.{◌≡◌, ◌≢◌, ℕ, ◌+◌, ◌%◌, ◌<◌, ◌≤◌, ◌⊎◌, List, [], ◌∷◌, ◌++◌, None, Some, length, slice_index_or, slice_set, OnOk, IfSome, IfNone, IfOk, MatchOption};
ghost use Rattle.zms_dev.specs.Bytes.{Holds, Outside};
ghost use Rattle.zms_dev.specs.Causes.{HasCause};
ghost use Rattle.zms_dev.specs.Disk.{Tells, bytes_of, Only};
ghost use Rattle.zms_dev.specs.Runs.{LeavesOnly, Spares, Untouched};
ghost use Rattle.uber_ring.specs.Numbers.{number_at};
ghost use Rattle.vdev_map.specs.Places.{slot_place};
ghost use Rattle.uber_ring.specs.Slots.{IsValid};
ghost use Rattle.uber_ring.specs.declared.slot.Uber.{Uber};
ghost use Rattle.zms_units.specs.declared.segments.Group.{Group};
ghost use Rattle.meta_store.specs.Rewinds.{ArePlaced, IsRewinding, IsRing, SlotGroup, IsTurned, IsTurning, IsTurnedLast, IsRewindable, HasFlush, Adds, HasClosed, ClosesOthers, EndsRewound, IsNoGate, others_in};

use byteorder::{ByteOrder, LittleEndian};
use uber_ring::valid;
use vdev_map::slot_place;
use zms_dev::{Disk, Failed, put, read_part};
use zms_units::Group;

/// How many ring slots there are.
const SLOTS: usize = 128;

/// The byte of a slot at which its group stands, and that of its gate.
const GROUP_AT: u64 = 16;

const GATE: u64 = 1023;

/// The value of a closed gate byte, as it is written.
const CLOSED: u8 = 0;

/// The group that a slot names, whether or not it is valid.
fn named_in<D: Disk>(disk: &mut D, slot: u64) -> Result<Group, Failed>
    requires { slot < 128 }
    ensures group { Tells (D.state disk.old) → IfOk result (λ group. group.0 ≡ number_at (bytes_of (D.state disk.old)) (slot_place slot + 16) 8) }
    ensures rests { Tells (D.state disk.old) → Untouched (D.state disk.old) (D.state disk.new) }
    ensures cause { HasCause (D.faults disk.old) (D.faults disk.new) result }
{
    let mut bytes = [0u8; 8];
    read_part(disk, slot_place(Group(slot)) + GROUP_AT, &mut bytes)?;
    Ok(Group(LittleEndian::read_u64(&bytes)))
}

/// The group with which a slot is valid, if it is.
fn group_in<D: Disk>(disk: &mut D, slot: u64) -> Result<Option<Group>, Failed>
    requires { slot < 128 }
    ensures group { Tells (D.state disk.old) → IfOk result (SlotGroup (bytes_of (D.state disk.old)) slot) }
    ensures placed { IfOk result (λ found. IfSome found (λ group. group.0 % 128 ≡ slot)) }
    ensures rests { Tells (D.state disk.old) → Untouched (D.state disk.old) (D.state disk.new) }
    ensures cause { HasCause (D.faults disk.old) (D.faults disk.new) result }
{
    let group = named_in(disk, slot)?;
    if group.0 % 128 != slot {
        return Ok(None);
    }
    match valid(disk, group)? {
        Some(_) => Ok(Some(group)),
        None => Ok(None),
    }
}

/// The groups of the valid slots, each at the number of its slot. Reads each slot twice at most.
fn read_ring<D: Disk>(disk: &mut D, groups: &mut [Option<Group>]) -> Result<(), Failed>
    requires { length groups.old ≡ 128 }
    ensures ring { Tells (D.state disk.old) → OnOk result (IsRing (bytes_of (D.state disk.old)) groups.new 128) }
    ensures placed { OnOk result (ArePlaced groups.new 128) }
    ensures rests { Tells (D.state disk.old) → Untouched (D.state disk.old) (D.state disk.new) }
    ensures cause { HasCause (D.faults disk.old) (D.faults disk.new) result }
{
    for slot in 0..SLOTS {
        groups[slot] = group_in(disk, slot as u64)?;
    }
    Ok(())
}

/// Whether one group is closed before another: those above the opened one first, from the newest down, and then those below
/// it, rising.
fn comes_first(one: Group, other: Group, opened: Group) -> bool {
    if one > opened {
        one > other
    } else {
        other < opened && one < other
    }
}

/// Of the group that is closed first so far and the next of the ring the one that is closed first.
fn sooner(best: Option<Group>, found: Option<Group>, opened: Group) -> Option<Group>
    requires { IfSome best (λ group. group ≢ opened) }
    ensures some { IfSome result (λ group. (group ≢ opened) × ((best ≡ Some group) ⊎ (found ≡ Some group))) }
    ensures none { IfNone result ((best ≡ None) × IfSome found (λ group. group ≡ opened)) }
{
    match (best, found) {
        (_, None) => best,
        (_, Some(group)) if group == opened => best,
        (None, _) => found,
        (Some(old), Some(new)) => Some(if comes_first(new, old, opened) {
            new
        } else {
            old
        }),
    }
}

/// The group of the ring that is closed next, if there is one beside the opened one.
fn next_to_close(groups: &[Option<Group>], opened: Group) -> Option<Group>
    ensures some { IfSome result (λ group. (group ≢ opened) × ((k : ℕ) × ((k < length groups.now) × (slice_index_or groups.now k None ≡ Some group)))) }
    ensures none { IfNone result ((k : ℕ) (group : Group) → k < length groups.now → slice_index_or groups.now k None ≡ Some group → group ≡ opened) }
{
    let mut next = None;
    for found in groups {
        next = sooner(next, *found, opened);
    }
    next
}

/// Closes the gate of a group's slot, and flushes.
fn close<D: Disk>(disk: &mut D, group: Group) -> Result<(), Failed>
    ensures spares { Tells (D.state disk.old) → Spares (Outside (slot_place group.0 + 1023) 1) (D.state disk.old) (D.state disk.new) }
    ensures written { Tells (D.state disk.old) → OnOk result (Holds (bytes_of (D.state disk.old)) (slot_place group.0 + 1023) (0 ∷ []) (bytes_of (D.state disk.new))) }
    ensures durable { Tells (D.state disk.old) → OnOk result (Only (bytes_of (D.state disk.new)) (D.state disk.new).may_leave) }
    ensures reads { Tells (D.state disk.old) → (D.state disk.old).may_leave (bytes_of (D.state disk.old)) }
    ensures flushes { Tells (D.state disk.old) → Adds (D.state disk.old) (D.state disk.new) }
    ensures noted { Tells (D.state disk.old) → OnOk result ((D.state disk.new).flushes ≡ (D.state disk.old).flushes ++ (D.state disk.new).moment ∷ []) }
    ensures cause { HasCause (D.faults disk.old) (D.faults disk.new) result }
{
    put(disk, slot_place(group) + GATE, &[CLOSED])
}

/// Closes a group of the ring, and strikes it off the list.
fn turn<D: Disk>(disk: &mut D, groups: &mut [Option<Group>], group: Group) -> Result<(), Failed>
    requires { length groups.old ≡ 128 }
    ensures any_moment { (opened : Uber) (start : List ℕ) → IsTurning opened start (D.state disk.old) groups.old group → LeavesOnly (D.state disk.old) (D.state disk.new) (IsRewinding opened start) }
    ensures turned { (opened : Uber) (start : List ℕ) → IsTurning opened start (D.state disk.old) groups.old group → OnOk result (IsTurned opened start (D.state disk.new) groups.new) }
    ensures struck { OnOk result (groups.new ≡ slice_set groups.old (group.0 % 128) None) }
    ensures tells { Tells (D.state disk.old) → Tells (D.state disk.new) }
    ensures flushes { Tells (D.state disk.old) → Adds (D.state disk.old) (D.state disk.new) }
    ensures noted { Tells (D.state disk.old) → OnOk result ((D.state disk.new).flushes ≡ (D.state disk.old).flushes ++ (D.state disk.new).moment ∷ []) }
    ensures spares { Tells (D.state disk.old) → Spares IsNoGate (D.state disk.old) (D.state disk.new) }
    ensures cause { HasCause (D.faults disk.old) (D.faults disk.new) result }
{
    close(disk, group)?;
    groups[(group.0 % 128) as usize] = None;
    Ok(())
}

/// Closes all groups of the ring but the opened one.
fn close_others<D: Disk>(
    disk: &mut D,
    groups: &mut [Option<Group>],
    opened: Group,
) -> Result<(), Failed>
    requires len { length groups.old ≡ 128 }
    requires placed { ArePlaced groups.old 128 }
    ensures any_moment { (uber : Uber) (start : List ℕ) → uber.group ≡ opened → 135168 ≤ length start → IsTurned uber start (D.state disk.old) groups.old → LeavesOnly (D.state disk.old) (D.state disk.new) (IsRewinding uber start) }
    ensures done { (uber : Uber) (start : List ℕ) → uber.group ≡ opened → 135168 ≤ length start → IsTurned uber start (D.state disk.old) groups.old → OnOk result (IsTurnedLast uber start (D.state disk.new)) }
    ensures tells { Tells (D.state disk.old) → Tells (D.state disk.new) }
    ensures flushes { Tells (D.state disk.old) → Adds (D.state disk.old) (D.state disk.new) }
    ensures closed { Tells (D.state disk.old) → OnOk result (HasClosed (others_in groups.old opened) (D.state disk.old) (D.state disk.new)) }
    ensures spares { Tells (D.state disk.old) → Spares IsNoGate (D.state disk.old) (D.state disk.new) }
    ensures cause { HasCause (D.faults disk.old) (D.faults disk.new) result }
{
    while let Some(group) = next_to_close(groups, opened) {
        turn(disk, groups, group)?;
    }
    Ok(())
}

/// Closes all groups but the opened one, once all that is read is flushed.
fn turn_ring<D: Disk>(disk: &mut D, opened: Group) -> Result<(), Failed>
    ensures any_moment { (uber : Uber) → uber.group ≡ opened → Tells (D.state disk.old) → IsRewindable uber (D.state disk.old) → LeavesOnly (D.state disk.old) (D.state disk.new) (IsRewinding uber (bytes_of (D.state disk.old))) }
    ensures done { (uber : Uber) → uber.group ≡ opened → Tells (D.state disk.old) → IsRewindable uber (D.state disk.old) → OnOk result (IsTurnedLast uber (bytes_of (D.state disk.old)) (D.state disk.new)) }
    ensures tells { Tells (D.state disk.old) → Tells (D.state disk.new) }
    ensures flushes { Tells (D.state disk.old) → Adds (D.state disk.old) (D.state disk.new) }
    ensures closed { Tells (D.state disk.old) → OnOk result (ClosesOthers opened (D.state disk.old) (D.state disk.new)) }
    ensures spares { Tells (D.state disk.old) → Spares IsNoGate (D.state disk.old) (D.state disk.new) }
    ensures cause { HasCause (D.faults disk.old) (D.faults disk.new) result }
{
    let mut groups = [None; SLOTS];
    read_ring(disk, &mut groups)?;
    close_others(disk, &mut groups, opened)
}

/// Flushes, and makes a group the only valid one.
pub(crate) fn rewind_disk<D: Disk>(disk: &mut D, opened: Group) -> Result<(), Failed>
    ensures after_first { (uber : Uber) → uber.group ≡ opened → Tells (D.state disk.old) → IsValid (bytes_of (D.state disk.old)) uber → 135168 ≤ length (bytes_of (D.state disk.old))
        → (t : ℕ) (rest : List ℕ) → (D.state disk.new).flushes ≡ (D.state disk.old).flushes ++ t ∷ rest
        → (c : List ℕ) → (D.state disk.new).left_since t c → IsRewinding uber (bytes_of (D.state disk.old)) c }
    ensures done { (uber : Uber) → uber.group ≡ opened → Tells (D.state disk.old) → IsValid (bytes_of (D.state disk.old)) uber → 135168 ≤ length (bytes_of (D.state disk.old))
        → OnOk result (IsTurnedLast uber (bytes_of (D.state disk.old)) (D.state disk.new)) }
    ensures flushed { Tells (D.state disk.old) → OnOk result (HasFlush (D.state disk.old) (D.state disk.new)) }
    ensures ends { (uber : Uber) → uber.group ≡ opened → Tells (D.state disk.old) → IsValid (bytes_of (D.state disk.old)) uber → 135168 ≤ length (bytes_of (D.state disk.old))
        → OnOk result (EndsRewound uber (D.state disk.old) (D.state disk.new)) }
    ensures spares { Tells (D.state disk.old) → Spares IsNoGate (D.state disk.old) (D.state disk.new) }
    ensures tells { Tells (D.state disk.old) → Tells (D.state disk.new) }
    ensures cause { HasCause (D.faults disk.old) (D.faults disk.new) result }
{
    disk.flush()?;
    turn_ring(disk, opened)
}
