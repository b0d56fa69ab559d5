// Making a pool on a device that has none.
ghost use Rattle.std.specs.Prelude.{◌≡◌, ◌≤◌, ◌∷◌, [], ◌++◌, ℕ, List, length, OnOk, OnErr, IfOk, IfErr, IsErrOf};
ghost use Rattle.zms_dev.specs.Bytes.{Outside, byte};
ghost use Rattle.zms_dev.specs.Causes.{one_more, HasCause};
ghost use Rattle.zms_dev.specs.Disk.{Tells, bytes_of, Only};
ghost use Rattle.zms_dev.specs.Runs.{LeavesOnly, Spares, Untouched};
ghost use Rattle.vdev_map.specs.Limits.{IsLayout, AreVdevs, IsHead};
ghost use Rattle.vdev_map.specs.Numbers.{metaslabs_in};
ghost use Rattle.uber_ring.specs.Slots.{IsUber, IsValid, HasNone};
ghost use Rattle.uber_ring.specs.Writes.{Flushes};
ghost use Rattle.uber_ring.specs.declared.slot.Uber.{Uber};
ghost use Rattle.meta_store.specs.Creates.{IsCreateFault, IsCreateFailure, IsUnmadeOrNew, IsNoneOrNew, IsMade, IsUnmade, IsLeftByCreate, IsFirstTable};
ghost use Rattle.meta_store.specs.FirstGroups.{AreFirstRows, IsWiped, IsLaidFirst, IsOffFirst, IsFilling, IsMaking};
ghost use Rattle.meta_store.specs.Heads.{head_bytes, head_of, IsWholeHead, IsWholeLimits};
ghost use Rattle.meta_store.specs.Rewinds.{HasFlush};

use crate::CreateFault;
use crate::store::head_for;
use std::alloc::{AllocError, Global};
use uber_ring::{Uber, head_bytes, newest, write_slot, write_table};
use vdev_map::{Head, Layout, MsRow, Table, id_of, row_place};
use zms_dev::{Disk, Failed, put};
use zms_units::{Group, Items, VdevRow};

/// The length of the head and the ring.
const FRONT_LEN: usize = 135_168;

/// The first group.
const FIRST: Group = Group(4);

/// How many metaslabs there are in all.
fn count_metaslabs(vdevs: &[VdevRow]) -> u32
    requires { length vdevs.now ≤ 16 }
    ensures { result ≡ metaslabs_in vdevs.now }
{
    let mut metaslabs = 0;
    for row in vdevs {
        metaslabs += u32::from(row.metaslabs);
    }
    metaslabs
}

/// The rows of the first group's table, in order: no metaslab has words.
fn first_rows(alloc: Global, head: &Head, vdevs: &[VdevRow]) -> Result<Vec<MsRow>, AllocError>
    requires head { IsWholeLimits head.now }
    requires vdevs { AreVdevs vdevs.now }
    ensures { IfOk result (λ rows. AreFirstRows head.now vdevs.now (metaslabs_in vdevs.now) rows.items) }
{
    let mut rows = Vec::new(alloc);
    for number in 0..count_metaslabs(vdevs) {
        let id = id_of(vdevs, number);
        rows.push(MsRow {
            place: row_place(head, vdevs, id),
            words: 0,
            unflushed: Group(FIRST.0 + 1),
            held: 0,
            side: 0,
        })?;
    }
    Ok(rows)
}

/// The table of the first group.
fn first_table(alloc: Global, layout: &Layout) -> Result<Table, AllocError>
    requires { IsLayout layout.now }
    ensures { IfOk result (IsFirstTable layout.now) }
{
    let rows = first_rows(alloc, &head_for(layout), layout.vdevs.as_slice())?;
    let vdevs = Vec::from_slice(alloc, layout.vdevs.as_slice())?;
    Ok(Table {
        group: FIRST,
        vdevs: Items::from_vec(vdevs),
        logs: Items::new(alloc),
        rows: Items::from_vec(rows),
    })
}

/// Zeros for the head and the ring.
fn front_zeros(alloc: Global) -> Result<Vec<u8>, AllocError>
    ensures len { IfOk result (λ zeros. length zeros.items ≡ 135168) }
    ensures zeros { IfOk result (λ zeros. (p : ℕ) → byte zeros.items p ≡ 0) }
{
    let mut zeros = Vec::new(alloc);
    zeros.resize(FRONT_LEN, 0)?;
    Ok(zeros)
}

/// Writes zeros over the head and the ring, and flushes: no slot is valid then.
fn wipe<D: Disk>(disk: &mut D, zeros: &[u8]) -> Result<(), Failed>
    requires len { length zeros.now ≡ 135168 }
    requires zeros { (p : ℕ) → byte zeros.now p ≡ 0 }
    ensures wiped { Tells (D.state disk.old) → OnOk result (IsWiped (D.state disk.new)) }
    ensures spares { Tells (D.state disk.old) → Spares (Outside 0 135168) (D.state disk.old) (D.state disk.new) }
    ensures noted { Tells (D.state disk.old) → OnOk result ((D.state disk.new).flushes ≡ (D.state disk.old).flushes ++ (D.state disk.new).moment ∷ []) }
    ensures unnoted { Tells (D.state disk.old) → OnErr result ((D.state disk.new).flushes ≡ (D.state disk.old).flushes) }
    ensures cause { HasCause (D.faults disk.old) (D.faults disk.new) result }
{
    put(disk, 0, zeros)
}

/// Writes the head, and flushes.
fn write_head<D: Disk>(disk: &mut D, head: &Head) -> Result<(), Failed>
    requires { IsWholeLimits head.now }
    ensures head { Tells (D.state disk.old) → OnOk result (IsWholeHead (head_bytes (bytes_of (D.state disk.new))) head.now) }
    ensures durable { Tells (D.state disk.old) → OnOk result (Only (bytes_of (D.state disk.new)) (D.state disk.new).may_leave) }
    ensures spares { Tells (D.state disk.old) → Spares (Outside 0 64) (D.state disk.old) (D.state disk.new) }
    ensures flushes { Tells (D.state disk.old) → Flushes 1 (D.state disk.old) (D.state disk.new) }
    ensures cause { HasCause (D.faults disk.old) (D.faults disk.new) result }
{
    put(disk, 0, &head_bytes(head))
}

/// Writes the table of the first group and the head, and flushes.
fn lay_first<D: Disk>(
    alloc: Global,
    disk: &mut D,
    layout: &Layout,
    table: &Table,
) -> Result<Uber, CreateFault>
    requires layout { IsLayout layout.now }
    requires table { IsFirstTable layout.now table.now }
    ensures laid { Tells (D.state disk.old) → IfOk result (IsLaidFirst (bytes_of (D.state disk.new)) (head_of layout.now) table.now) }
    ensures limits { IfOk result (λ uber. IsUber uber) }
    ensures group { IfOk result (λ uber. uber.group.0 ≡ 4) }
    ensures durable { Tells (D.state disk.old) → OnOk result (Only (bytes_of (D.state disk.new)) (D.state disk.new).may_leave) }
    ensures spares { Tells (D.state disk.old) → Spares IsOffFirst (D.state disk.old) (D.state disk.new) }
    ensures flushes { Tells (D.state disk.old) → Flushes 1 (D.state disk.old) (D.state disk.new) }
    ensures memory { Tells (D.state disk.old) → IsErrOf result CreateFault.Memory → Untouched (D.state disk.old) (D.state disk.new) }
    ensures steady { (IsErrOf result CreateFault.Failed → ⊥) → D.faults disk.new ≡ D.faults disk.old }
    ensures failed { IsErrOf result CreateFault.Failed → D.faults disk.new ≡ one_more (D.faults disk.old) }
    ensures err { IfErr result IsCreateFailure }
{
    let uber = write_table(alloc, disk, table)?;
    write_head(disk, &head_for(layout))?;
    Ok(uber)
}

/// Makes the first group openable on a device whose head and ring are wiped.
fn fill<D: Disk>(
    alloc: Global,
    disk: &mut D,
    layout: &Layout,
    table: &Table,
) -> Result<(), CreateFault>
    requires layout { IsLayout layout.now }
    requires table { IsFirstTable layout.now table.now }
    ensures filling { Tells (D.state disk.old) → IsFilling (D.state disk.old) (D.state disk.new) layout.now }
    ensures done { Tells (D.state disk.old) → IsWiped (D.state disk.old) → OnOk result (IsMade (D.state disk.new) layout.now) }
    ensures memory { Tells (D.state disk.old) → IsErrOf result CreateFault.Memory → Untouched (D.state disk.old) (D.state disk.new) }
    ensures steady { (IsErrOf result CreateFault.Failed → ⊥) → D.faults disk.new ≡ D.faults disk.old }
    ensures failed { IsErrOf result CreateFault.Failed → D.faults disk.new ≡ one_more (D.faults disk.old) }
    ensures err { IfErr result IsCreateFailure }
{
    let uber = lay_first(alloc, disk, layout, table)?;
    write_slot(disk, &uber)?;
    Ok(())
}

/// Wipes the head and the ring, and makes the first group openable.
fn wipe_and_fill<D: Disk>(
    alloc: Global,
    disk: &mut D,
    layout: &Layout,
    table: &Table,
    zeros: &[u8],
) -> Result<(), CreateFault>
    requires layout { IsLayout layout.now }
    requires table { IsFirstTable layout.now table.now }
    requires len { length zeros.now ≡ 135168 }
    requires zeros { (p : ℕ) → byte zeros.now p ≡ 0 }
    ensures making { Tells (D.state disk.old) → IsMaking (D.state disk.old) (D.state disk.new) layout.now }
    ensures done { Tells (D.state disk.old) → OnOk result (IsMade (D.state disk.new) layout.now) }
    ensures flushed { Tells (D.state disk.old) → OnOk result (HasFlush (D.state disk.old) (D.state disk.new)) }
    ensures memory { Tells (D.state disk.old) → IsErrOf result CreateFault.Memory → IsUnmade (D.state disk.old) (D.state disk.new) }
    ensures steady { (IsErrOf result CreateFault.Failed → ⊥) → D.faults disk.new ≡ D.faults disk.old }
    ensures failed { IsErrOf result CreateFault.Failed → D.faults disk.new ≡ one_more (D.faults disk.old) }
    ensures err { IfErr result IsCreateFailure }
{
    wipe(disk, zeros)?;
    fill(alloc, disk, layout, table)
}

/// Makes a pool on a device that was found to have none. Memory is taken for the table and the zeros before the device is
/// touched.
fn make<D: Disk>(alloc: Global, disk: &mut D, layout: &Layout) -> Result<(), CreateFault>
    requires layout { IsLayout layout.now }
    ensures making { Tells (D.state disk.old) → IsMaking (D.state disk.old) (D.state disk.new) layout.now }
    ensures done { Tells (D.state disk.old) → OnOk result (IsMade (D.state disk.new) layout.now) }
    ensures flushed { Tells (D.state disk.old) → OnOk result (HasFlush (D.state disk.old) (D.state disk.new)) }
    ensures memory { Tells (D.state disk.old) → HasNone (bytes_of (D.state disk.old)) → IsErrOf result CreateFault.Memory → IsUnmade (D.state disk.old) (D.state disk.new) }
    ensures steady { (IsErrOf result CreateFault.Failed → ⊥) → D.faults disk.new ≡ D.faults disk.old }
    ensures failed { IsErrOf result CreateFault.Failed → D.faults disk.new ≡ one_more (D.faults disk.old) }
    ensures err { IfErr result IsCreateFailure }
{
    let table = first_table(alloc, layout)?;
    let zeros = front_zeros(alloc)?;
    wipe_and_fill(alloc, disk, layout, &table, &zeros)
}

/// Makes a pool, unless a slot is valid.
fn make_if_none<D: Disk>(alloc: Global, disk: &mut D, layout: &Layout) -> Result<(), CreateFault>
    requires layout { IsLayout layout.now }
    ensures fault { Tells (D.state disk.old) → IfErr result (IsCreateFault (bytes_of (D.state disk.old))) }
    ensures none { Tells (D.state disk.old) → OnOk result (HasNone (bytes_of (D.state disk.old))) }
    ensures pool { (uber : Uber) → Tells (D.state disk.old) → IsValid (bytes_of (D.state disk.old)) uber → Untouched (D.state disk.old) (D.state disk.new) }
    ensures making { Tells (D.state disk.old) → IsMaking (D.state disk.old) (D.state disk.new) layout.now }
    ensures done { Tells (D.state disk.old) → OnOk result (IsMade (D.state disk.new) layout.now) }
    ensures flushed { Tells (D.state disk.old) → OnOk result (HasFlush (D.state disk.old) (D.state disk.new)) }
    ensures memory { Tells (D.state disk.old) → IsErrOf result CreateFault.Memory → IsUnmade (D.state disk.old) (D.state disk.new) }
    ensures steady { (IsErrOf result CreateFault.Failed → ⊥) → D.faults disk.new ≡ D.faults disk.old }
    ensures failed { IsErrOf result CreateFault.Failed → D.faults disk.new ≡ one_more (D.faults disk.old) }
{
    match newest(disk)? {
        Some(uber) => Err(CreateFault::AlreadyPool { newest: uber.group }),
        None => make(alloc, disk, layout),
    }
}

/// Makes a pool of a layout on a device that has none: zeros are written over the head and the ring, and flushed; then
/// the table of the first group, 4, of which no metaslab holds anything, and the head, and flushed; and then the slot of
/// that group, as a commit writes it. After OpenZFS's `spa_create`.
///
/// `AlreadyPool` comes exactly where a slot of the device is valid, and then nothing is written. A stop before the first
/// flush went well may leave anything of the head and the ring; one at each moment after it leaves no valid slot, or the
/// new pool. After `Memory` the same pool may be made again. Linear in the metaslabs; at most five flushes.
pub fn create<D: Disk>(alloc: Global, disk: D, layout: &Layout) -> (D, Result<(), CreateFault>)
    requires { IsLayout layout.now }
    // A pool is refused exactly where a slot is valid.
    ensures fault { Tells (D.state disk) → IfErr result.1 (IsCreateFault (bytes_of (D.state disk))) }
    ensures none { Tells (D.state disk) → OnOk result.1 (HasNone (bytes_of (D.state disk))) }
    // And then nothing is written, whatever the answer.
    ensures pool { (uber : Uber) → Tells (D.state disk) → IsValid (bytes_of (D.state disk)) uber → Untouched (D.state disk) (D.state result.0) }
    ensures any_moment { Tells (D.state disk) → LeavesOnly (D.state disk) (D.state result.0) (IsUnmadeOrNew (D.state disk) layout.now) }
    // From the first flush that succeeded on, at each moment.
    ensures after_first { Tells (D.state disk) → (t : ℕ) (rest : List ℕ) → (D.state result.0).flushes ≡ (D.state disk).flushes ++ t ∷ rest
        → (c : List ℕ) → (D.state result.0).left_since t c → IsNoneOrNew layout.now c }
    ensures done { Tells (D.state disk) → OnOk result.1 (IsMade (D.state result.0) layout.now) }
    ensures flushed { Tells (D.state disk) → OnOk result.1 (HasFlush (D.state disk) (D.state result.0)) }
    ensures memory { Tells (D.state disk) → IsErrOf result.1 CreateFault.Memory → IsUnmade (D.state disk) (D.state result.0) }
    // Nothing beside the head, the ring and the first table is touched, at any moment.
    ensures spares { Tells (D.state disk) → Spares IsLeftByCreate (D.state disk) (D.state result.0) }
    ensures tells { Tells (D.state disk) → Tells (D.state result.0) }
    ensures flushes { Tells (D.state disk) → Flushes 5 (D.state disk) (D.state result.0) }
    ensures steady { (IsErrOf result.1 CreateFault.Failed → ⊥) → D.faults result.0 ≡ D.faults disk }
    ensures failed { IsErrOf result.1 CreateFault.Failed → D.faults result.0 ≡ one_more (D.faults disk) }
{
    let mut disk = disk;
    let made = make_if_none(alloc, &mut disk, layout);
    (disk, made)
}
