// Opening a device at a group.
ghost use Rattle.std.specs.Prelude.{◌≡◌, ℕ, ◌+◌, ◌<◌, ◌≤◌, length, Some, IfOk, IfErr, IsErrOf, OnOk, MatchResult};
ghost use Rattle.zms_units.specs.Limits.{GROUPS_END};
ghost use Rattle.zms_dev.specs.Causes.{one_more};
ghost use Rattle.zms_dev.specs.Disk.{Tells, bytes_of};
ghost use Rattle.zms_dev.specs.Runs.{Untouched};
ghost use Rattle.zms_units.specs.declared.places.MsId.{MsId};
ghost use Rattle.vdev_map.specs.Numbers.{IsIn};
ghost use Rattle.vdev_map.specs.Limits.{IsLayout};
ghost use Rattle.vdev_map.specs.Tables.{IsTable};
ghost use Rattle.uber_ring.specs.Slots.{IsUber, IsNewest, IsValid};
ghost use Rattle.uber_ring.specs.TableFields.{HasTable};
ghost use Rattle.meta_store.specs.Causes.{IsAsked, IsOpenFault, IsOpenFaultOf, IsMetaslabFault, IsFaultOf};
ghost use Rattle.meta_store.specs.Groups.{HasRows, IsSound, layout_of};
ghost use Rattle.meta_store.specs.Heads.{IsWholeHead, IsWholeLimits, head_bytes, head_of};
ghost use Rattle.meta_store.specs.Stores.{IsStore, IsOpened, Opens};

use crate::causes::{At, OpenCause, OpenFault};
use crate::finding::find;
use crate::heads::read_head;
use crate::store::MetaStore;
use std::alloc::{AllocError, Global};
use uber_ring::{Uber, newest, read_table, valid};
use vdev_map::{Head, Layout, Table, id_of};
use zms_dev::Disk;
use zms_units::{GROUPS_END, Group, Items};

/// What was read of the group that a device was opened at.
#[derive(Drop)]
pub(crate) struct Opened {
    pub(crate) layout: Layout,
    pub(crate) table: Table,
}

/// The uberblock of a group that is asked for by its number. At most one read.
fn read_retained<D: Disk>(disk: &mut D, asked: Group, newest: &Uber) -> Result<Uber, OpenFault>
    ensures limits { IfOk result (λ uber. IsUber uber) }
    ensures asked { Tells (D.state disk.old) → IsNewest (bytes_of (D.state disk.old)) newest.now → IfOk result (IsAsked (bytes_of (D.state disk.old)) (At.Group asked)) }
    ensures err { Tells (D.state disk.old) → IsNewest (bytes_of (D.state disk.old)) newest.now → IfErr result (IsOpenFault (bytes_of (D.state disk.old)) (At.Group asked)) }
    ensures rests { Tells (D.state disk.old) → Untouched (D.state disk.old) (D.state disk.new) }
    ensures steady { (IsErrOf result OpenFault.Failed → ⊥) → D.faults disk.new ≡ D.faults disk.old }
    ensures failed { IsErrOf result OpenFault.Failed → D.faults disk.new ≡ one_more (D.faults disk.old) }
{
    let refused = OpenFault::Cause(OpenCause::NotRetained {
        asked,
        newest: newest.group,
    });
    if newest.group.0.saturating_sub(asked.0) > 2 {
        return Err(refused);
    }
    match valid(disk, asked)? {
        Some(uber) => Ok(uber),
        None => Err(refused),
    }
}

/// The uberblock of the group that is asked for. Reads each ring slot once, and that of the group once more.
fn read_asked<D: Disk>(disk: &mut D, at: At) -> Result<Uber, OpenFault>
    ensures limits { IfOk result (λ uber. IsUber uber) }
    ensures asked { Tells (D.state disk.old) → IfOk result (IsAsked (bytes_of (D.state disk.old)) at) }
    ensures err { Tells (D.state disk.old) → IfErr result (IsOpenFault (bytes_of (D.state disk.old)) at) }
    ensures rests { Tells (D.state disk.old) → Untouched (D.state disk.old) (D.state disk.new) }
    ensures steady { (IsErrOf result OpenFault.Failed → ⊥) → D.faults disk.new ≡ D.faults disk.old }
    ensures failed { IsErrOf result OpenFault.Failed → D.faults disk.new ≡ one_more (D.faults disk.old) }
{
    let Some(newest) = newest(disk)? else {
        return Err(OpenFault::Cause(OpenCause::NoSlot));
    };
    match at {
        At::Newest => Ok(newest),
        At::Group(asked) => read_retained(disk, asked, &newest),
    }
}

/// Tests the words of each metaslab, in order.
fn check_metaslabs<D: Disk>(
    alloc: Global,
    disk: &mut D,
    head: &Head,
    table: &Table,
) -> Result<(), OpenFault>
    requires head { IsWholeLimits head.now }
    requires table { IsTable head.now table.now }
    ensures sound { Tells (D.state disk.old) → OnOk result ((id : MsId) → IsIn table.now.vdevs id → IsSound (bytes_of (D.state disk.old)) table.now id) }
    ensures err { Tells (D.state disk.old) → IfErr result (IsMetaslabFault (bytes_of (D.state disk.old)) table.now) }
    ensures rests { Tells (D.state disk.old) → Untouched (D.state disk.old) (D.state disk.new) }
    ensures steady { (IsErrOf result OpenFault.Failed → ⊥) → D.faults disk.new ≡ D.faults disk.old }
    ensures failed { IsErrOf result OpenFault.Failed → D.faults disk.new ≡ one_more (D.faults disk.old) }
{
    for number in 0..table.rows.len() {
        let id = id_of(table.vdevs.as_slice(), number as u32);
        let _runs = find(alloc, disk, head, table, id)?;
    }
    Ok(())
}

/// Reads the table of an uberblock, and tests the words that it names.
fn read_rows<D: Disk>(
    alloc: Global,
    disk: &mut D,
    uber: &Uber,
    head: &Head,
) -> Result<Table, OpenFault>
    requires uber { IsUber uber.now }
    requires early { uber.now.group.0 < GROUPS_END }
    requires head { IsWholeLimits head.now }
    ensures limits { IfOk result (λ table. IsTable head.now table) }
    ensures group { IfOk result (λ table. table.group ≡ uber.now.group) }
    ensures table { Tells (D.state disk.old) → IfOk result (HasTable (bytes_of (D.state disk.old)) head.now uber.now) }
    ensures sound { Tells (D.state disk.old) → IfOk result (λ table. (id : MsId) → IsIn table.vdevs id → IsSound (bytes_of (D.state disk.old)) table id) }
    ensures err { Tells (D.state disk.old) → IsWholeHead (head_bytes (bytes_of (D.state disk.old))) head.now → IfErr result (IsOpenFaultOf (bytes_of (D.state disk.old)) uber.now) }
    ensures rests { Tells (D.state disk.old) → Untouched (D.state disk.old) (D.state disk.new) }
    ensures steady { (IsErrOf result OpenFault.Failed → ⊥) → D.faults disk.new ≡ D.faults disk.old }
    ensures failed { IsErrOf result OpenFault.Failed → D.faults disk.new ≡ one_more (D.faults disk.old) }
{
    let table = read_table(alloc, disk, uber, head)?;
    check_metaslabs(alloc, disk, head, &table)?;
    Ok(table)
}

/// The layout that a head and a table say.
fn layout_for(alloc: Global, head: &Head, table: &Table) -> Result<Layout, AllocError>
    ensures { IfOk result (λ layout. layout ≡ layout_of head.now table.now) }
{
    let vdevs = Vec::from_slice(alloc, table.vdevs.as_slice())?;
    Ok(Layout {
        flush: head.flush,
        log: head.log,
        vdevs: Items::from_vec(vdevs),
    })
}

/// Reads what an uberblock names.
fn read_group<D: Disk>(alloc: Global, disk: &mut D, uber: &Uber) -> Result<Opened, OpenFault>
    requires { IsUber uber.now }
    ensures limits { IfOk result (λ opened. IsStore opened.layout opened.table) }
    ensures early { IfOk result (λ opened. opened.table.group.0 < GROUPS_END) }
    ensures opened { Tells (D.state disk.old) → IsValid (bytes_of (D.state disk.old)) uber.now → IfOk result (λ opened. IsOpened (bytes_of (D.state disk.old)) uber.now opened.layout opened.table) }
    ensures err { Tells (D.state disk.old) → IfErr result (IsOpenFaultOf (bytes_of (D.state disk.old)) uber.now) }
    ensures rests { Tells (D.state disk.old) → Untouched (D.state disk.old) (D.state disk.new) }
    ensures steady { (IsErrOf result OpenFault.Failed → ⊥) → D.faults disk.new ≡ D.faults disk.old }
    ensures failed { IsErrOf result OpenFault.Failed → D.faults disk.new ≡ one_more (D.faults disk.old) }
{
    if uber.group.0 >= GROUPS_END {
        return Err(OpenFault::Cause(OpenCause::Spent { group: uber.group }));
    }
    let head = read_head(disk)?;
    let table = read_rows(alloc, disk, uber, &head)?;
    let layout = layout_for(alloc, &head, &table)?;
    Ok(Opened { layout, table })
}

/// Reads the group that is asked for.
fn read_store<D: Disk>(alloc: Global, disk: &mut D, at: At) -> Result<Opened, OpenFault>
    ensures limits { IfOk result (λ opened. IsStore opened.layout opened.table) }
    ensures early { IfOk result (λ opened. opened.table.group.0 < GROUPS_END) }
    ensures opened { Tells (D.state disk.old) → IfOk result (λ opened. Opens (bytes_of (D.state disk.old)) at opened.layout opened.table) }
    ensures err { Tells (D.state disk.old) → IfErr result (IsOpenFault (bytes_of (D.state disk.old)) at) }
    ensures rests { Tells (D.state disk.old) → Untouched (D.state disk.old) (D.state disk.new) }
    ensures steady { (IsErrOf result OpenFault.Failed → ⊥) → D.faults disk.new ≡ D.faults disk.old }
    ensures failed { IsErrOf result OpenFault.Failed → D.faults disk.new ≡ one_more (D.faults disk.old) }
{
    let uber = read_asked(disk, at)?;
    read_group(alloc, disk, &uber)
}

/// Opens the pool of a device at a group: its slot, the head, its table, and the words of each metaslab are read, and each
/// is tested before the next. Nothing is written. `spa_load` does as much, and goes back to an earlier uberblock at need.
///
/// `Cause` names the first cause that the device shows, in the order of `OpenCause`. `Failed` and `Memory` come where they
/// are met, and the device is handed back. Reads each ring slot once, that of the group that is asked for once more, and of
/// the rest what the group names. Linear in the words that are read and in the units.
pub fn open<D: Disk>(alloc: Global, disk: D, at: At) -> Result<MetaStore<D>, (D, OpenFault)>
    ensures limits { IfOk result (λ store. IsStore store.layout store.table) }
    ensures early { IfOk result (λ store. store.table.group.0 < GROUPS_END) }
    ensures opened { Tells (D.state disk) → IfOk result (λ store. Opens (bytes_of (D.state disk)) at store.layout store.table) }
    ensures cause { Tells (D.state disk) → IfErr result (λ refused. IsOpenFault (bytes_of (D.state disk)) at refused.1) }
    ensures rests { Tells (D.state disk) → MatchResult result (λ store. Untouched (D.state disk) (D.state store.disk)) (λ refused. Untouched (D.state disk) (D.state refused.0)) }
    // The count of faults rises by one where the device failed, and else stays.
    ensures steady { IfOk result (λ store. D.faults store.disk ≡ D.faults disk) }
    ensures failed { IfErr result (λ refused. IsFaultOf refused.1 (D.faults disk) (D.faults refused.0)) }
{
    let mut disk = disk;
    match read_store(alloc, &mut disk, at) {
        Ok(opened) => Ok(MetaStore::from_parts(disk, opened)),
        Err(fault) => Err((disk, fault)),
    }
}
