// Laying down the next group: its words and its table, before it is made openable.
ghost use Rattle.std.specs.Prelude.{◌≡◌, ℕ, [], ◌+◌, ◌*◌, ◌^◌, ◌<◌, ◌≤◌, if◌then◌else◌, length, drop, OnOk, IfOk, IfErr, IsErrOf};
ghost use Rattle.std.specs.List.{All};
ghost use Rattle.zms_dev.specs.Bytes.{Outside};
ghost use Rattle.zms_dev.specs.Causes.{one_more};
ghost use Rattle.zms_dev.specs.Disk.{Tells, bytes_of, Only};
ghost use Rattle.zms_dev.specs.Runs.{Spares, Untouched};
ghost use Rattle.zms_units.specs.declared.places.MsId.{MsId};
ghost use Rattle.vdev_map.specs.Numbers.{IsIn, number_of};
ghost use Rattle.vdev_map.specs.Places.{len_of};
ghost use Rattle.vdev_map.specs.Tables.{IsTable, ms_row_at};
ghost use Rattle.vdev_map.specs.declared.places.Piece.TheVariants.{WholeSlot};
ghost use Rattle.vdev_map.specs.declared.table.Table.{Table};
ghost use Rattle.meta_store.specs.Batches.{IsBatch, AreInOrder, AreBatches};
ghost use Rattle.meta_store.specs.CommitFaults.{IsCommitFault};
ghost use Rattle.meta_store.specs.Heads.{IsWholeLimits};
ghost use Rattle.meta_store.specs.NextGroups.{OffWords, IsSpared, KeepsWords, IsNextTable, IsNextGroup, IsLaid};
ghost use Rattle.meta_store.specs.NextRows.{AreNextRows, HasNextRows, IsRest, is_first_of};
ghost use Rattle.meta_store.specs.NextWords.{allocs_of, frees_of, AreChanges, AreNextWords, side_place, HasNextWords, IsNextRow};
ghost use Rattle.meta_store.specs.Words.{row_of, units_of};
ghost use Rattle.uber_ring.specs.Writes.{Flushes};

use crate::CommitFault;
use crate::condensing::{free_runs, side_words};
use crate::finding::{find, row_at, units_at};
use crate::side_bytes::write_words;
use std::alloc::{AllocError, Global};
use uber_ring::{Uber, write_table};
use vdev_map::{Batch, Head, MsRow, Piece, Table, id_of, span_of};
use zms_dev::Disk;
use zms_units::{Group, Items, MsId, Seg, unit_count};

/// The next group: its table, and the uberblock that names it.
#[derive(Drop)]
pub(crate) struct NextGroup {
    pub(crate) table: Table,
    pub(crate) uber: Uber,
}

/// The words of a metaslab in the next group, from those of the table's group, which are read again. Linear in the words
/// and the units.
fn next_words<D: Disk>(
    alloc: Global,
    disk: &mut D,
    head: &Head,
    table: &Table,
    group: Group,
    id: MsId,
    allocs: &[Seg],
    frees: &[Seg],
) -> Result<Vec<u64>, CommitFault>
    requires head { IsWholeLimits head.now }
    requires table { IsTable head.now table.now }
    requires group { group.0 < 2 ^ 50 }
    requires id { IsIn table.now.vdevs id }
    requires changes { AreChanges table.now id allocs.now frees.now }
    ensures words { Tells (D.state disk.old) → IfOk result (λ words. AreNextWords (bytes_of (D.state disk.old)) table.now group.0 id allocs.now frees.now words.items) }
    ensures some { IfOk result (λ words. 0 < length words.items) }
    ensures room { IfOk result (λ words. length words.items ≤ units_of table.now id + 64) }
    ensures fault { Tells (D.state disk.old) → IfErr result (IsCommitFault (bytes_of (D.state disk.old)) table.now) }
    ensures rests { Tells (D.state disk.old) → Untouched (D.state disk.old) (D.state disk.new) }
    ensures steady { (IsErrOf result CommitFault.Failed → ⊥) → D.faults disk.new ≡ D.faults disk.old }
    ensures failed { IsErrOf result CommitFault.Failed → D.faults disk.new ≡ one_more (D.faults disk.old) }
{
    let held = find(alloc, disk, head, table, id)?;
    let units = units_at(table, id);
    let free = free_runs(alloc, &held, allocs, frees, units)?;
    let words = side_words(alloc, group, units, &free)?;
    Ok(words)
}

/// The row of a metaslab in the next group's table.
fn next_row(
    head: &Head,
    table: &Table,
    group: Group,
    id: MsId,
    allocs: &[Seg],
    frees: &[Seg],
    words: &[u64],
) -> MsRow
    requires table { IsTable head.now table.now }
    requires group { group.0 < 2 ^ 50 }
    requires id { IsIn table.now.vdevs id }
    requires changes { AreChanges table.now id allocs.now frees.now }
    requires words { length words.now ≤ units_of table.now id + 64 }
    ensures row { IsNextRow table.now group.0 id allocs.now frees.now result }
    ensures words { result.words ≡ length words.now }
{
    let row = row_at(head, table, id);
    let grown = row.held + u64::from(unit_count(allocs));
    MsRow {
        place: row.place,
        words: words.len() as u64,
        unflushed: Group(group.0 + 1),
        held: grown - u64::from(unit_count(frees)),
        side: 0,
    }
}

/// Writes the words of a metaslab in the next group, and answers the row that names them. Does not flush.
fn write_side<D: Disk>(
    alloc: Global,
    disk: &mut D,
    head: &Head,
    table: &Table,
    group: Group,
    id: MsId,
    allocs: &[Seg],
    frees: &[Seg],
) -> Result<MsRow, CommitFault>
    requires head { IsWholeLimits head.now }
    requires table { IsTable head.now table.now }
    requires group { group.0 < 2 ^ 50 }
    requires id { IsIn table.now.vdevs id }
    requires changes { AreChanges table.now id allocs.now frees.now }
    ensures row { IfOk result (IsNextRow table.now group.0 id allocs.now frees.now) }
    ensures words { Tells (D.state disk.old) → IfOk result (λ row. HasNextWords (bytes_of (D.state disk.old)) (bytes_of (D.state disk.new)) head.now table.now group id allocs.now frees.now row.words) }
    ensures fault { Tells (D.state disk.old) → IfErr result (IsCommitFault (bytes_of (D.state disk.old)) table.now) }
    ensures spares { Tells (D.state disk.old) → Spares (Outside (side_place head.now table.now id group) (len_of head.now table.now.vdevs (WholeSlot id group))) (D.state disk.old) (D.state disk.new) }
    ensures flushes { Tells (D.state disk.old) → (D.state disk.new).flushes ≡ (D.state disk.old).flushes }
    ensures steady { (IsErrOf result CommitFault.Failed → ⊥) → D.faults disk.new ≡ D.faults disk.old }
    ensures failed { IsErrOf result CommitFault.Failed → D.faults disk.new ≡ one_more (D.faults disk.old) }
{
    let words = next_words(alloc, disk, head, table, group, id, allocs, frees)?;
    let span = span_of(head, table.vdevs.as_slice(), Piece::WholeSlot(id, group));
    write_words(alloc, disk, span.at, &words)?;
    Ok(next_row(head, table, group, id, allocs, frees, &words))
}

/// Whether the batch at a place is that of a metaslab.
fn is_next(batches: &[Batch], next: usize, id: MsId) -> bool
    ensures { result ≡ is_first_of (drop next batches.now) id }
{
    next < batches.len() && batches[next].id.vdev == id.vdev && batches[next].id.index == id.index
}

/// Writes the words of a metaslab in the next group, with its batch if it has one, which then is the next.
fn write_next<D: Disk>(
    alloc: Global,
    disk: &mut D,
    head: &Head,
    table: &Table,
    group: Group,
    id: MsId,
    batches: &[Batch],
    next: usize,
) -> Result<MsRow, CommitFault>
    requires head { IsWholeLimits head.now }
    requires table { IsTable head.now table.now }
    requires group { group.0 < 2 ^ 50 }
    requires id { IsIn table.now.vdevs id }
    requires batches { AreBatches table.now batches.now }
    requires next { IsRest table.now.vdevs batches.now (number_of table.now.vdevs id) next }
    ensures row { IfOk result (IsNextRow table.now group.0 id (allocs_of batches.now id) (frees_of batches.now id)) }
    ensures words { Tells (D.state disk.old) → IfOk result (λ row. HasNextWords (bytes_of (D.state disk.old)) (bytes_of (D.state disk.new)) head.now table.now group id (allocs_of batches.now id) (frees_of batches.now id) row.words) }
    ensures fault { Tells (D.state disk.old) → IfErr result (IsCommitFault (bytes_of (D.state disk.old)) table.now) }
    ensures spares { Tells (D.state disk.old) → Spares (Outside (side_place head.now table.now id group) (len_of head.now table.now.vdevs (WholeSlot id group))) (D.state disk.old) (D.state disk.new) }
    ensures flushes { Tells (D.state disk.old) → (D.state disk.new).flushes ≡ (D.state disk.old).flushes }
    ensures steady { (IsErrOf result CommitFault.Failed → ⊥) → D.faults disk.new ≡ D.faults disk.old }
    ensures failed { IsErrOf result CommitFault.Failed → D.faults disk.new ≡ one_more (D.faults disk.old) }
{
    if is_next(batches, next, id) {
        let batch = &batches[next];
        write_side(
            alloc,
            disk,
            head,
            table,
            group,
            id,
            batch.allocs.as_slice(),
            batch.frees.as_slice(),
        )
    } else {
        write_side(alloc, disk, head, table, group, id, &[], &[])
    }
}

/// The place of the batch that follows, once a metaslab is done.
fn after_next(batches: &[Batch], next: usize, id: MsId) -> usize
    ensures { result ≡ (if is_first_of (drop next batches.now) id then next + 1 else next) }
{
    if is_next(batches, next, id) {
        next + 1
    } else {
        next
    }
}

/// Writes the words of each metaslab in the next group, in order. Does not flush.
fn write_sides<D: Disk>(
    alloc: Global,
    disk: &mut D,
    head: &Head,
    table: &Table,
    group: Group,
    batches: &[Batch],
) -> Result<Vec<MsRow>, CommitFault>
    requires head { IsWholeLimits head.now }
    requires table { IsTable head.now table.now }
    requires group { group.0 < 2 ^ 50 }
    requires batches { AreBatches table.now batches.now }
    ensures rows { IfOk result (λ rows. AreNextRows table.now group.0 batches.now (length table.now.rows) rows.items) }
    ensures words { Tells (D.state disk.old) → KeepsWords (bytes_of (D.state disk.old)) head.now table.now group
        → IfOk result (λ rows. HasNextRows (bytes_of (D.state disk.old)) (bytes_of (D.state disk.new)) head.now table.now group batches.now (length table.now.rows) rows.items) }
    ensures fault { Tells (D.state disk.old) → KeepsWords (bytes_of (D.state disk.old)) head.now table.now group → IfErr result (IsCommitFault (bytes_of (D.state disk.old)) table.now) }
    ensures spares { Tells (D.state disk.old) → Spares (OffWords head.now table.now.vdevs group) (D.state disk.old) (D.state disk.new) }
    ensures flushes { Tells (D.state disk.old) → (D.state disk.new).flushes ≡ (D.state disk.old).flushes }
    ensures steady { (IsErrOf result CommitFault.Failed → ⊥) → D.faults disk.new ≡ D.faults disk.old }
    ensures failed { IsErrOf result CommitFault.Failed → D.faults disk.new ≡ one_more (D.faults disk.old) }
{
    let mut rows = Vec::new(alloc);
    let mut next = 0;
    for number in 0..table.rows.len() {
        let id = id_of(table.vdevs.as_slice(), number as u32);
        let row = write_next(alloc, disk, head, table, group, id, batches, next)?;
        rows.push(row)?;
        next = after_next(batches, next, id);
    }
    Ok(rows)
}

/// The table of the next group.
fn next_table(
    alloc: Global,
    table: &Table,
    group: Group,
    rows: Vec<MsRow>,
) -> Result<Table, AllocError>
    ensures { IfOk result (λ next. next ≡ record { group = group; vdevs = table.now.vdevs; logs = []; rows = rows.items }) }
{
    let vdevs = Vec::from_slice(alloc, table.vdevs.as_slice())?;
    Ok(Table {
        group,
        vdevs: Items::from_vec(vdevs),
        logs: Items::new(alloc),
        rows: Items::from_vec(rows),
    })
}

/// Writes the words and the table of the next group. Does not flush.
fn write_group<D: Disk>(
    alloc: Global,
    disk: &mut D,
    head: &Head,
    table: &Table,
    group: Group,
    batches: &[Batch],
) -> Result<NextGroup, CommitFault>
    requires head { IsWholeLimits head.now }
    requires table { IsTable head.now table.now }
    requires next { group.0 ≡ table.now.group.0 + 1 }
    requires group { group.0 < 2 ^ 50 }
    requires batches { AreBatches table.now batches.now }
    ensures next { IfOk result (IsNextGroup head.now table.now batches.now) }
    ensures group { IfOk result (λ next. next.table.group ≡ group) }
    ensures laid { Tells (D.state disk.old) → KeepsWords (bytes_of (D.state disk.old)) head.now table.now group
        → IfOk result (IsLaid (bytes_of (D.state disk.old)) (bytes_of (D.state disk.new)) head.now table.now batches.now) }
    ensures fault { Tells (D.state disk.old) → KeepsWords (bytes_of (D.state disk.old)) head.now table.now group → IfErr result (IsCommitFault (bytes_of (D.state disk.old)) table.now) }
    ensures spares { Tells (D.state disk.old) → Spares (IsSpared head.now table.now.vdevs group) (D.state disk.old) (D.state disk.new) }
    ensures flushes { Tells (D.state disk.old) → (D.state disk.new).flushes ≡ (D.state disk.old).flushes }
    ensures steady { (IsErrOf result CommitFault.Failed → ⊥) → D.faults disk.new ≡ D.faults disk.old }
    ensures failed { IsErrOf result CommitFault.Failed → D.faults disk.new ≡ one_more (D.faults disk.old) }
{
    let rows = write_sides(alloc, disk, head, table, group, batches)?;
    let next = next_table(alloc, table, group, rows)?;
    let uber = write_table(alloc, disk, &next)?;
    Ok(NextGroup { table: next, uber })
}

/// Writes the words and the table of the next group, and flushes: a stop then leaves them, and its slot may be written.
pub(crate) fn lay_down<D: Disk>(
    alloc: Global,
    disk: &mut D,
    head: &Head,
    table: &Table,
    group: Group,
    batches: &[Batch],
) -> Result<NextGroup, CommitFault>
    requires head { IsWholeLimits head.now }
    requires table { IsTable head.now table.now }
    requires next { group.0 ≡ table.now.group.0 + 1 }
    requires group { group.0 < 2 ^ 50 }
    requires batches { AreBatches table.now batches.now }
    ensures next { IfOk result (IsNextGroup head.now table.now batches.now) }
    ensures group { IfOk result (λ next. next.table.group ≡ group) }
    ensures laid { Tells (D.state disk.old) → KeepsWords (bytes_of (D.state disk.old)) head.now table.now group
        → IfOk result (IsLaid (bytes_of (D.state disk.old)) (bytes_of (D.state disk.new)) head.now table.now batches.now) }
    ensures durable { Tells (D.state disk.old) → OnOk result (Only (bytes_of (D.state disk.new)) (D.state disk.new).may_leave) }
    ensures fault { Tells (D.state disk.old) → KeepsWords (bytes_of (D.state disk.old)) head.now table.now group → IfErr result (IsCommitFault (bytes_of (D.state disk.old)) table.now) }
    ensures spares { Tells (D.state disk.old) → Spares (IsSpared head.now table.now.vdevs group) (D.state disk.old) (D.state disk.new) }
    ensures flushes { Tells (D.state disk.old) → Flushes 1 (D.state disk.old) (D.state disk.new) }
    ensures steady { (IsErrOf result CommitFault.Failed → ⊥) → D.faults disk.new ≡ D.faults disk.old }
    ensures failed { IsErrOf result CommitFault.Failed → D.faults disk.new ≡ one_more (D.faults disk.old) }
{
    let next = write_group(alloc, disk, head, table, group, batches)?;
    disk.flush()?;
    Ok(next)
}
