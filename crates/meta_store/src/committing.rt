// Making the next group openable.
ghost use Rattle.std.specs.Prelude.{◌≡◌, ℕ, ◌+◌, ◌^◌, ◌<◌, List, OnOk, OnErr, IfOk, IfErr, IsErrOf};
ghost use Rattle.zms_dev.specs.Causes.{one_more};
ghost use Rattle.zms_dev.specs.Disk.{Tells, bytes_of};
ghost use Rattle.zms_dev.specs.Runs.{LeavesOnly, Spares};
ghost use Rattle.uber_ring.specs.Writes.{Flushes};
ghost use Rattle.meta_store.specs.Batches.{AreBatches, AreBacked};
ghost use Rattle.meta_store.specs.CommitFaults.{IsCommitFailure};
ghost use Rattle.meta_store.specs.Commits.{IsBeforeOrAfter, IsCommitted};
ghost use Rattle.meta_store.specs.Groups.{Contents, Finds};
ghost use Rattle.meta_store.specs.Heads.{head_of};
ghost use Rattle.meta_store.specs.NextGroups.{IsLeft, IsNextTable};
ghost use Rattle.meta_store.specs.Stores.{IsStore, IsAtRest};

use crate::CommitFault;
use crate::laying::lay_down;
use crate::store::head_for;
use std::alloc::Global;
use uber_ring::write_slot;
use vdev_map::{Batch, Layout, Table};
use zms_dev::Disk;
use zms_units::Group;

/// Commits the group after that of a table, and answers its table.
pub(crate) fn commit_group<D: Disk>(
    alloc: Global,
    disk: &mut D,
    layout: &Layout,
    table: &Table,
    batches: &[Batch],
) -> Result<Table, CommitFault>
    requires store { IsStore layout.now table.now }
    requires group { table.now.group.0 + 1 < 2 ^ 50 }
    requires batches { AreBatches table.now batches.now }
    ensures any_moment { IsAtRest (D.state disk.old) layout.now table.now
        → LeavesOnly (D.state disk.old) (D.state disk.new) (IsBeforeOrAfter (D.state disk.old) table.now.group.0 batches.now) }
    ensures done { IsAtRest (D.state disk.old) layout.now table.now
        → OnOk result ((c : List ℕ) → (D.state disk.new).may_leave c → IsCommitted (D.state disk.old) table.now.group.0 batches.now c) }
    ensures at_rest { IsAtRest (D.state disk.old) layout.now table.now → (contents : Contents) → Finds (bytes_of (D.state disk.old)) table.now.group.0 contents → AreBacked contents batches.now
        → IfOk result (IsAtRest (D.state disk.new) layout.now) }
    ensures memory { IsAtRest (D.state disk.old) layout.now table.now → IsErrOf result CommitFault.Memory → IsAtRest (D.state disk.new) layout.now table.now }
    ensures honest { IsAtRest (D.state disk.old) layout.now table.now → IfErr result IsCommitFailure }
    ensures table { IfOk result (IsNextTable (head_of layout.now) table.now batches.now) }
    ensures spares { Tells (D.state disk.old) → Spares (IsLeft (head_of layout.now) table.now.vdevs (table.now.group.0 + 1)) (D.state disk.old) (D.state disk.new) }
    ensures tells { Tells (D.state disk.old) → Tells (D.state disk.new) }
    ensures flushes { Tells (D.state disk.old) → Flushes 4 (D.state disk.old) (D.state disk.new) }
    ensures steady { (IsErrOf result CommitFault.Failed → ⊥) → D.faults disk.new ≡ D.faults disk.old }
    ensures failed { IsErrOf result CommitFault.Failed → D.faults disk.new ≡ one_more (D.faults disk.old) }
{
    let head = head_for(layout);
    let group = Group(table.group.0 + 1);
    let next = lay_down(alloc, disk, &head, table, group, batches)?;
    write_slot(disk, &next.uber)?;
    Ok(next.table)
}
