ghost use Rattle.std.specs.Prelude.{◌≡◌, ℕ, ◌+◌, ◌^◌, ◌<◌, ◌∷◌, ◌++◌, List, IfOk, IfErr, OnOk, OnErr, IsErrOf};
ghost use Rattle.zms_units.specs.Segments.{total_of, covered};
ghost use Rattle.zms_units.specs.Runs.{AreMaximalRuns};
ghost use Rattle.zms_dev.specs.Causes.{one_more, HasCause};
ghost use Rattle.zms_dev.specs.Disk.{Tells, bytes_of};
ghost use Rattle.zms_dev.specs.Runs.{LeavesOnly, Spares, Untouched};
ghost use Rattle.vdev_map.specs.Limits.{IsLayout};
ghost use Rattle.vdev_map.specs.Numbers.{IsIn};
ghost use Rattle.meta_store.specs.Finding.{IsFoundFault};
ghost use Rattle.meta_store.specs.Heads.{head_of};
ghost use Rattle.uber_ring.specs.Writes.{Flushes};
ghost use Rattle.uber_ring.specs.declared.slot.Uber.{Uber};
ghost use Rattle.meta_store.specs.Batches.{AreBatches, AreBacked};
ghost use Rattle.meta_store.specs.CommitFaults.{IsCommitFailure};
ghost use Rattle.meta_store.specs.Commits.{IsBeforeOrAfter, IsCommitted};
ghost use Rattle.meta_store.specs.Groups.{Contents, Finds};
ghost use Rattle.meta_store.specs.NextGroups.{IsLeft, IsNextTable};
ghost use Rattle.meta_store.specs.Kept.{LiesIn};
ghost use Rattle.meta_store.specs.Rewinds.{IsRewinding, IsRewound, EndsRewound, HasFlush, IsNoGate};
ghost use Rattle.meta_store.specs.Stores.{IsStore, HasStore, IsAtRest};
ghost use Rattle.meta_store.specs.Words.{row_of, units_of, words_in, AreHeldRuns};

use crate::committing::commit_group;
use crate::finding::{find, row_at};
use crate::opening::Opened;
use crate::rewinding::rewind_disk;
use crate::{CommitFault, FoundFault};
use std::alloc::Global;
use std::marker::Model;
use vdev_map::{Batch, Form, Head, Layout, MsRow, Table};
use zms_dev::{Disk, Failed};
use zms_units::{Group, MsId, Seg};

/// A pool device that is opened at a group.
///
/// After OpenZFS's `spa_t`, as far as its space maps go.
#[derive(Debug)]
pub struct MetaStore<D> {
    disk: D,
    layout: Layout,
    // Of the group that was opened, or committed last.
    table: Table,
}

impl<D> Model for MetaStore<D> {
    ghost use Rattle.meta_store.specs.Stores.{StoreState};

    ghost Value = { StoreState D };

    ghost use Rattle.meta_store.specs.StoresInside.{store_in, HoldsTogether};

    ghost view = { store_in };

    ghost invariant = { HoldsTogether };
}

/// The head of a pool of this layout.
pub(crate) fn head_for(layout: &Layout) -> Head
    ensures { result ≡ head_of layout.now }
{
    Head {
        form: Form::Whole,
        flush: layout.flush,
        log: layout.log,
    }
}

impl<D: Disk> MetaStore<D> {
    /// A store of these parts.
    pub(crate) fn from_parts(disk: D, opened: Opened) -> Self
        requires { IsStore opened.layout opened.table }
        ensures { result ≡ record { disk = disk; layout = opened.layout; table = opened.table } }
    {
        let Opened { layout, table } = opened;
        MetaStore {
            disk,
            layout,
            table,
        }
    }

    /// How the pool is made.
    pub fn layout(&self) -> &Layout
        ensures layout { result.now ≡ self.now.layout }
        ensures limits { IsLayout result.now }
        // The table is one of a pool of this layout.
        ensures table { IsStore self.now.layout self.now.table }
    {
        &self.layout
    }

    /// The group that was opened, or committed last.
    pub fn group(&self) -> Group
        ensures group { result ≡ self.now.table.group }
    {
        self.table.group
    }

    /// The row of a metaslab in the table of that group. Linear in the vdevs.
    pub fn row(&self, id: MsId) -> &MsRow
        requires { IsIn self.now.layout.vdevs id }
        ensures { result.now ≡ row_of self.now.table id }
    {
        row_at(&head_for(&self.layout), &self.table, id)
    }

    /// The units of a metaslab that the group holds: maximal runs, rising, in units of the metaslab. They are read from the
    /// device each time, and add up to the number in the metaslab's row whatever the device does. After `space_map_load`.
    ///
    /// `Damaged` tells what the words that were read show. Linear in the words and the units.
    pub fn found(&mut self, alloc: Global, id: MsId) -> Result<Vec<Seg>, FoundFault>
        requires { IsIn self.old.layout.vdevs id }
        ensures runs { Tells (D.state self.old.disk) → IfOk result (λ runs. AreHeldRuns (words_in (bytes_of (D.state self.old.disk)) self.old.table id) (units_of self.old.table id) runs.items) }
        ensures finds { (uber : Uber) (contents : Contents) → Tells (D.state self.old.disk) → HasStore (bytes_of (D.state self.old.disk)) uber self.old.layout self.old.table → Finds (bytes_of (D.state self.old.disk)) self.old.table.group.0 contents
            → IfOk result (λ runs. (u : ℕ) → u < units_of self.old.table id → covered runs.items u ≡ contents.held id u) }
        ensures maximal { IfOk result (λ runs. AreMaximalRuns (covered runs.items) (units_of self.old.table id) runs.items) }
        ensures count { IfOk result (λ runs. total_of runs.items ≡ (row_of self.old.table id).held) }
        ensures fault { Tells (D.state self.old.disk) → IfErr result (IsFoundFault (bytes_of (D.state self.old.disk)) self.old.table id) }
        ensures layout { self.new.layout ≡ self.old.layout }
        ensures table { self.new.table ≡ self.old.table }
        ensures rests { Tells (D.state self.old.disk) → Untouched (D.state self.old.disk) (D.state self.new.disk) }
        ensures steady { (IsErrOf result FoundFault.Failed → ⊥) → D.faults self.new.disk ≡ D.faults self.old.disk }
        ensures failed { IsErrOf result FoundFault.Failed → D.faults self.new.disk ≡ one_more (D.faults self.old.disk) }
    {
        let head = head_for(&self.layout);
        find(alloc, &mut self.disk, &head, &self.table, id)
    }

    /// Makes the group of the store the only valid one: flushes, closes the gates of valid higher groups, from the newest
    /// down, and then those of valid lower ones, rising, with a flush behind each. Takes no memory.
    ///
    /// After a failure some of the others may be closed, and the group stays as it was. After the rewind that `spa_load`
    /// makes to an earlier uberblock.
    pub fn rewind(&mut self) -> Result<(), Failed>
        // From the first flush that succeeded on, at each moment.
        ensures after_first { (uber : Uber) → Tells (D.state self.old.disk) → HasStore (bytes_of (D.state self.old.disk)) uber self.old.layout self.old.table → LiesIn (bytes_of (D.state self.old.disk)) uber
            → (t : ℕ) (rest : List ℕ) → (D.state self.new.disk).flushes ≡ (D.state self.old.disk).flushes ++ t ∷ rest
            → (c : List ℕ) → (D.state self.new.disk).left_since t c → IsRewinding uber (bytes_of (D.state self.old.disk)) c }
        ensures done { (uber : Uber) → Tells (D.state self.old.disk) → HasStore (bytes_of (D.state self.old.disk)) uber self.old.layout self.old.table → LiesIn (bytes_of (D.state self.old.disk)) uber
            → OnOk result (IsRewound uber (bytes_of (D.state self.old.disk)) (bytes_of (D.state self.new.disk))) }
        ensures at_rest { (uber : Uber) → Tells (D.state self.old.disk) → HasStore (bytes_of (D.state self.old.disk)) uber self.old.layout self.old.table → LiesIn (bytes_of (D.state self.old.disk)) uber
            → OnOk result (IsAtRest (D.state self.new.disk) self.new.layout self.new.table) }
        ensures flushed { Tells (D.state self.old.disk) → OnOk result (HasFlush (D.state self.old.disk) (D.state self.new.disk)) }
        // The moment from which on it is the only one, told by the number of flushes.
        ensures ends { (uber : Uber) → Tells (D.state self.old.disk) → HasStore (bytes_of (D.state self.old.disk)) uber self.old.layout self.old.table → LiesIn (bytes_of (D.state self.old.disk)) uber
            → OnOk result (EndsRewound uber (D.state self.old.disk) (D.state self.new.disk)) }
        // Nothing but gates is touched, at any moment.
        ensures spares { Tells (D.state self.old.disk) → Spares IsNoGate (D.state self.old.disk) (D.state self.new.disk) }
        ensures layout { self.new.layout ≡ self.old.layout }
        ensures table { self.new.table ≡ self.old.table }
        ensures tells { Tells (D.state self.old.disk) → Tells (D.state self.new.disk) }
        ensures cause { HasCause (D.faults self.old.disk) (D.faults self.new.disk) result }
    {
        let opened = self.table.group;
        rewind_disk(&mut self.disk, opened)
    }

    /// Commits the next group: what the batches allocate and free becomes lasting together, and the group is the newest. The
    /// batches name metaslabs of the layout, each at most once, in order of vdev and index. The words of each metaslab are
    /// read again, changed and written whole, and then the table; all is flushed before the group's ring slot is closed,
    /// written and opened. After `spa_sync`.
    ///
    /// Wherever the device is stopped, each group that could be opened and is at most two below the newest finds what it
    /// found; the newest is the group before or the new one, and after `Ok` the new one. After `Memory` the same commit may
    /// be called again; after `Failed` the store is given up. Linear in the words and the units; at most four flushes.
    pub fn commit(&mut self, alloc: Global, batches: &[Batch]) -> Result<Group, CommitFault>
        requires group { self.old.table.group.0 + 1 < 2 ^ 50 }
        requires batches { AreBatches self.old.table batches.now }
        // At each moment of the call, and whatever it answers.
        ensures any_moment { IsAtRest (D.state self.old.disk) self.old.layout self.old.table
            → LeavesOnly (D.state self.old.disk) (D.state self.new.disk) (IsBeforeOrAfter (D.state self.old.disk) self.old.table.group.0 batches.now) }
        ensures done { IsAtRest (D.state self.old.disk) self.old.layout self.old.table
            → OnOk result ((c : List ℕ) → (D.state self.new.disk).may_leave c → IsCommitted (D.state self.old.disk) self.old.table.group.0 batches.now c) }
        // The next commit may follow, where the batches were backed by what the group held.
        ensures at_rest { IsAtRest (D.state self.old.disk) self.old.layout self.old.table → (contents : Contents) → Finds (bytes_of (D.state self.old.disk)) self.old.table.group.0 contents → AreBacked contents batches.now
            → OnOk result (IsAtRest (D.state self.new.disk) self.new.layout self.new.table) }
        ensures memory { IsAtRest (D.state self.old.disk) self.old.layout self.old.table → IsErrOf result CommitFault.Memory → IsAtRest (D.state self.new.disk) self.new.layout self.new.table }
        // At rest nothing is damaged.
        ensures honest { IsAtRest (D.state self.old.disk) self.old.layout self.old.table → IfErr result IsCommitFailure }
        ensures group { IfOk result (λ group. group ≡ self.new.table.group) }
        ensures layout { self.new.layout ≡ self.old.layout }
        ensures table { OnOk result (IsNextTable (head_of self.old.layout) self.old.table batches.now self.new.table) }
        ensures same { OnErr result (self.new.table ≡ self.old.table) }
        // Nothing beside the next group's words, table and slot is touched, at any moment.
        ensures spares { Tells (D.state self.old.disk) → Spares (IsLeft (head_of self.old.layout) self.old.table.vdevs (self.old.table.group.0 + 1)) (D.state self.old.disk) (D.state self.new.disk) }
        ensures tells { Tells (D.state self.old.disk) → Tells (D.state self.new.disk) }
        ensures flushes { Tells (D.state self.old.disk) → Flushes 4 (D.state self.old.disk) (D.state self.new.disk) }
        ensures steady { (IsErrOf result CommitFault.Failed → ⊥) → D.faults self.new.disk ≡ D.faults self.old.disk }
        ensures failed { IsErrOf result CommitFault.Failed → D.faults self.new.disk ≡ one_more (D.faults self.old.disk) }
    {
        let table = commit_group(alloc, &mut self.disk, &self.layout, &self.table, batches)?;
        let group = table.group;
        self.table = table;
        Ok(group)
    }

    /// How often the device has failed.
    pub fn faults(&self) -> u64
        ensures { result ≡ D.faults self.now.disk }
    {
        self.disk.faults()
    }

    /// Gives the device back.
    pub fn into_disk(self) -> D
        ensures { result ≡ self.disk }
    {
        let MetaStore {
            disk,
            layout: _,
            table: _,
        } = self;
        disk
    }
}
