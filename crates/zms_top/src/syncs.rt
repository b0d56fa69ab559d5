//! The command `sync`: the open group is closed and gathered, committed to the store, and settled.

ghost use Rattle.std.specs.Prelude.{◌≡◌, ℕ, ◌+◌, ◌^◌, ◌<◌, ◌≤◌, List, [], ◌∷◌, None, IsSome, IfOk, OnOk, OnErr};
ghost use Rattle.zms_units.specs.Limits.{IsLane, MAX_COMMANDS};
ghost use Rattle.ms_model.specs.Gains.{is_gained, is_given};
ghost use Rattle.ms_model.specs.Gates.{open_group, synced_group};
ghost use Rattle.zms_units.specs.Runs.{AreMaximalRuns};
ghost use Rattle.std.specs.List.{Contains};
ghost use Rattle.ms_model.specs.declared.notes.Act.TheVariants.{Collect};
ghost use Rattle.ms_model.specs.declared.notes.GateNote.TheVariants.{Closed};
ghost use Rattle.ms_core.specs.State.{origin_of, settled_of, collected_of, noted, StaysButNotes};
ghost use Rattle.txg_gate.specs.Closings.{closings_of};
ghost use Rattle.zms_dev.specs.Disk.{Tells};
ghost use Rattle.zms_dev.specs.Runs.{Spares};
ghost use Rattle.meta_store.specs.Rewinds.{Adds};
ghost use Rattle.cmd_text.specs.declared.script.What.TheVariants.{Sync};
ghost use Rattle.zms_top.specs.Answers.{first_with, synced_after};
ghost use Rattle.zms_top.specs.Ends.{damage_in};
ghost use Rattle.zms_top.specs.Lines.{SyncLine, AreIntervals};
ghost use Rattle.zms_top.specs.Sound.{shape_of};
ghost use Rattle.zms_top.specs.Stored.{IsBeside};
ghost use Rattle.zms_top.specs.Pools.{Acted, IsPool, IsStoreOf, IsRemembered, StaysRemembered, IsClosed, IsDue, IsCommitted, LeavesSettled};

use crate::Answer;
use crate::pool::{FIRST_METASLAB, Pool};
use meta_store::{CommitFault, MetaStore};
use ms_core::{Metaslab, MsFault, RunBuf};
use seg_trees::PlainTrees;
use std::alloc::{AllocError, Global};
use txg_gate::Gate;
use vdev_map::Batch;
use zms_dev::Disk;
use zms_units::{First, Group, Items};

/// Collects a group that the lane has closed into the buffer, which takes more memory where its runs need it. After an error
/// nothing is collected.
pub(crate) fn gather(
    _gate: &Gate,
    metaslab: &mut Metaslab<PlainTrees>,
    buf: &mut RunBuf,
    lane: u8,
    group: Group,
) -> Result<(), AllocError>
    requires lane { IsLane lane }
    requires closed { Contains _gate.now.notes (Closed lane group) }
    requires group { group.0 ≡ collected_of metaslab.old + 1 }
    requires room { 0 < metaslab.old.room }
    ensures allocs { OnOk result (AreMaximalRuns (is_gained group.0 metaslab.old.notes) metaslab.old.units buf.new.allocs.items) }
    ensures frees { OnOk result (AreMaximalRuns (is_given group.0 metaslab.old.notes) metaslab.old.units buf.new.frees.items) }
    ensures note { OnOk result (metaslab.new.notes ≡ noted metaslab.old.notes lane (Collect group)) }
    ensures err { OnErr result (metaslab.new.notes ≡ metaslab.old.notes) }
    ensures stays { StaysButNotes metaslab.old metaslab.new }
{
    buf.allocs.clear();
    buf.frees.clear();
    match metaslab.collect(lane, group, buf) {
        Ok(()) => Ok(()),
        Err(MsFault::Short { need }) => {
            buf.reserve(need)?;
            match metaslab.collect(lane, group, buf) {
                Ok(()) => Ok(()),
                Err(_) => unreachable!(),
            }
        }
        Err(_) => unreachable!(),
    }
}

/// A group that was closed, and what it changed.
#[derive(Drop)]
struct Closing {
    group: Group,
    batch: Batch,
}

/// Closes the open group and gathers what it changed. After an error the group may be closed.
fn close(alloc: Global, pool: &mut Pool, lane: u8) -> Result<Closing, AllocError>
    requires pool { IsPool pool.old }
    requires lane { IsLane lane }
    requires no_fault { pool.old.first ≡ None }
    requires few { closings_of lane pool.old.gate.notes < MAX_COMMANDS }
    ensures closed { IfOk result (λ closing. IsClosed pool.old pool.new lane closing.group closing.batch) }
    ensures small { IfOk result (λ closing. closing.group.0 < 2 ^ 50) }
    ensures err { OnErr result ((pool.new.first ≡ pool.old.first) × LeavesSettled pool.old pool.new) }
    // Whatever is answered.
    ensures stays { StaysButNotes pool.old.metaslab pool.new.metaslab }
    ensures gate { pool.new.gate.opened ≡ pool.old.gate.opened }
{
    pool.gate.ready()?;
    pool.metaslab.ready()?;
    let group = pool.gate.open_group();
    let Ok(_) = pool.gate.close_open(lane) else {
        unreachable!()
    };
    let mut buf = RunBuf::new(alloc);
    gather(&pool.gate, &mut pool.metaslab, &mut buf, lane, group)?;
    let batch = Batch {
        id: FIRST_METASLAB,
        allocs: Items::from_vec(buf.allocs),
        frees: Items::from_vec(buf.frees),
    };
    Ok(Closing { group, batch })
}

/// Commits the group that was closed last, and settles it; or keeps the device's fault, or the damage that was read. After
/// want of memory nothing is settled, and the group is not committed.
fn commit<D: Disk>(
    alloc: Global,
    pool: &mut Pool,
    store: &mut MetaStore<D>,
    lane: u8,
    closing: Closing,
) -> Result<Answer, AllocError>
    requires lane { IsLane lane }
    requires due { IsDue pool.old store.old.layout store.old.table closing.group closing.batch }
    requires small { closing.group.0 < 2 ^ 50 }
    requires gate_next { closing.group.0 ≡ synced_group pool.old.gate.opened pool.old.gate.notes + 1 }
    requires gate_closed { closing.group.0 < open_group pool.old.gate.opened pool.old.gate.notes }
    ensures committed { IfOk result (IsCommitted pool.old pool.new lane closing.group (D.faults store.old.disk) (D.faults store.new.disk)) }
    ensures err { OnErr result ((D.faults store.new.disk ≡ D.faults store.old.disk) × (pool.new ≡ pool.old)) }
    ensures undamaged { IsRemembered pool.old store.old.layout store.old.table (D.state store.old.disk) → IfOk result (λ answer. damage_in answer ≡ None) }
    // Whatever is answered.
    ensures store { IsStoreOf pool.new store.new.layout store.new.table }
    ensures layout { store.new.layout ≡ store.old.layout }
    ensures remembered { IsRemembered pool.old store.old.layout store.old.table (D.state store.old.disk) → StaysRemembered pool.old pool.new store.new.layout store.new.table (D.state store.old.disk) (D.state store.new.disk) }
    ensures spares { Tells (D.state store.old.disk) → Spares (IsBeside store.old.layout) (D.state store.old.disk) (D.state store.new.disk) }
    ensures flushes { Tells (D.state store.old.disk) → Adds (D.state store.old.disk) (D.state store.new.disk) }
    ensures stays { StaysButNotes pool.old.metaslab pool.new.metaslab }
    ensures gate { pool.new.gate.opened ≡ pool.old.gate.opened }
{
    let before = store.faults();
    let Closing { group, batch } = closing;
    match store.commit(alloc, &[batch]) {
        Ok(_) => {
            pool.metaslab.settle(lane, group);
            pool.gate.settled(group);
            Ok(Answer::Done { group })
        }
        Err(CommitFault::Failed) => {
            let after = store.faults();
            pool.first = Some(First::Device { before, after });
            Ok(Answer::Device { before, after })
        }
        Err(CommitFault::Damaged { id, damage }) => {
            pool.first = Some(First::Damaged { id, damage });
            Ok(Answer::Damaged { id, damage })
        }
        Err(CommitFault::Memory) => Err(AllocError),
    }
}

/// Makes all changes so far lasting, after `spa_sync`: one group, while no fault is kept. Once one is, the device is left
/// alone.
pub(crate) fn sync<D: Disk>(
    alloc: Global,
    pool: &mut Pool,
    store: &mut MetaStore<D>,
    lane: u8,
) -> Result<Answer, AllocError>
    requires pool { IsPool pool.old }
    requires store { IsStoreOf pool.old store.old.layout store.old.table }
    requires lane { IsLane lane }
    requires few { closings_of lane pool.old.gate.notes < MAX_COMMANDS }
    ensures acted { IfOk result (λ answer. Acted pool.old pool.new lane (SyncLine (shape_of (origin_of pool.old.metaslab)) lane pool.old.first answer)) }
    ensures first { IfOk result (λ answer. pool.new.first ≡ first_with pool.old.first answer) }
    ensures synced { IfOk result (λ answer. settled_of pool.new.metaslab ≡ synced_after (settled_of pool.old.metaslab) Sync answer) }
    ensures intervals { IfOk result (λ answer. AreIntervals (D.faults store.old.disk) (D.faults store.new.disk) (answer ∷ [])) }
    ensures undamaged { IsRemembered pool.old store.old.layout store.old.table (D.state store.old.disk) → IfOk result (λ answer. damage_in answer ≡ None) }
    ensures err { OnErr result ((D.faults store.new.disk ≡ D.faults store.old.disk) × ((pool.new.first ≡ pool.old.first) × LeavesSettled pool.old pool.new)) }
    // Whatever is answered.
    ensures store { IsStoreOf pool.new store.new.layout store.new.table }
    ensures layout { store.new.layout ≡ store.old.layout }
    ensures remembered { IsRemembered pool.old store.old.layout store.old.table (D.state store.old.disk) → StaysRemembered pool.old pool.new store.new.layout store.new.table (D.state store.old.disk) (D.state store.new.disk) }
    ensures spares { Tells (D.state store.old.disk) → Spares (IsBeside store.old.layout) (D.state store.old.disk) (D.state store.new.disk) }
    ensures flushes { Tells (D.state store.old.disk) → Adds (D.state store.old.disk) (D.state store.new.disk) }
    ensures suspended { IsSome pool.old.first → store.new ≡ store.old }
    ensures stays { StaysButNotes pool.old.metaslab pool.new.metaslab }
    ensures gate { pool.new.gate.opened ≡ pool.old.gate.opened }
{
    if let Some(first) = pool.first {
        return Ok(Answer::Suspended { first });
    }
    let closing = close(alloc, pool, lane)?;
    commit(alloc, pool, store, lane, closing)
}
