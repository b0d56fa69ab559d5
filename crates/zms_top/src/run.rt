//! A run of a command file over a pool.

ghost use Rattle.std.specs.Prelude.{◌≡◌, ℕ, ◌+◌, ◌^◌, ◌<◌, ◌≤◌, [], ◌∷◌, length, None, IsSome, IfOk, IfErr, OnOk, IfSome, IfNone, MatchResult};
ghost use Rattle.zms_units.specs.Limits.{GROUPS_END, IsPoolGroup, IsUnitCount};
ghost use Rattle.zms_units.specs.Segments.{AreSegs};
ghost use Rattle.zms_dev.specs.Disk.{Tells, bytes_of};
ghost use Rattle.zms_top.specs.Script.{IsFile, AreCommands};
ghost use Rattle.zms_dev.specs.Runs.{Untouched};
ghost use Rattle.zms_dev.specs.Stream.{SourceState};
ghost use Rattle.meta_store.specs.Groups.{Finds};
ghost use Rattle.meta_store.specs.Stores.{IsStore, Opens};
ghost use Rattle.zms_top.specs.World.{world};
ghost use Rattle.zms_top.specs.Ends.{text_of, IsRead, IsReadEnd, IsOfText, IsOpenEnd, RunEnds};
ghost use Rattle.ms_core.specs.State.{origin_of};
ghost use Rattle.zms_top.specs.FreshPool.{IsOpened, IsAssembled, IsFresh, IsUnfit, status_of_open, status_of_found};
ghost use Rattle.zms_top.specs.Answers.{paired};
ghost use Rattle.zms_top.specs.Sound.{first_id};
ghost use Rattle.zms_top.specs.Stored.{IsSingle, opened_contents};
ghost use Rattle.zms_top.specs.Pools.{IsStoreOf};
ghost use Rattle.zms_top.specs.Reports.{HasHandedOver, IsReported, LanesLeave, OpenedEnds};

use crate::Reply;
use crate::lane::run_lane;
use crate::pool::{ASHIFT, FIRST_METASLAB, Pool};
use crate::report::{EmptyLists, hand_over, print, status_of, trace_journals};
use crate::script::read_runnable;
use crate::status::{PoolCause, RunLists, Status};
use cmd_text::{Command, TextFault};
use meta_store::{At, FoundFault, MetaStore, OpenCause, OpenFault};
use ms_core::Metaslab;
use ms_model::Journals;
use std::alloc::{AllocError, Global};
use txg_gate::Gate;
use vdev_map::Layout;
use zms_dev::{Disk, Meet, ReadError, Sink, Source, read_text};
use zms_units::{Class, Group, Items, MAX_TEXT_BYTES, Seg, VdevRow};

/// The commands of the source's text, of which at most one byte past the limit is read.
fn read_script<S: Source>(alloc: Global, input: &mut S) -> Result<Items<Command>, Status>
    ensures file { IsSome (S.state input.old).left → IfOk result (IsFile (text_of (S.state input.old).left)) }
    ensures commands { IfOk result AreCommands }
    ensures read { OnOk result (IsRead (S.state input.old) (S.state input.new)) }
    ensures err { IfErr result (IsReadEnd (S.state input.old) (S.state input.new)) }
{
    let mut text = Vec::new(alloc);
    if let Err(fault) = read_text(alloc, input, &mut text, MAX_TEXT_BYTES) {
        return Err(match fault {
            ReadError::Failed => Status::ReadFault,
            ReadError::Memory => Status::Memory,
        });
    }
    match read_runnable(alloc, &text) {
        Ok(commands) => Ok(commands),
        Err(TextFault::Bad { line }) => Err(Status::BadText { line }),
        Err(TextFault::Memory) => Err(Status::Memory),
    }
}

/// The units of the one metaslab of a layout over which lanes run.
fn single_units(layout: &Layout) -> Option<u32>
    ensures some { IfSome result (IsSingle layout.now) }
    ensures none { IfNone result ((units : ℕ) → IsSingle layout.now units → ⊥) }
{
    match layout.vdevs.as_slice() {
        [row] => {
            let row = *row;
            let normal = row.class == Class::Normal;
            if normal && row.ashift == ASHIFT && row.metaslabs == 1 {
                Some(row.units)
            } else {
                None
            }
        }
        _ => None,
    }
}

/// A pool of what its opened group holds. Linear in the runs.
fn assemble(alloc: Global, group: Group, units: u32, runs: Vec<Seg>) -> Result<Pool, AllocError>
    requires group { IsPoolGroup group.0 }
    requires units { IsUnitCount units }
    requires runs { AreSegs units runs.items }
    ensures pool { IfOk result (IsAssembled group units runs.items) }
{
    let base = Vec::from_slice(alloc, &runs)?;
    let row = VdevRow {
        class: Class::Normal,
        ashift: ASHIFT,
        units,
        metaslabs: 1,
    };
    let Ok(metaslab) = Metaslab::new(alloc, FIRST_METASLAB, &row, group, runs) else {
        return Err(AllocError);
    };
    Ok(Pool {
        metaslab,
        gate: Gate::new(alloc, group),
        base,
        first: None,
    })
}

/// Why a pool was not opened.
pub(crate) fn open_status(fault: OpenFault) -> Status
    ensures { result ≡ status_of_open fault }
{
    match fault {
        OpenFault::Cause(cause) => Status::NotAPool {
            cause: PoolCause::Open(cause),
        },
        OpenFault::Failed => Status::DeviceFault,
        OpenFault::Memory => Status::Memory,
    }
}

/// Why what its opened group holds was not found.
fn found_status(fault: FoundFault) -> Status
    ensures { result ≡ status_of_found fault }
{
    match fault {
        FoundFault::Damaged { id, damage } => Status::NotAPool {
            cause: PoolCause::Open(OpenCause::MapDamaged { id, damage }),
        },
        FoundFault::Failed => Status::DeviceFault,
        FoundFault::Memory => Status::Memory,
    }
}

/// The pool of a store, where lanes run over its layout. The device is only read. Linear in the units.
fn pool_of<D: Disk>(alloc: Global, store: &mut MetaStore<D>) -> Result<Pool, Status>
    requires limits { IsStore store.old.layout store.old.table }
    requires early { store.old.table.group.0 < GROUPS_END }
    ensures fresh { IfOk result IsFresh }
    ensures store { IfOk result (λ pool. IsStoreOf pool store.new.layout store.new.table) }
    ensures base { (at : At) → Tells (D.state store.old.disk) → Opens (bytes_of (D.state store.old.disk)) at store.old.layout store.old.table
        → IfOk result (λ pool. Finds (bytes_of (D.state store.old.disk)) pool.metaslab.opened (opened_contents store.old.layout (origin_of pool.metaslab))) }
    ensures err { IfErr result (IsUnfit (D.state store.old.disk) store.old.layout store.old.table (D.faults store.old.disk) (D.faults store.new.disk)) }
    ensures steady { OnOk result (D.faults store.new.disk ≡ D.faults store.old.disk) }
    ensures layout { store.new.layout ≡ store.old.layout }
    ensures table { store.new.table ≡ store.old.table }
    ensures untouched { Tells (D.state store.old.disk) → Untouched (D.state store.old.disk) (D.state store.new.disk) }
{
    let Some(units) = single_units(store.layout()) else {
        return Err(Status::NotAPool {
            cause: PoolCause::OtherLayout,
        });
    };
    let group = store.group();
    match store.found(alloc, FIRST_METASLAB) {
        Ok(runs) => match assemble(alloc, group, units, runs) {
            Ok(pool) => Ok(pool),
            Err(_) => Err(Status::Memory),
        },
        Err(fault) => Err(found_status(fault)),
    }
}

/// Opens the pool of a device at a group. The device is only read, and handed back where it is no pool that runs. Linear in
/// the units.
fn open<D: Disk>(alloc: Global, disk: D, at: At) -> Result<(Pool, MetaStore<D>), (Status, D)>
    ensures opened { IfOk result (λ opened. IsOpened at (D.state disk) opened.0 opened.1.layout opened.1.table) }
    ensures err { IfErr result (λ refused. IsOpenEnd at (D.state disk) (D.faults disk) (D.faults refused.1) refused.0) }
    ensures untouched { Tells (D.state disk) → MatchResult result (λ opened. Untouched (D.state disk) (D.state opened.1.disk)) (λ refused. Untouched (D.state disk) (D.state refused.1)) }
    ensures steady { IfOk result (λ opened. D.faults opened.1.disk ≡ D.faults disk) }
    ensures no_text { IfErr result (λ refused. IsOfText refused.0 → ⊥) }
{
    let mut store = match meta_store::open(alloc, disk, at) {
        Ok(store) => store,
        Err((disk, fault)) => return Err((open_status(fault), disk)),
    };
    match pool_of(alloc, &mut store) {
        Ok(pool) => Ok((pool, store)),
        Err(status) => Err((status, store.into_disk())),
    }
}

/// What a run ends with.
#[derive(Drop)]
pub(crate) struct Ended {
    pub(crate) status: Status,
    pub(crate) journals: Option<Journals>,
    pub(crate) lists: Option<RunLists>,
}

/// A run whose lanes did not begin.
fn refused(status: Status) -> Ended
    ensures status { result.status ≡ status }
    ensures journals { result.journals ≡ None }
    ensures lists { result.lists ≡ None }
{
    Ended {
        status,
        journals: None,
        lists: None,
    }
}

/// A run whose lanes were cut off by want of memory. Writes nothing.
fn cut_off(alloc: Global, pool: Pool, empty: EmptyLists) -> Ended
    requires { pool.gate.opened ≡ pool.metaslab.opened }
    ensures status { result.status ≡ Status.Memory }
    ensures handed { HasHandedOver pool [] result.journals result.lists }
{
    let (journals, lists) = hand_over(alloc, pool, empty, Items::new(alloc));
    Ended {
        status: Status::Memory,
        journals: Some(journals),
        lists: Some(lists),
    }
}

/// A run whose lanes ran to their end: prints what they answered, hands the journals over, and writes the trace. Takes no
/// memory.
fn reported<K: Sink, T: Sink>(
    alloc: Global,
    out: &mut K,
    trace: &mut T,
    pool: Pool,
    commands: &[Command],
    empty: EmptyLists,
    replies: Vec<Reply>,
) -> Ended
    requires shift { pool.metaslab.ashift ≡ 12 }
    requires id { pool.metaslab.id ≡ first_id }
    requires opened { pool.gate.opened ≡ pool.metaslab.opened }
    requires each { length commands.now ≡ length replies.items }
    ensures { IsReported pool (paired commands.now replies.items) replies.items (K.state out.old) (K.state out.new) (T.state trace.old) (T.state trace.new) result.status result.journals result.lists }
{
    let printed = print(out, &pool, commands, &replies);
    let (journals, lists) = hand_over(alloc, pool, empty, Items::from_vec(replies));
    let written = trace_journals(trace, printed, &journals);
    Ended {
        status: status_of(lists.replies.as_slice(), written),
        journals: Some(journals),
        lists: Some(lists),
    }
}

/// Runs the lanes over a pool that was just opened, prints what they answered, and writes the trace.
fn run_lanes<K: Sink, T: Sink, D: Disk, M: Meet>(
    alloc: Global,
    out: &mut K,
    trace: &mut T,
    store: &mut MetaStore<D>,
    opened: Pool,
    commands: &[Command],
    empty: EmptyLists,
    meet: &M,
) -> Ended
    requires opened { IsFresh opened }
    requires store { IsStoreOf opened store.old.layout store.old.table }
    requires commands { AreCommands commands.now }
    ensures ends { (read left : SourceState) → LanesLeave opened store.old.layout store.old.table commands.now (world read (K.state out.old) (T.state trace.old) (D.state store.old.disk) (D.faults store.old.disk)) (world left (K.state out.new) (T.state trace.new) (D.state store.new.disk) (D.faults store.new.disk)) result.status result.journals result.lists }
    ensures no_text { IsOfText result.status → ⊥ }
{
    let mut pool = opened;
    match run_lane(alloc, &mut pool, store, commands, meet) {
        Err(_) => cut_off(alloc, pool, empty),
        Ok(replies) => reported(alloc, out, trace, pool, commands, empty, replies),
    }
}

/// Makes the opened group the only one, and runs the lanes over its pool.
fn run_opened<K: Sink, T: Sink, D: Disk, M: Meet>(
    alloc: Global,
    out: &mut K,
    trace: &mut T,
    store: &mut MetaStore<D>,
    opened: Pool,
    commands: &[Command],
    empty: EmptyLists,
    meet: &M,
) -> Ended
    requires opened { IsFresh opened }
    requires store { IsStoreOf opened store.old.layout store.old.table }
    requires commands { AreCommands commands.now }
    ensures ends { (read left : SourceState) (at : At) → OpenedEnds at commands.now opened store.old.layout store.old.table (world read (K.state out.old) (T.state trace.old) (D.state store.old.disk) (D.faults store.old.disk)) (world left (K.state out.new) (T.state trace.new) (D.state store.new.disk) (D.faults store.new.disk)) result.status result.journals result.lists }
    ensures no_text { IsOfText result.status → ⊥ }
{
    match store.rewind() {
        Ok(()) => run_lanes(alloc, out, trace, store, opened, commands, empty, meet),
        Err(_) => refused(Status::DeviceFault),
    }
}

/// A run of the source's commands over the device's pool, opened at a group. The device is handed back.
pub(crate) fn run<S: Source, K: Sink, T: Sink, D: Disk, M: Meet>(
    alloc: Global,
    input: &mut S,
    out: &mut K,
    trace: &mut T,
    disk: D,
    at: At,
    meet: &M,
) -> (Ended, D)
    ensures ends { RunEnds at (world (S.state input.old) (K.state out.old) (T.state trace.old) (D.state disk) (D.faults disk)) (world (S.state input.new) (K.state out.new) (T.state trace.new) (D.state result.1) (D.faults result.1)) result.0.status result.0.journals result.0.lists }
    ensures unread { IsOfText result.0.status → result.1 ≡ disk }
{
    let commands = match read_script(alloc, input) {
        Ok(commands) => commands,
        Err(status) => return (refused(status), disk),
    };
    let (pool, mut store) = match open(alloc, disk, at) {
        Ok(opened) => opened,
        Err((status, disk)) => return (refused(status), disk),
    };
    let Ok(empty) = EmptyLists::take(alloc) else {
        return (refused(Status::Memory), store.into_disk());
    };
    let ended = run_opened(
        alloc,
        out,
        trace,
        &mut store,
        pool,
        commands.as_slice(),
        empty,
        meet,
    );
    (ended, store.into_disk())
}
