//! The two calls of the program.

ghost use Rattle.std.specs.Prelude.{◌≡◌, ℕ, ◌+◌, ◌^◌, ◌<◌, ◌≤◌, ◌↔◌, List, length, map, string_bytes, None, IfOk};
ghost use Rattle.zms_units.specs.declared.places.VdevRow.{VdevRow};
ghost use Rattle.zms_dev.specs.Disk.{Tells};
ghost use Rattle.zms_dev.specs.Runs.{Untouched};
ghost use Rattle.vdev_map.specs.Limits.{IsLayout, AreVdevs};
ghost use Rattle.meta_store.specs.declared.causes.At.{At};
ghost use Rattle.zms_top.specs.Words.{Asks, AsksNothing};
ghost use Rattle.zms_top.specs.Causes.{Cause, IsHonestRun, IsHonestReport, IsHonestCreate, IsDone};
ghost use Rattle.zms_top.specs.World.{world};
ghost use Rattle.zms_top.specs.Creations.{created_layout, refused_status, IsAnnounced, CreateEnds};
ghost use Rattle.zms_top.specs.Ends.{IsOfText, RunEnds};
ghost use Rattle.zms_top.specs.PoolReports.{ReportEnds};
ghost use Rattle.zms_top.specs.declared.words.Asked.TheVariants.{Create, Run, Report};
ghost use Rattle.zms_top.specs.declared.status.Status.TheVariants.{Usage};

use crate::output::write_created;
use crate::pool_report::report;
use crate::run::run;
use crate::status::{PoolCause, Shipped, Status};
use crate::words::{Asked, read_words};
use meta_store::CreateFault;
use std::alloc::{AllocError, Global};
use std::sync::Wait;
use std::thread::Threads;
use vdev_map::Layout;
use vdev_text::Vdevs;
use zms_dev::{Data, Disk, Meet, Sink, Source};
use zms_units::Items;

/// For how many groups a metaslab of a new pool may stay unflushed.
const FLUSH: u32 = 8;

/// How many runs a group of a new pool may log.
const LOG: u32 = 65536;

/// The layout of a new pool of these vdevs.
fn layout_for(alloc: Global, vdevs: &Vdevs) -> Result<Layout, AllocError>
    requires { AreVdevs vdevs.now }
    ensures layout { IfOk result (λ layout. layout ≡ created_layout vdevs.now) }
    ensures limits { IfOk result IsLayout }
{
    let rows = Vec::from_slice(alloc, vdevs.as_slice())?;
    Ok(Layout {
        flush: FLUSH,
        log: LOG,
        vdevs: Items::from_vec(rows),
    })
}

/// The status of a creation that was refused.
fn refusal(fault: CreateFault) -> Status
    ensures { result ≡ refused_status fault }
{
    match fault {
        CreateFault::AlreadyPool { newest } => Status::NotAPool {
            cause: PoolCause::AlreadyPool { newest },
        },
        CreateFault::Failed => Status::DeviceFault,
        CreateFault::Memory => Status::Memory,
    }
}

/// Says that a pool was created.
fn announce<K: Sink>(out: &mut K) -> Status
    ensures { IsAnnounced (K.state out.old) (K.state out.new) result }
{
    match write_created(out) {
        Ok(()) => Status::Done,
        Err(_) => Status::WriteFault,
    }
}

/// Makes a pool, where the device has none, and says so.
fn create<K: Sink, D: Disk>(alloc: Global, out: &mut K, disk: D, vdevs: &Vdevs) -> (Status, D)
    requires { AreVdevs vdevs.now }
    ensures { CreateEnds vdevs.now (K.state out.old) (K.state out.new) (D.state disk) (D.state result.1) (D.faults disk) (D.faults result.1) result.0 }
{
    let Ok(layout) = layout_for(alloc, vdevs) else {
        return (Status::Memory, disk);
    };
    let (disk, made) = meta_store::create(alloc, disk, &layout);
    match made {
        Ok(()) => (announce(out), disk),
        Err(fault) => (refusal(fault), disk),
    }
}

/// The calls that run no lanes: it creates a pool or reports one, waits for nobody, and always returns. It answers `Usage`
/// where the words are outside the grammar, and for a run. A report only reads the device: the opened group is not made the
/// only one.
///
/// Linear in the units of the pool.
pub fn zms_still<K: Sink, D: Disk>(
    alloc: Global,
    words: &[String],
    out: &mut K,
    meta: D,
) -> (Status, D)
    ensures usage { AsksNothing (map string_bytes words.now) → (result.0 ≡ Usage) × ((K.state out.new ≡ K.state out.old) × (result.1 ≡ meta)) }
    ensures run { (at : At) → Asks (map string_bytes words.now) (Run at) → (result.0 ≡ Usage) × ((K.state out.new ≡ K.state out.old) × (result.1 ≡ meta)) }
    ensures create { (vdevs : List VdevRow) → Asks (map string_bytes words.now) (Create vdevs) → CreateEnds vdevs (K.state out.old) (K.state out.new) (D.state meta) (D.state result.1) (D.faults meta) (D.faults result.1) result.0 }
    ensures report { (at : At) → Asks (map string_bytes words.now) (Report at) → ReportEnds at (K.state out.old) (K.state out.new) (D.state meta) (D.faults meta) (D.faults result.1) result.0 }
    ensures rests { (at : At) → Asks (map string_bytes words.now) (Report at) → Tells (D.state meta) → Untouched (D.state meta) (D.state result.1) }
{
    match read_words(words) {
        Some(Asked::Create { vdevs }) => create(alloc, out, meta, &vdevs),
        Some(Asked::Report { at }) => report(alloc, out, meta, at),
        Some(Asked::Run { .. }) => (Status::Usage, meta),
        None => (Status::Usage, meta),
    }
}

/// One call of the program: `run` runs the source's commands over the pool of `meta`, and all other words go to
/// `zms_still`. Once its lanes ran to their end, a run prints the replies and totals to `out`, and then writes its journals
/// to `trace`; where `out` fails, `trace` takes nothing. The 16 data devices come back as they were.
///
/// Linear in the text, in the units of the pool and in its journal, but for what each command does.
pub fn zms<R, S, K, T, D, V, M>(
    _rt: &R,
    alloc: Global,
    words: &[String],
    input: &mut S,
    out: &mut K,
    trace: &mut T,
    meta: D,
    devices: Vec<V>,
    meet: &M,
) -> Shipped<D, V>
where
    R: Threads + Wait + Sync,
    S: Source,
    K: Sink,
    T: Sink,
    D: Disk,
    V: Data,
    M: Meet,
    requires { length devices.items ≡ 16 }
    ensures run { (at : At) → Asks (map string_bytes words.now) (Run at) → RunEnds at (world (S.state input.old) (K.state out.old) (T.state trace.old) (D.state meta) (D.faults meta)) (world (S.state input.new) (K.state out.new) (T.state trace.new) (D.state result.meta) (D.faults result.meta)) result.status result.journals result.lists }
    ensures create { (vdevs : List VdevRow) → Asks (map string_bytes words.now) (Create vdevs) → CreateEnds vdevs (K.state out.old) (K.state out.new) (D.state meta) (D.state result.meta) (D.faults meta) (D.faults result.meta) result.status }
    ensures report { (at : At) → Asks (map string_bytes words.now) (Report at) → ReportEnds at (K.state out.old) (K.state out.new) (D.state meta) (D.faults meta) (D.faults result.meta) result.status }
    ensures rests { (at : At) → Asks (map string_bytes words.now) (Report at) → Tells (D.state meta) → Untouched (D.state meta) (D.state result.meta) }
    ensures usage { AsksNothing (map string_bytes words.now) → (result.status ≡ Usage) × ((K.state out.new ≡ K.state out.old) × (result.meta ≡ meta)) }
    ensures cause { Cause (map string_bytes words.now) (world (S.state input.old) (K.state out.old) (T.state trace.old) (D.state meta) (D.faults meta)) (world (S.state input.new) (K.state out.new) (T.state trace.new) (D.state result.meta) (D.faults result.meta)) result.status }
    ensures complete_run { IsHonestRun (map string_bytes words.now) (world (S.state input.old) (K.state out.old) (T.state trace.old) (D.state meta) (D.faults meta)) (world (S.state input.new) (K.state out.new) (T.state trace.new) (D.state result.meta) (D.faults result.meta)) → IsDone result.status }
    ensures complete_report { IsHonestReport (map string_bytes words.now) (world (S.state input.old) (K.state out.old) (T.state trace.old) (D.state meta) (D.faults meta)) (world (S.state input.new) (K.state out.new) (T.state trace.new) (D.state result.meta) (D.faults result.meta)) → IsDone result.status }
    ensures complete_create { IsHonestCreate (map string_bytes words.now) (world (S.state input.old) (K.state out.old) (T.state trace.old) (D.state meta) (D.faults meta)) (world (S.state input.new) (K.state out.new) (T.state trace.new) (D.state result.meta) (D.faults result.meta)) → IsDone result.status }
    ensures unread { IsOfText result.status → result.meta ≡ meta }
    ensures input { ((at : At) → Asks (map string_bytes words.now) (Run at) → ⊥) → (input.new ≡ input.old) × ((result.journals ≡ None) × (result.lists ≡ None)) }
    ensures devices { result.devices ≡ devices.items }
    ensures trace { ((at : At) → Asks (map string_bytes words.now) (Run at) → ⊥) → trace.new ≡ trace.old }
{
    match read_words(words) {
        Some(Asked::Run { at }) => {
            let (ended, meta) = run(alloc, input, out, trace, meta, at, meet);
            Shipped {
                status: ended.status,
                meta,
                devices: Items::from_vec(devices),
                journals: ended.journals,
                lists: ended.lists,
            }
        }
        _ => {
            let (status, meta) = zms_still(alloc, words, out, meta);
            Shipped {
                status,
                meta,
                devices: Items::from_vec(devices),
                journals: None,
                lists: None,
            }
        }
    }
}
