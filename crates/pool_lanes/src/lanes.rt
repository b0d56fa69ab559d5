//! A whole run of lanes.
ghost use Rattle.std.specs.Prelude.{◌≡◌, ◌≤◌, Option, None, IfOk, IfErr, IfSome, IfNone, IsSome, IsErr, List, [], length, vec_capacity};
ghost use Rattle.zms_units.specs.Limits.{IsPoolGroup};
ghost use Rattle.zms_units.specs.declared.segments.Seg.{Seg};
ghost use Rattle.class_model.specs.declared.origin.ClassOrigin.{ClassOrigin};
ghost use Rattle.meta_store.specs.Stores.{StoreState};
ghost use Rattle.pool_seats.specs.Bases.{AreBasesOf};
ghost use Rattle.pool_lanes.specs.Lanes.{AreTold, HaveRun, IsUnbegun};
ghost use Rattle.pool_lanes.specs.Beginning.{HasBegun, IsScript};
ghost use Rattle.pool_lanes.specs.Ending.{ended_by, HasEnded};

use crate::returning::run_seats;
use crate::rooms::{Rooms, make_rooms};
use crate::telling::tell_metaslabs;
use cmd_text::Script;
use lane_passes::LanePasses;
use lane_run::Reply;
use meta_store::MetaStore;
use ms_core::Counts;
use ms_model::{GateNote, Journals, MsJournal};
use pool_seats::{Closed, Kept, Pool, Prepared, Rest, close_pool, keep, prepare, take_seats};
use range_tree::RangeTrees;
use std::alloc::{AllocError, Global};
use std::sync::Wait;
use std::thread::Threads;
use zms_dev::{Disk, Meet};
use zms_units::{Group, Items, Seg};

/// What a run of lanes leaves: one reply a command, in the order of the file, or want of memory; the journals, None exactly where
/// no lane began; the units of each metaslab that are live, deferred and vacant by its journal, in order of vdev and index; the
/// gate's journal; the last committed group, or the opened one; and the pool device.
pub struct Lanes<D> {
    pub replies: Result<Vec<Reply>, AllocError>,
    pub journals: Option<Journals>,
    pub totals: Vec<Counts>,
    pub gate: Vec<GateNote>,
    pub group: Group,
    pub meta: D,
}

/// A pool whose lanes are to begin.
struct Begun<D: Disk + Send> {
    pool: Pool,
    rest: Rest,
    lanes: Vec<LanePasses<RangeTrees>>,
    kept: Kept<D>,
    rooms: Rooms<D>,
}

/// Takes all memory that a run takes beside its lanes. The only error is want of memory, and hands the store back.
fn begin<D: Disk + Send>(
    alloc: Global,
    store: MetaStore<D>,
    bases: Vec<Items<Seg>>,
    script: &Script,
) -> Result<Begun<D>, MetaStore<D>>
    requires script { IsScript script.now }
    requires group { IsPoolGroup store.table.group.0 }
    requires bases { AreBasesOf store.layout.vdevs store.table bases.items }
    ensures begun { IfOk result (HasBegun store bases.items script.now) }
    ensures err { IfErr result (λ back. back ≡ store) }
{
    let Ok(prepared) = prepare(alloc, &store, bases, script.lanes) else {
        return Err(store);
    };
    let lanes = usize::from(script.lanes);
    let count = prepared.pool.cells.metaslabs.len();
    let Ok(rooms) = make_rooms(alloc, lanes, script.commands.len(), count) else {
        return Err(store);
    };
    let Prepared {
        pool,
        rest,
        keeper,
        lanes,
    } = prepared;
    let kept = keep(alloc, store, keeper)?;
    Ok(Begun {
        pool,
        rest,
        lanes,
        kept,
        rooms,
    })
}

/// What the lanes of a pool left, with room for what is handed out.
struct Ended<D: Disk + Send> {
    closed: Closed<D>,
    replies: Result<Vec<Reply>, AllocError>,
    journals: Vec<MsJournal>,
    totals: Vec<Counts>,
}

/// Runs the lanes of a pool, and closes it.
fn run_begun<D: Disk + Send, M: Meet + Sync, W: Threads + Wait + Sync>(
    rt: &W,
    alloc: Global,
    begun: Begun<D>,
    script: &Script,
    meet: &M,
) -> Ended<D>
    requires script { IsScript script.now }
    requires begun { (store : StoreState D) × ((bases : List (List Seg)) × HasBegun store bases script.now begun) }
    ensures ended { (store : StoreState D) (bases : List (List Seg)) → HasBegun store bases script.now begun → HasEnded D.state D.faults store bases script.now result.closed result.replies }
    ensures journals { (result.journals.items ≡ []) × (length result.closed.metaslabs.items ≤ vec_capacity result.journals) }
    ensures totals { (result.totals.items ≡ []) × (length result.closed.metaslabs.items ≤ vec_capacity result.totals) }
{
    let Begun {
        pool,
        mut rest,
        lanes,
        kept,
        rooms,
    } = begun;
    let Kept {
        turn,
        zero,
        rest: mut pass,
    } = kept;
    let commands = script.commands.as_slice();
    let seats = take_seats(&turn, &mut pass, lanes, rooms.seats);
    let replies = run_seats(
        rt,
        alloc,
        &pool,
        &turn,
        &mut rest,
        &mut pass,
        seats,
        commands,
        meet,
        rooms.lists,
        rooms.replies,
    );
    let closed = close_pool(
        rt,
        pool,
        turn,
        rest,
        pass,
        zero,
        rooms.metaslabs,
        rooms.classes,
    );
    Ended {
        closed,
        replies,
        journals: rooms.journals,
        totals: rooms.totals,
    }
}

/// Hands out what the lanes left.
fn tell<D: Disk + Send>(opened: Group, ended: Ended<D>) -> Lanes<D>
    requires journals { (ended.journals.items ≡ []) × (length ended.closed.metaslabs.items ≤ vec_capacity ended.journals) }
    requires totals { (ended.totals.items ≡ []) × (length ended.closed.metaslabs.items ≤ vec_capacity ended.totals) }
    ensures some { IsSome result.journals }
    ensures told { IfSome result.journals (λ j. (origins : List (Option ClassOrigin)) → AreTold opened (ended_by ended.closed origins) j result) }
    ensures replies { result.replies ≡ ended.replies }
    ensures group { result.group ≡ ended.closed.store.table.group }
    ensures meta { result.meta ≡ ended.closed.store.disk }
{
    let Ended {
        closed,
        replies,
        journals,
        totals,
    } = ended;
    let Closed {
        store,
        gate,
        metaslabs,
        classes,
        keeper,
    } = closed;
    let (metaslabs, totals) = tell_metaslabs(metaslabs, journals, totals);
    let journals = Journals {
        opened,
        metaslabs: Items::from_vec(metaslabs),
        classes: Items::from_vec(classes),
        keeper: Items::from_vec(keeper),
    };
    Lanes {
        replies,
        journals: Some(journals),
        totals,
        gate: gate.into_notes(),
        group: store.group(),
        meta: store.into_disk(),
    }
}

/// What is handed out where no lane began.
fn unbegun<D: Disk + Send>(alloc: Global, store: MetaStore<D>) -> Lanes<D>
    ensures replies { IsErr result.replies }
    ensures none { result.journals ≡ None }
    ensures unbegun { IsUnbegun store result }
{
    Lanes {
        replies: Err(AllocError),
        journals: None,
        totals: Vec::new(alloc),
        gate: Vec::new(alloc),
        group: store.group(),
        meta: store.into_disk(),
    }
}

/// Runs the commands of a file, each lane its own in their order: in a thread of its own where one can be made, and else one lane
/// after the other. The bases are the runs that the store's group holds of each metaslab, in order of vdev and index.
///
/// Want of memory for what a run takes beside its lanes leaves the store as it was, and no journals. Want of memory of a lane, or
/// of the threads, leaves journals and no replies.
///
/// Costs what the commands cost, one look of each lane at each command, and what making and closing each metaslab costs.
pub fn run_lanes<D: Disk + Send, M: Meet + Sync, W: Threads + Wait + Sync>(
    rt: &W,
    alloc: Global,
    store: MetaStore<D>,
    bases: Vec<Items<Seg>>,
    script: &Script,
    meet: &M,
) -> Lanes<D>
    requires script { IsScript script.now }
    requires group { IsPoolGroup store.table.group.0 }
    requires bases { AreBasesOf store.layout.vdevs store.table bases.items }
    ensures run { IfSome result.journals (λ j. HaveRun D.state D.faults store bases.items script.now j result) }
    ensures none { IfNone result.journals (IsUnbegun store result × IsErr result.replies) }
{
    let opened = store.group();
    match begin(alloc, store, bases, script) {
        Ok(begun) => tell(opened, run_begun(rt, alloc, begun, script, meet)),
        Err(store) => unbegun(alloc, store),
    }
}
