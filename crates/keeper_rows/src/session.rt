//! One run of a pool: it is opened, its lanes do what a row says, and its turns are ended.
ghost use Rattle.std.specs.Prelude.{ℕ, ◌+◌, ◌≤◌, IfOk};
ghost use Rattle.turn_passes.specs.Parts.{IsIdle};
ghost use Rattle.keeper_rows.specs.Parts.{AreSeats, IsKeeperRest, KnowUnits};

use crate::device::{Device, Panel};
use crate::lane::Lane;
use crate::opening::{Survey, copied, copies, look_over, open_store, share};
use crate::pool::Shared;
use crate::seats::{RowKeeper, Seats, keep, seat_keeper, seat_lanes, seat_probes};
use class_group::close_classes;
use meta_store::At;
use ms_cell::close_cells;
use ms_core::Metaslab;
use ms_model::{ClassJournal, GateNote, Journals, KeeperNote, MsJournal};
use range_tree::RangeTrees;
use std::alloc::{AllocError, Global};
use std::sync::Wait;
use std::thread::Threads;
use turn_cell::{Pass, Turn};
use turn_passes::close_turn;
use vdev_map::Layout;
use zms_units::{Group, Items, Seg};

/// How a run begins: with so many lanes inside the device, and so many behind them.
#[derive(Clone, Copy, Debug, PartialEq, Eq)]
pub struct Crowd {
    pub probes: u8,
    pub lanes: u8,
}

/// What the lanes of a run do.
pub trait Play {
    ghost use Rattle.std.specs.Thread.{IsSync};

    fn play<W: Threads + Wait + Sync>(
        &mut self,
        rt: &W,
        alloc: Global,
        lanes: Vec<Lane<'_, '_>>,
    ) -> Result<(), AllocError>
        requires { IsSync W.row };
}

/// What a run leaves: its journals, the runs that its opened group held of each metaslab, and its device.
#[derive(Drop)]
pub struct Ended {
    pub bases: Vec<Items<Seg>>,
    pub journals: Journals,
    pub gate: Vec<GateNote>,
    pub bytes: Vec<u8>,
}

/// What the keeper leaves, and the rest of the rights at the cells and classes.
#[derive(Drop)]
struct Kept {
    seats: Seats,
    notes: Vec<(u8, KeeperNote)>,
    bytes: Vec<u8>,
}

/// Lets the lanes of the row run, and gives the rest of the rights at the cells and classes.
fn play_lanes<'c, W: Threads + Wait + Sync, P: Play>(
    rt: &W,
    alloc: Global,
    shared: &'c Shared,
    turn: &Turn<RowKeeper<'c>>,
    rest: &mut Pass<RowKeeper<'c>>,
    seats: Seats,
    crowd: Crowd,
    play: &mut P,
) -> Result<Seats, AllocError>
    requires crowd { crowd.probes + crowd.lanes ≤ 16 }
    requires seats { AreSeats (crowd.probes + 1) shared.now.cells shared.now.classes seats }
    requires keeper { IsKeeperRest (crowd.probes + 1) shared.now.cells turn.now rest.old }
    ensures seats { IfOk result (λ s. (right : ℕ) × AreSeats right shared.now.cells shared.now.classes s) }
    ensures idle { IsIdle turn.now rest.new }
{
    let first = crowd.probes + 1;
    let (seats, lanes) = seat_lanes(alloc, shared, turn, rest, seats, first, crowd.lanes)?;
    play.play(rt, alloc, lanes)?;
    Ok(seats)
}

/// Runs the lanes over a pool that is made, and ends the keeper's turn.
fn run_lanes<'c, W: Threads + Wait + Sync, P: Play>(
    rt: &W,
    alloc: Global,
    panel: &'c Panel,
    shared: &'c Shared,
    seats: Seats,
    held: &[u64],
    bytes: Vec<u8>,
    crowd: Crowd,
    play: &mut P,
) -> Result<Kept, AllocError>
    requires crowd { (crowd.probes ≤ 15) × (crowd.probes + crowd.lanes ≤ 16) }
    requires seats { AreSeats 0 shared.now.cells shared.now.classes seats }
    requires units { KnowUnits shared.now.cells held.now seats.cells }
    ensures { IfOk result (λ k. (right : ℕ) × AreSeats right shared.now.cells shared.now.classes k.seats) }
{
    let (seats, passes) = seat_keeper(alloc, shared, seats)?;
    let (seats, probes) = seat_probes(alloc, shared, seats, crowd.probes)?;
    let device = Device::new(bytes, panel, probes);
    let store = open_store(alloc, device, At::Newest)?;
    let first = crowd.probes + 1;
    let (turn, mut rest) = keep(alloc, shared, store, held, passes, first)?;
    let played = play_lanes(rt, alloc, shared, &turn, &mut rest, seats, crowd, play);
    let (store, _, notes) = close_turn(rt, turn, rest).into_parts();
    let bytes = store.into_disk().into_bytes();
    Ok(Kept {
        seats: played?,
        notes,
        bytes,
    })
}

fn ms_journals(
    alloc: Global,
    metaslabs: Vec<Metaslab<RangeTrees>>,
) -> Result<Items<MsJournal>, AllocError> {
    let mut journals = Vec::new(alloc);
    for metaslab in metaslabs {
        journals.push(metaslab.into_journal())?;
    }
    Ok(Items::from_vec(journals))
}

/// The journals of the classes that have a vdev.
fn class_journals(
    alloc: Global,
    journals: Vec<ClassJournal>,
    layout: &Layout,
) -> Result<Items<ClassJournal>, AllocError> {
    let mut found = Vec::new(alloc);
    for journal in journals {
        let class = journal.class;
        if layout.vdevs.as_slice().iter().any(|row| row.class == class) {
            found.push(journal)?;
        }
    }
    Ok(Items::from_vec(found))
}

/// Ends the turns of the cells and classes.
fn end<W: Wait>(
    rt: &W,
    alloc: Global,
    shared: Shared,
    kept: Kept,
    layout: &Layout,
    bases: Vec<Items<Seg>>,
    group: Group,
) -> Result<Ended, AllocError>
    requires { (right : ℕ) × AreSeats right shared.cells shared.classes kept.seats }
{
    let Shared { cells, classes } = shared;
    let Kept {
        seats,
        notes,
        bytes,
    } = kept;
    let room = Vec::with_capacity(alloc, cells.metaslabs.len())?;
    let class_room = Vec::with_capacity(alloc, 4)?;
    let (gate, metaslabs) = close_cells(rt, cells, seats.cells, room);
    let journals = close_classes(rt, classes, seats.classes, class_room);
    Ok(Ended {
        bases,
        journals: Journals {
            opened: group,
            metaslabs: ms_journals(alloc, metaslabs)?,
            classes: class_journals(alloc, journals, layout)?,
            keeper: Items::from_vec(notes),
        },
        gate: gate.into_notes(),
        bytes,
    })
}

/// Opens a device at a group, runs lanes over its pool, and ends it.
pub fn run<W: Threads + Wait + Sync, P: Play>(
    rt: &W,
    alloc: Global,
    panel: &Panel,
    bytes: Vec<u8>,
    at: At,
    crowd: Crowd,
    play: &mut P,
) -> Result<Ended, AllocError>
    requires crowd { (crowd.probes ≤ 15) × (crowd.probes + crowd.lanes ≤ 16) }
{
    let device = Device::new(bytes, panel, Vec::new(alloc));
    let mut store = open_store(alloc, device, at)?;
    let surveyed = look_over(alloc, &mut store);
    let bytes = store.into_disk().into_bytes();
    let Survey {
        layout,
        group,
        bases,
        held,
    } = surveyed?;
    let again = copied(alloc, &layout)?;
    let kept_bases = copies(alloc, bases.as_slice())?;
    let (shared, cells, classes) = share(alloc, layout, group, bases, &held)?;
    let seats = Seats { cells, classes };
    let kept = run_lanes(rt, alloc, panel, &shared, seats, &held, bytes, crowd, play)?;
    end(rt, alloc, shared, kept, &again, kept_bases, group)
}
