//! One lane of a pool: its calls, each of which any lane may make at any time.
ghost use Rattle.std.specs.Prelude.{◌≡◌, true, []};
ghost use Rattle.vdev_map.specs.Numbers.{IsIn, row_at};
ghost use Rattle.ms_model.specs.Legal.{IsWithin};
ghost use Rattle.lane_passes.specs.Lanes.{IsSeated};
ghost use Rattle.pool_keeper.specs.Serving.{Serves};

use crate::device::Device;
use crate::pool::Pool;
use class_group::Classes;
use lane_passes::LanePasses;
use ms_cell::{
    CellFault, CloseFault, LoadFault, Loader, Look, close_open_at, free_at, grant_at, hold_at,
    release_at,
};
use pool_keeper::{LaneKeeper, SyncFault, sync};
use range_tree::RangeTrees;
use std::marker::Model;
use std::sync::Wait;
use txg_gate::Hold;
use zms_units::{Group, MsId, Seg};

/// How many groups a lane may close.
const MOST_CLOSINGS: u32 = 200_000;

/// The most units that are asked for at once.
const MOST_UNITS: u32 = 131_072;

pub type RowKeeper<'a, 'c> = LaneKeeper<'a, Device<'c>, RangeTrees>;

/// What a lane has of a pool.
#[derive(Drop)]
pub struct Lane<'a, 'c> {
    cells: &'c Pool,
    classes: &'c Classes,
    keeper: RowKeeper<'a, 'c>,
    passes: LanePasses<RangeTrees>,
    /// At least as many as the groups that it closed.
    closed: u32,
}

impl<'a, 'c> Model for Lane<'a, 'c> {
    ghost use Rattle.std.specs.Prelude.{ℕ};
    ghost use Rattle.keeper_rows.specs.AtWork.{IsAtWork};

    ghost Value = { ℕ };

    ghost view = { λ l. l.passes.lane };

    ghost invariant = { λ l. IsAtWork l.cells.now l.classes.now l.closed l.keeper l.passes };
}

/// What came of a call at a metaslab.
#[derive(Clone, Copy, Debug, PartialEq, Eq)]
pub enum Asked {
    Granted { group: Group, seg: Seg },
    Freed { group: Group },
    Missed,
    NotLoaded,
    Refused(CellFault),
    /// The pool has no such metaslab, or the metaslab no such units.
    NoSuch,
}

/// Whether the pool has a metaslab.
fn is_in(cells: &Pool, id: MsId) -> bool
    ensures { result ≡ true → IsIn cells.now.vdevs id }
{
    let vdevs = cells.layout.vdevs.as_slice();
    (id.vdev as usize) < vdevs.len() && id.index < vdevs[id.vdev as usize].metaslabs
}

/// Whether a segment is not empty, and within the metaslab.
fn is_within(cells: &Pool, id: MsId, seg: Seg) -> bool
    requires { IsIn cells.now.vdevs id }
    ensures { result ≡ true → IsWithin (row_at cells.now.vdevs id.vdev).units seg }
{
    let units = cells.layout.vdevs.as_slice()[id.vdev as usize].units;
    seg.count > 0 && seg.count <= units && seg.start <= units - seg.count
}

impl<'a, 'c> Lane<'a, 'c> {
    pub fn new(
        cells: &'c Pool,
        classes: &'c Classes,
        keeper: RowKeeper<'a, 'c>,
        passes: LanePasses<RangeTrees>,
    ) -> Self
        requires seated { IsSeated cells.now classes.now passes }
        requires serves { Serves keeper passes.lane cells.now }
        requires seen { passes.cells.gate.seen ≡ [] }
    {
        Lane {
            cells,
            classes,
            keeper,
            passes,
            closed: 0,
        }
    }

    pub fn number(&self) -> u8 {
        self.passes.lane
    }

    /// Holds the open group.
    pub fn hold<W: Wait>(&mut self, rt: &W) -> Hold {
        hold_at(rt, self.cells, &mut self.passes.cells)
    }

    /// Gives a hold up.
    pub fn release<W: Wait>(&mut self, rt: &W, hold: Hold) {
        release_at(rt, self.cells, &mut self.passes.cells, hold);
    }

    /// Asks a metaslab for units in a group.
    pub fn ask<W: Wait>(&mut self, rt: &W, id: MsId, group: Group, count: u32) -> Asked {
        let lane = self.passes.lane;
        if !is_in(self.cells, id) || count == 0 || count > MOST_UNITS {
            return Asked::NoSuch;
        }
        let cells = self.cells;
        match grant_at(rt, cells, &mut self.passes.cells, lane, id, group, count) {
            Ok(Look::Granted(seg)) => Asked::Granted { group, seg },
            Ok(Look::NotLoaded) => Asked::NotLoaded,
            Ok(_) => Asked::Missed,
            Err(fault) => Asked::Refused(fault),
        }
    }

    /// Frees units of a metaslab in the group of a hold.
    pub fn free<W: Wait>(&mut self, rt: &W, id: MsId, hold: &Hold, seg: Seg) -> Asked {
        let lane = self.passes.lane;
        let cells = self.cells;
        if !is_in(cells, id) || !is_within(cells, id, seg) {
            return Asked::NoSuch;
        }
        match free_at(rt, cells, &mut self.passes.cells, lane, id, hold, seg) {
            Ok(()) => Asked::Freed { group: hold.group },
            Err(fault) => Asked::Refused(fault),
        }
    }

    /// Brings a metaslab's free space into memory. None where the pool has no such metaslab.
    pub fn load<W: Wait>(&mut self, rt: &W, id: MsId) -> Option<Result<(), LoadFault>> {
        let lane = self.passes.lane;
        let cells = self.cells;
        if !is_in(cells, id) {
            return None;
        }
        Some(
            self.keeper
                .load(rt, cells, &mut self.passes.cells, lane, id),
        )
    }

    /// Closes the open group, and makes nothing durable.
    pub fn close<W: Wait>(&mut self, rt: &W) -> Result<Group, CloseFault> {
        if self.closed >= MOST_CLOSINGS {
            return Err(CloseFault::Memory);
        }
        let lane = self.passes.lane;
        self.closed += 1;
        close_open_at(rt, self.cells, &mut self.passes.cells, lane)
    }

    pub fn sync<W: Wait>(&mut self, rt: &W) -> Result<Group, SyncFault> {
        if self.closed >= MOST_CLOSINGS {
            return Err(SyncFault::Memory);
        }
        self.closed += 1;
        let (cells, classes) = (self.cells, self.classes);
        sync(rt, cells, classes, &mut self.keeper, &mut self.passes)
    }
}
