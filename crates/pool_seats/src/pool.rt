//! A pool while its lanes run.

use class_group::{ClassPasses, Classes};
use lane_passes::LanePasses;
use ms_cell::{CellPasses, Cells};
use pool_keeper::Keeper;
use range_tree::RangeTrees;
use turn_cell::{Pass, Turn};
use zms_dev::Disk;

/// The keeper of a pool of this device.
pub type PoolKeeper<D> = Keeper<D, RangeTrees>;

/// What lanes share beside the keeper.
#[derive(Drop)]
pub struct Pool {
    pub cells: Cells<RangeTrees>,
    pub classes: Classes,
}

/// The passes of every right from one on, with which nobody notes. They close the turns, whatever became of the lanes.
#[derive(Drop)]
pub struct Rest {
    pub cells: CellPasses<RangeTrees>,
    pub classes: ClassPasses,
}

/// What a lane owns of a pool.
#[derive(Drop)]
pub struct Seat<D: Disk + Send> {
    pub passes: LanePasses<RangeTrees>,
    pub keeper: Pass<PoolKeeper<D>>,
}
