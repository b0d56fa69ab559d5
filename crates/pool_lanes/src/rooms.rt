//! Room for all that a run hands back, taken before its first lane begins, so that closing a pool takes no memory.
ghost use Rattle.std.specs.Prelude.{IfOk};
ghost use Rattle.pool_lanes.specs.Rooms.{AreRooms};

use lane_run::Reply;
use ms_core::{Counts, Metaslab};
use ms_model::{ClassJournal, MsJournal};
use pool_seats::Seat;
use range_tree::RangeTrees;
use std::alloc::{AllocError, Global};
use zms_dev::Disk;

#[derive(Drop)]
pub(crate) struct Rooms<D: Disk + Send> {
    pub(crate) seats: Vec<Seat<D>>,
    pub(crate) lists: Vec<Vec<Reply>>,
    pub(crate) replies: Vec<Reply>,
    pub(crate) metaslabs: Vec<Metaslab<RangeTrees>>,
    pub(crate) journals: Vec<MsJournal>,
    pub(crate) totals: Vec<Counts>,
    pub(crate) classes: Vec<ClassJournal>,
}

/// Room for so many lanes, commands and metaslabs.
pub(crate) fn make_rooms<D: Disk + Send>(
    alloc: Global,
    lanes: usize,
    commands: usize,
    metaslabs: usize,
) -> Result<Rooms<D>, AllocError>
    ensures { IfOk result (λ rooms. AreRooms lanes commands metaslabs rooms) }
{
    Ok(Rooms {
        seats: Vec::with_capacity(alloc, lanes)?,
        lists: Vec::with_capacity(alloc, lanes)?,
        replies: Vec::with_capacity(alloc, commands)?,
        metaslabs: Vec::with_capacity(alloc, metaslabs)?,
        journals: Vec::with_capacity(alloc, metaslabs)?,
        totals: Vec::with_capacity(alloc, metaslabs)?,
        classes: Vec::with_capacity(alloc, 4)?,
    })
}
