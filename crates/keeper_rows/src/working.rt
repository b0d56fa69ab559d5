//! What a lane does between two syncs: it asks for units, and frees what it was granted.

use crate::lane::{Asked, Lane};
use std::sync::Wait;
use zms_units::{Group, MsId, Seg};

/// How many metaslabs a lane asks in turn.
const METASLABS: u32 = 4;

/// A segment that a lane was granted.
#[derive(Clone, Copy)]
pub struct Piece {
    id: MsId,
    seg: Seg,
}

/// Asks a metaslab for units in a group, and loads it if need be.
fn ask<W: Wait>(rt: &W, lane: &mut Lane<'_, '_>, id: MsId, group: Group, count: u32) -> Asked {
    match lane.ask(rt, id, group, count) {
        Asked::NotLoaded => {
            if lane.load(rt, id) != Some(Ok(())) {
                return Asked::NotLoaded;
            }
            lane.ask(rt, id, group, count)
        }
        asked => asked,
    }
}

/// A piece of the first of some metaslabs, from one on, that has room.
fn find_piece<W: Wait>(
    rt: &W,
    lane: &mut Lane<'_, '_>,
    start: u32,
    group: Group,
    count: u32,
) -> Option<Piece> {
    for look in 0..METASLABS {
        let id = MsId {
            vdev: 0,
            index: (start.wrapping_add(look) % METASLABS) as u16,
        };
        match ask(rt, lane, id, group, count) {
            Asked::Granted { seg, .. } => return Some(Piece { id, seg }),
            Asked::Missed => {}
            _ => return None,
        }
    }
    None
}

/// One command: frees what stands in the slot, or is granted something into it. False where it could not.
pub fn command<W: Wait>(
    rt: &W,
    lane: &mut Lane<'_, '_>,
    number: u32,
    slot: &mut Option<Piece>,
) -> bool {
    let hold = lane.hold(rt);
    let group = hold.group;
    let done = match *slot {
        Some(Piece { id, seg }) => {
            *slot = None;
            lane.free(rt, id, &hold, seg) == Asked::Freed { group }
        }
        None => {
            let start = number.wrapping_add(u32::from(lane.number()));
            *slot = find_piece(rt, lane, start, group, 1 + number % 4);
            slot.is_some()
        }
    };
    lane.release(rt, hold);
    done
}
