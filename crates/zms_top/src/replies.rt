//! What the lanes answer.

use zms_units::{Copies, Damage, First, Group, MsId};

/// The answer to one command.
#[derive(Debug, Drop)]
pub enum Answer {
    /// An alloc was granted in this group: where its copies lie.
    Granted { group: Group, copies: Copies },
    /// No metaslab had room: how many were looked at.
    NoSpace { looked: u64 },
    /// The size is 0, or larger than a block may be.
    BadSize,
    /// A free gave the block back in this group, or a sync made all groups up to this one lasting.
    Done { group: Group },
    /// The lane was granted no block of this name.
    NoName,
    /// A unit of the block is not handed out in a group of at most the open one: the lowest such unit, in bytes of its
    /// vdev.
    NotLive { vdev: u8, offset: u64 },
    /// A call of the pool device failed: its count of faults before and after.
    Device { before: u64, after: u64 },
    /// The words of a metaslab that a sync read again on the pool device are damaged.
    Damaged { id: MsId, damage: Damage },
    /// The pool device isn't written any more, since this happened.
    Suspended { first: First },
}

/// The reply to one command, with its lane.
#[derive(Debug, Drop)]
pub struct Reply {
    pub lane: u8,
    pub answer: Answer,
}
