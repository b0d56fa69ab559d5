//! What a lane answers.

use zms_units::{Copies, Damage, First, Group, MsId};

/// The answer to one command.
#[derive(Debug, Drop)]
pub enum Answer {
    /// An alloc was granted in this group: where its copies lie.
    Granted { group: Group, copies: Copies },
    /// No metaslab of the class and of normal had space for one copy: so many were looked at in vain.
    NoSpace { looked: u64 },
    /// The size is 0, or larger than a block may be.
    BadSize,
    /// A block has one to three copies.
    BadCopies,
    /// A free gave back in this group, or a sync made all groups up to this one durable.
    Done { group: Group },
    /// The lane was granted no block of this name.
    NoName,
    /// The lowest unit of what was to be freed that is not handed out in a group of at most the hold's, in bytes of its vdev.
    NotLive { vdev: u8, offset: u64 },
    /// There is no such vdev, or no such metaslab.
    NoSuch,
    /// It is no segment of a metaslab.
    BadSeg,
    /// The open group is the third above the synced one. No group was closed.
    Busy { open_group: Group, synced: Group },
    /// The metaslab's free space is in memory.
    Loaded,
    /// A call of the pool device failed: its count of faults before and after.
    Device { before: u64, after: u64 },
    /// The pool met this before, and neither loads nor writes since.
    Suspended { first: First },
    /// What was read of this metaslab is damaged.
    Damaged { id: MsId, damage: Damage },
    /// The group of the hold was collected already.
    Late { group: Group, collected: Group },
}

/// The reply to one command, with its lane.
#[derive(Debug, Drop)]
pub struct Reply {
    pub lane: u8,
    pub answer: Answer,
}
