use zms_units::{Group, MsId, Seg};

/// What a worker does with a segment: write the initialising value, or trim it.
#[derive(Clone, Copy, Debug, PartialEq, Eq)]
pub enum WorkKind {
    Init,
    Trim,
}

/// One act on a metaslab, as its journal keeps it.
#[derive(Clone, Copy, Debug, PartialEq, Eq)]
pub enum Act {
    /// The segment was handed out in this group.
    Grant {
        group: Group,
        seg: Seg,
    },
    /// The segment was freed in this group.
    Free {
        group: Group,
        seg: Seg,
    },
    /// A grant of this group was taken back before the group closed.
    Unalloc {
        group: Group,
        seg: Seg,
    },
    /// A request of this many units found no run that is long enough.
    Miss {
        count: u32,
    },
    /// A request met a worker.
    Shut,
    /// The group's changes were gathered for its commit.
    Collect {
        group: Group,
    },
    /// The group is lasting: what was freed two groups before is vacant from now on.
    Settle {
        group: Group,
    },
    /// The metaslab's free space was brought into memory.
    Load,
    /// It was given up again.
    Unload,
    /// A worker keeps grants away.
    Disable {
        worker: u8,
    },
    /// A worker takes a vacant segment to write or trim it.
    Work {
        worker: u8,
        kind: WorkKind,
        seg: Seg,
    },
    /// The worker is done.
    Enable {
        worker: u8,
    },
}

/// A note of a metaslab's journal: an act, and the lane whose command did it, 1 to `MAX_LANES`. Collect, settle, load and
/// unload are the keeper's acts, told by their kind: they carry the lane that asked for them.
#[derive(Clone, Copy, Debug, PartialEq, Eq)]
pub struct Noted {
    pub lane: u8,
    pub act: Act,
}

/// A note of the gate's journal: the open group was closed by a lane, or a group is settled.
#[derive(Clone, Copy, Debug, PartialEq, Eq)]
pub enum GateNote {
    Closed { lane: u8, group: Group },
    Settled { group: Group },
}

/// Which copy of a block a pick is for: the first, or a later one.
#[derive(Clone, Copy, Debug, PartialEq, Eq)]
pub enum Kind {
    Primary,
    Secondary,
}

/// Where a pick begins: at the active metaslab, at the best one, or after the one that was picked last.
#[derive(Clone, Copy, Debug, PartialEq, Eq)]
pub enum Start {
    Active,
    Top,
    After { weight: u64, index: u16 },
}

/// A metaslab that a pick gave, with its weight at the pick.
#[derive(Clone, Copy, Debug, PartialEq, Eq)]
pub struct Got {
    pub index: u16,
    pub weight: u64,
}

/// A note of a class's journal.
#[derive(Clone, Copy, Debug, PartialEq, Eq)]
pub enum ClassNote {
    Pick {
        allocator: u8,
        kind: Kind,
        vdev: u8,
        bytes: u64,
        start: Start,
        got: Option<Got>,
    },
    Granted {
        id: MsId,
        bytes: u64,
        weight: u64,
    },
    Missed {
        id: MsId,
        weight: u64,
    },
    Weigh {
        id: MsId,
        weight: u64,
    },
}

/// A note of the keeper's journal: a sync that committed up to a group, the first fault, or the first damage.
#[derive(Clone, Copy, Debug, PartialEq, Eq)]
pub enum KeeperNote {
    Sync { group: Group },
    Fault { before: u64, after: u64 },
    Damaged { id: MsId },
}

/// What a worker did on a data device, or the count of faults before and after a call that failed.
#[derive(Clone, Copy, Debug, PartialEq, Eq)]
pub enum Did {
    Wrote {
        index: u16,
        seg: Seg,
    },
    Discarded {
        index: u16,
        seg: Seg,
    },
    Fault {
        index: u16,
        seg: Seg,
        before: u64,
        after: u64,
    },
}

/// A note of a data device's journal.
#[derive(Clone, Copy, Debug, PartialEq, Eq)]
pub struct DeviceNote {
    pub lane: u8,
    pub did: Did,
}
