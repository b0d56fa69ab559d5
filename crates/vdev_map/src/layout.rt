use zms_units::{Items, MsId, Seg, VdevRow};

/// How a pool keeps the words of its metaslabs, as the version in its head says.
#[derive(Clone, Copy, Debug, PartialEq, Eq)]
pub enum Form {
    /// Version 0: the words of each group lie whole in one of eight slots of the metaslab. There are no logs.
    Whole,
    /// Version 1: a metaslab has two sides, which are written in turn, and each group has a log, after OpenZFS's
    /// `spa_log_spacemap.c`.
    Logged,
}

/// What the head of a pool says besides its text: the form, how many groups a metaslab may stay unflushed, and the most
/// runs that one group logs.
#[derive(Clone, Copy, Debug, PartialEq, Eq)]
pub struct Head {
    pub form: Form,
    pub flush: u32,
    pub log: u32,
}

/// What a pool is made of: how many groups a metaslab may stay unflushed, the most runs that one group logs, and its
/// vdevs, which are numbered from 0.
#[derive(Debug, Drop)]
pub struct Layout {
    pub flush: u32,
    pub log: u32,
    pub vdevs: Items<VdevRow>,
}

/// What one group does to one metaslab: the runs that it allocates and those that it frees, in units of the metaslab.
#[derive(Debug, Drop)]
pub struct Batch {
    pub id: MsId,
    pub allocs: Items<Seg>,
    pub frees: Items<Seg>,
}

/// A part of the device whose fields may be malformed.
#[derive(Clone, Copy, Debug, PartialEq, Eq)]
pub enum Part {
    Head,
    Table,
}

/// The first limit that a layout passes, in the order in which limits are told: by kind, and of one kind by vdev.
#[derive(Clone, Copy, Debug, PartialEq, Eq)]
pub enum LayoutFault {
    /// A metaslab stays unflushed for 2 to 32 groups.
    Flush,
    /// A group logs 64 to 65536 runs.
    Log,
    /// There are 1 to 16 vdevs.
    Vdevs,
    /// A unit has `2^ashift` bytes, for an ashift of 9 to 12.
    Ashift { vdev: u8 },
    /// A metaslab has 64 to 131072 units.
    Units { vdev: u8 },
    /// A vdev has at least one metaslab.
    Metaslabs { vdev: u8 },
    /// There are at most 4194304 units in all.
    TotalUnits,
    /// There are at most 1024 metaslabs in all.
    TotalMetaslabs,
    /// At least one vdev is normal.
    NoNormal,
}
