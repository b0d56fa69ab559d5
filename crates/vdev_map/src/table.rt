use zms_units::{Group, Items, VdevRow};

/// What a group needs to be opened: the vdevs, the logs that it names, and one row a metaslab, in order of vdev and
/// index.
#[derive(Debug, Drop)]
pub struct Table {
    pub group: Group,
    pub vdevs: Items<VdevRow>,
    pub logs: Items<LogRow>,
    pub rows: Items<MsRow>,
}

/// A log that a table names: the group of its changes, how many words it has, and their SHA-256 digest.
#[derive(Clone, Copy, Debug, PartialEq, Eq)]
pub struct LogRow {
    pub group: Group,
    pub words: u64,
    pub digest: [u8; 32],
}

/// What a table says of one metaslab: the place of its words in bytes from the device's start, how many words there are,
/// the first group whose changes are not in them, how many units are held, and on which side the words lie.
#[derive(Clone, Copy, Debug, PartialEq, Eq)]
pub struct MsRow {
    pub place: u64,
    pub words: u64,
    pub unflushed: Group,
    pub held: u64,
    pub side: u32,
}
