use sm_entry::SmType;

/// A run of a map: `run` units (of a side) or sectors of 512 bytes (of a log), `offset` after the start.
#[derive(Clone, Copy, Debug, PartialEq, Eq)]
pub struct Run {
    pub offset: u64,
    pub run: u64,
    pub kind: SmType,
}

/// What a map describes.
#[derive(Clone, Copy, Debug, PartialEq, Eq)]
pub enum MapKind {
    /// One metaslab of so many units, in units from its start.
    Side { units: u32 },
    /// All vdevs of a pool, in sectors of 512 bytes from each vdev's start.
    Log,
}

/// A run as it was found in a map, with the vdev that its entry names: 0 in a side.
#[derive(Clone, Copy, Debug, PartialEq, Eq)]
pub struct Found {
    pub vdev: u32,
    pub run: Run,
}

/// Where a batch is written.
#[derive(Clone, Copy, Debug, PartialEq, Eq)]
pub enum Place {
    /// On a metaslab's side, where `before` words stand before the given ones.
    Side {
        before: u64,
    },
    /// In a log, from whose start the given words are: the metaslab's vdev, the sector at which the metaslab begins, and
    /// the shift that makes a unit, `2^ashift` bytes.
    Log {
        vdev: u32,
        start_sector: u64,
        ashift: u8,
    },
}
