//! The limits of a pool and of a run. `specs/Limits.antt` says which numbers lie within them.

/// A unit has `2^ashift` bytes: 512 to 4096.
pub const MIN_ASHIFT: u8 = 9;

pub const MAX_ASHIFT: u8 = 12;

/// How many units a metaslab may have.
pub const MIN_UNITS: u32 = 64;

pub const MAX_UNITS: u32 = 131_072;

/// The largest block, in bytes: OpenZFS's `SPA_MAXBLOCKSIZE`, 16 MiB.
pub const MAX_BLOCK_SIZE: u64 = 16_777_216;

/// The group with which a pool begins: OpenZFS's `TXG_INITIAL`.
pub const FIRST_GROUP: u64 = 4;

/// A pool may be opened at groups below this.
pub const GROUPS_END: u64 = 562_949_953_421_312;

/// The lanes are numbered from 1 to this.
pub const MAX_LANES: u8 = 16;

/// How many commands a run may have.
pub const MAX_COMMANDS: usize = 200_000;

/// The most that the number of a run's commands times the number of its metaslabs may be.
pub const MAX_COMMANDS_TIMES_METASLABS: u64 = 4_194_304;

/// How many bytes a command file may have.
pub const MAX_TEXT_BYTES: usize = 16_777_216;

/// How many data devices a pool may have.
pub const MAX_DEVICES: usize = 16;

/// How many cursors a metaslab has: one for each alignment that a count of units may have.
pub const CURSORS: usize = 18;

/// How many buckets a histogram has: one for each highest set bit of a length in bytes.
pub const BUCKETS: usize = 64;

/// Space may be ample where some run has this many bytes: OpenZFS's `metaslab_df_alloc_threshold`, 128 KiB.
pub const AMPLE_BYTES: u32 = 131_072;

/// And where at least one unit in so many is free: OpenZFS's `metaslab_df_free_pct`, 4 percent.
pub const AMPLE_SHARE: u32 = 25;
