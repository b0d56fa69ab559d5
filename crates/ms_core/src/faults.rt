use zms_units::Group;

/// Why a metaslab refuses an action. A refusal changes nothing.
#[derive(Clone, Copy, Debug, PartialEq, Eq)]
pub enum MsFault {
    /// Its free space is not in memory.
    NotLoaded,
    /// This worker keeps requests away.
    Shut { by: u8 },
    /// It is disabled by another worker, or by none.
    NotYours { by: Option<u8> },
    /// This unit, the lowest of its kind, is not handed out, or not to the one who gives it back.
    NotLive { unit: u32 },
    /// The group's changes were gathered already.
    Late { group: Group, collected: Group },
    /// What this group changed is not settled.
    InUse { group: Group },
    /// The buffer has less room than this many runs need.
    Short { need: u64 },
}

/// How many of a metaslab's units are handed out, freed and not vacant yet, and free to be handed out.
#[derive(Clone, Copy, Debug, PartialEq, Eq)]
pub struct Counts {
    pub live: u32,
    pub deferred: u32,
    pub vacant: u32,
}
