ghost use Rattle.std.specs.Prelude.{◌≡◌};
ghost use Rattle.zms_units.specs.Classes.{class_word};

/// An allocation class, after `metaslab_class_t`: what a vdev's space is kept for.
#[derive(Clone, Copy, Debug, Default, PartialEq, Eq)]
pub enum Class {
    #[default]
    Normal,
    Log,
    Special,
    Dedup,
}

impl Class {
    /// The class's word in texts.
    pub fn word(self) -> &'static str
        ensures { result.now ≡ class_word self }
    {
        match self {
            Class::Normal => "normal",
            Class::Log => "log",
            Class::Special => "special",
            Class::Dedup => "dedup",
        }
    }
}

/// Names a metaslab: the vdev's number in the pool, and the metaslab's number on that vdev, both from 0.
#[derive(Clone, Copy, Debug, PartialEq, Eq, PartialOrd, Ord)]
pub struct MsId {
    pub vdev: u8,
    pub index: u16,
}

/// What a pool keeps of one vdev: its class, the shift that makes a unit (`2^ashift` bytes), how many units each of
/// its metaslabs has, and how many metaslabs there are.
#[derive(Clone, Copy, Debug, PartialEq, Eq)]
pub struct VdevRow {
    pub class: Class,
    pub ashift: u8,
    pub units: u32,
    pub metaslabs: u16,
}
