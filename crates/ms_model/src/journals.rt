use crate::{ClassNote, KeeperNote, Noted};
use zms_units::{Class, Group, Items, MsId};

/// A metaslab's journal: its name, its units and their shift, how many units its base holds, and the notes since the
/// pool was opened.
#[derive(Debug, Drop)]
pub struct MsJournal {
    pub id: MsId,
    pub units: u32,
    pub ashift: u8,
    pub held: u32,
    pub notes: Items<Noted>,
}

/// A class's journal, each note with its lane.
#[derive(Debug, Drop)]
pub struct ClassJournal {
    pub class: Class,
    pub notes: Items<(u8, ClassNote)>,
}

/// All that a trace holds: the group at which the pool was opened, and each journal, metaslabs by vdev and index,
/// classes in their order, each note with its lane.
#[derive(Debug, Drop)]
pub struct Journals {
    pub opened: Group,
    pub metaslabs: Items<MsJournal>,
    pub classes: Items<ClassJournal>,
    pub keeper: Items<(u8, KeeperNote)>,
}
