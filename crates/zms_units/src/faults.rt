use crate::MsId;

/// Why a word of a space map is refused.
#[derive(Clone, Copy, Debug, PartialEq, Eq)]
pub enum MapCause {
    /// The pad bits of a two-word entry are not zero.
    BadPad,
    /// A two-word entry has no second word.
    Short,
    /// A two-word entry begins at the last word of a block.
    Straddle,
    /// An entry is written in a form that this kind of map doesn't use for it.
    Spelling,
    /// An entry names a vdev that it may not name.
    Vdev,
    /// An entry reaches past the range that the map describes.
    Range,
}

/// The first fault of a space map: the number of the word at which the faulty entry begins, and why.
#[derive(Clone, Copy, Debug, PartialEq, Eq)]
pub struct MapFault {
    pub word: u64,
    pub cause: MapCause,
}

/// What is wrong with a metaslab's side as it was read.
#[derive(Clone, Copy, Debug, PartialEq, Eq)]
pub enum Damage {
    /// A word of it is not in the grammar.
    Word(MapFault),
    /// It holds another number of units than the table says.
    Counts { kept: u64, found: u64 },
    /// It differs from what the settled groups hold, first at this unit.
    Unit { unit: u32 },
}

/// The first fault or damage that a pool met, after which its device is written no more.
#[derive(Clone, Copy, Debug, PartialEq, Eq)]
pub enum First {
    /// A device call failed: the device's count of faults before and after it.
    Device { before: u64, after: u64 },
    /// A metaslab's side was read and found damaged.
    Damaged { id: MsId, damage: Damage },
}
