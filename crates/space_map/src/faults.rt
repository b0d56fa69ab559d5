use zms_units::MapFault;

/// Why a batch isn't written.
#[derive(Clone, Copy, Debug, PartialEq, Eq)]
pub enum AppendFault {
    /// There is no memory for its words.
    Memory,
}

/// Why a map isn't read.
#[derive(Clone, Copy, Debug, PartialEq, Eq)]
pub enum DecodeFault {
    /// Its words are at fault, first there.
    Map(MapFault),
    /// There is no memory for its runs.
    Memory,
}
