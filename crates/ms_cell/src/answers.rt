use ms_core::MsFault;
use txg_gate::TooMany;
use zms_units::Seg;

/// What a lane that asks for units finds at one metaslab.
#[derive(Clone, Copy, Debug, PartialEq, Eq)]
pub enum Look {
    /// These units are its own now.
    Granted(Seg),
    /// No so many vacant units stand in a row.
    Miss,
    /// A worker keeps requests away.
    Shut,
    /// Free space is not in memory.
    NotLoaded,
}

/// Why a call at a metaslab did nothing.
#[derive(Clone, Copy, Debug, PartialEq, Eq)]
pub enum CellFault {
    /// Another holder has the turn. Only a call that doesn't wait answers it.
    Busy,
    /// The metaslab refused.
    Ms(MsFault),
    Memory,
}

/// Why the open group was not closed.
#[derive(Clone, Copy, Debug, PartialEq, Eq)]
pub enum CloseFault {
    TooMany(TooMany),
    Memory,
}
