ghost use Rattle.std.specs.Prelude.{◌≡◌};
ghost use Rattle.pool_keeper.specs.Lines.{load_fault, sync_fault};

use ms_cell::LoadFault;
use zms_units::{Damage, First, Group, MsId};

/// Why a sync was not done.
#[derive(Clone, Copy, Debug, PartialEq, Eq)]
pub enum SyncFault {
    /// The pool met a fault or damage before, and writes nothing since.
    Suspended { first: First },
    /// The open group is the third above the synced one, twice. The lane closed no group.
    Busy { open_group: Group, synced: Group },
    /// The device failed in this sync: its count of faults before and after it.
    Device { before: u64, after: u64 },
    /// What was read is damaged.
    Damaged { id: MsId, damage: Damage },
    Memory,
}

/// The refusal of a load that met this.
pub(crate) fn load_fault(first: First) -> LoadFault
    ensures { result ≡ load_fault first }
{
    match first {
        First::Device { before, after } => LoadFault::Device { before, after },
        First::Damaged { id, damage } => LoadFault::Damaged { id, damage },
    }
}

/// The fault of a sync that met this.
pub(crate) fn sync_fault(first: First) -> SyncFault
    ensures { result ≡ sync_fault first }
{
    match first {
        First::Device { before, after } => SyncFault::Device { before, after },
        First::Damaged { id, damage } => SyncFault::Damaged { id, damage },
    }
}
