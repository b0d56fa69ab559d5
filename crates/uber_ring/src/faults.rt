ghost use Rattle.std.specs.Prelude.{◌≡◌};
ghost use Rattle.uber_ring.specs.declared.faults.TableFault.TheVariants.{Failed as TableFailed, Memory};

use std::alloc::{AllocError, AllocFailed};
use vdev_map::Part;
use zms_dev::Failed;
use zms_units::Group;

/// Why a table was not read or written.
#[derive(Clone, Copy, Debug, PartialEq, Eq)]
pub enum TableFault {
    /// The device failed.
    Failed,
    Memory,
    /// The digest of the table differs from the one that its slot names.
    TableDamaged {
        group: Group,
        kept: [u8; 32],
        found: [u8; 32],
    },
    /// The digest is right, and the field that begins at this byte of the table is the first that is not.
    Malformed {
        part: Part,
        at: u64,
    },
}

impl From<Failed> for TableFault {
    ghost from_gives = { λ _ e. e ≡ TableFailed };

    fn from(_: Failed) -> Self {
        TableFault::Failed
    }
}

impl From<AllocError> for TableFault {
    ghost from_gives = { λ _ e. e ≡ Memory };

    fn from(_: AllocError) -> Self {
        TableFault::Memory
    }
}

impl<T: Drop> From<AllocFailed<T>> for TableFault {
    ghost from_gives = { λ _ e. e ≡ Memory };

    fn from(_: AllocFailed<T>) -> Self {
        TableFault::Memory
    }
}
