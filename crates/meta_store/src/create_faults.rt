ghost use Rattle.std.specs.Prelude.{◌≡◌};
ghost use Rattle.meta_store.specs.declared.create_faults.CreateFault.TheVariants.{Failed as CreateFailed, Memory as CreateMemory};
ghost use Rattle.meta_store.specs.CreateFaults.{create_of_table};

use std::alloc::{AllocError, AllocFailed};
use uber_ring::TableFault;
use zms_dev::Failed;
use zms_units::Group;

/// Why no pool was made.
#[derive(Clone, Copy, Debug, PartialEq, Eq)]
pub enum CreateFault {
    /// The device has a pool, whose newest group this is. Nothing was written.
    AlreadyPool { newest: Group },
    /// The device failed. Once its first flush went well, there is no pool, or all of it.
    Failed,
    /// There is no pool, and the same pool may be made again.
    Memory,
}

impl From<Failed> for CreateFault {
    ghost from_gives = { λ _ e. e ≡ CreateFailed };

    fn from(_: Failed) -> Self {
        CreateFault::Failed
    }
}

impl From<AllocError> for CreateFault {
    ghost from_gives = { λ _ e. e ≡ CreateMemory };

    fn from(_: AllocError) -> Self {
        CreateFault::Memory
    }
}

impl<T: Drop> From<AllocFailed<T>> for CreateFault {
    ghost from_gives = { λ _ e. e ≡ CreateMemory };

    fn from(_: AllocFailed<T>) -> Self {
        CreateFault::Memory
    }
}

impl From<TableFault> for CreateFault {
    ghost from_gives = { λ fault e. e ≡ create_of_table fault };

    // A table that is written is not read, so there is no other fault.
    fn from(fault: TableFault) -> Self {
        match fault {
            TableFault::Failed => CreateFault::Failed,
            _ => CreateFault::Memory,
        }
    }
}
