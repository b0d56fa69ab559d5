ghost use Rattle.std.specs.Prelude.{◌≡◌};
ghost use Rattle.meta_store.specs.declared.commit_faults.CommitFault.TheVariants.{Failed as CommitFailed, Memory as CommitMemory};
ghost use Rattle.meta_store.specs.CommitFaults.{commit_of_found, commit_of_table};

use crate::FoundFault;
use space_map::AppendFault;
use std::alloc::{AllocError, AllocFailed};
use uber_ring::TableFault;
use zms_dev::Failed;
use zms_units::{Damage, MsId};

/// Why a group was not committed.
#[derive(Clone, Copy, Debug, PartialEq, Eq)]
pub enum CommitFault {
    /// The device failed. Each group that could be opened can be opened still; whether the new one can is not known.
    Failed,
    /// All is as before, and the same commit may be called again.
    Memory,
    /// The words of the group before, which are read again, are damaged. Nothing was made openable.
    Damaged { id: MsId, damage: Damage },
}

impl From<Failed> for CommitFault {
    ghost from_gives = { λ _ e. e ≡ CommitFailed };

    fn from(_: Failed) -> Self {
        CommitFault::Failed
    }
}

impl From<AllocError> for CommitFault {
    ghost from_gives = { λ _ e. e ≡ CommitMemory };

    fn from(_: AllocError) -> Self {
        CommitFault::Memory
    }
}

impl<T: Drop> From<AllocFailed<T>> for CommitFault {
    ghost from_gives = { λ _ e. e ≡ CommitMemory };

    fn from(_: AllocFailed<T>) -> Self {
        CommitFault::Memory
    }
}

impl From<AppendFault> for CommitFault {
    ghost from_gives = { λ _ e. e ≡ CommitMemory };

    fn from(_: AppendFault) -> Self {
        CommitFault::Memory
    }
}

impl From<FoundFault> for CommitFault {
    ghost from_gives = { λ fault e. e ≡ commit_of_found fault };

    fn from(fault: FoundFault) -> Self {
        match fault {
            FoundFault::Failed => CommitFault::Failed,
            FoundFault::Memory => CommitFault::Memory,
            FoundFault::Damaged { id, damage } => CommitFault::Damaged { id, damage },
        }
    }
}

impl From<TableFault> for CommitFault {
    ghost from_gives = { λ fault e. e ≡ commit_of_table fault };

    // A table that is written is not read, so there is no other fault.
    fn from(fault: TableFault) -> Self {
        match fault {
            TableFault::Failed => CommitFault::Failed,
            _ => CommitFault::Memory,
        }
    }
}
