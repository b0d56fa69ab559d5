ghost use Rattle.std.specs.Prelude.{◌≡◌};
ghost use Rattle.meta_store.specs.declared.causes.FoundFault.TheVariants.{Failed as FoundFailed, Memory as FoundMemory};
ghost use Rattle.meta_store.specs.declared.causes.OpenFault.TheVariants.{Failed as OpenFailed, Memory as OpenMemory};
ghost use Rattle.meta_store.specs.Faults.{of_table, of_found};

use std::alloc::{AllocError, AllocFailed};
use uber_ring::TableFault;
use vdev_map::Part;
use zms_dev::Failed;
use zms_units::{Damage, Group, MsId};

/// At which group a pool is opened.
#[derive(Clone, Copy, Debug, PartialEq, Eq)]
pub enum At {
    /// The greatest group that has a valid slot.
    Newest,
    /// This group, which must have a valid slot and be at most two below the newest.
    Group(Group),
}

/// Why a pool does not open at a group: the first cause that its device shows, in this order, where a malformed head comes
/// before the table, and a malformed table before the metaslabs.
#[derive(Clone, Copy, Debug, PartialEq, Eq)]
pub enum OpenCause {
    /// No slot is valid.
    NoSlot,
    /// The group has no valid slot, or is more than two below the newest.
    NotRetained {
        asked: Group,
        newest: Group,
    },
    /// Groups from 2^49 on are not opened.
    Spent {
        group: Group,
    },
    /// The digest that stands in the head differs from that of its fields.
    HeadDamaged {
        kept: [u8; 32],
        found: [u8; 32],
    },
    /// The digest of the group's table differs from the one that its slot names.
    TableDamaged {
        group: Group,
        kept: [u8; 32],
        found: [u8; 32],
    },
    /// The digest of a part is right, and the field that begins at this byte of it is the first that is not.
    Malformed {
        part: Part,
        at: u64,
    },
    /// The words of a metaslab cannot be read, or do not hold as many units as its row says. Of the metaslabs in order it
    /// is the first.
    MapDamaged {
        id: MsId,
        damage: Damage,
    },
}

/// Why a pool was not opened.
#[derive(Clone, Copy, Debug, PartialEq, Eq)]
pub enum OpenFault {
    Cause(OpenCause),
    /// The device failed.
    Failed,
    Memory,
}

/// Why the units of a metaslab were not found.
#[derive(Clone, Copy, Debug, PartialEq, Eq)]
pub enum FoundFault {
    /// The device failed.
    Failed,
    Memory,
    /// The words that were read are damaged.
    Damaged { id: MsId, damage: Damage },
}

impl From<Failed> for OpenFault {
    ghost from_gives = { λ _ e. e ≡ OpenFailed };

    fn from(_: Failed) -> Self {
        OpenFault::Failed
    }
}

impl From<AllocError> for OpenFault {
    ghost from_gives = { λ _ e. e ≡ OpenMemory };

    fn from(_: AllocError) -> Self {
        OpenFault::Memory
    }
}

impl From<Failed> for FoundFault {
    ghost from_gives = { λ _ e. e ≡ FoundFailed };

    fn from(_: Failed) -> Self {
        FoundFault::Failed
    }
}

impl From<AllocError> for FoundFault {
    ghost from_gives = { λ _ e. e ≡ FoundMemory };

    fn from(_: AllocError) -> Self {
        FoundFault::Memory
    }
}

impl<T: Drop> From<AllocFailed<T>> for FoundFault {
    ghost from_gives = { λ _ e. e ≡ FoundMemory };

    fn from(_: AllocFailed<T>) -> Self {
        FoundFault::Memory
    }
}

impl From<TableFault> for OpenFault {
    ghost from_gives = { λ fault e. e ≡ of_table fault };

    fn from(fault: TableFault) -> Self {
        match fault {
            TableFault::Failed => OpenFault::Failed,
            TableFault::Memory => OpenFault::Memory,
            TableFault::TableDamaged { group, kept, found } => {
                OpenFault::Cause(OpenCause::TableDamaged { group, kept, found })
            }
            TableFault::Malformed { part, at } => {
                OpenFault::Cause(OpenCause::Malformed { part, at })
            }
        }
    }
}

impl From<FoundFault> for OpenFault {
    ghost from_gives = { λ fault e. e ≡ of_found fault };

    fn from(fault: FoundFault) -> Self {
        match fault {
            FoundFault::Failed => OpenFault::Failed,
            FoundFault::Memory => OpenFault::Memory,
            FoundFault::Damaged { id, damage } => {
                OpenFault::Cause(OpenCause::MapDamaged { id, damage })
            }
        }
    }
}
