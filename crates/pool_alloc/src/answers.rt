use ms_cell::LoadFault;
use zms_units::{Copies, Damage, First, Group, MsId};

/// Why an allocation was refused.
#[derive(Debug, Drop)]
pub enum AllocFault {
    /// The size is not that of a block: 0, or above `MAX_BLOCK_SIZE`.
    BadSize,
    /// A block has one to three copies.
    BadCopies,
    /// No metaslab of the class and of normal has space for one copy: so many failed, each counted once.
    NoSpace { looked: u64 },
    /// The group of the hold was collected already.
    Late { group: Group, collected: Group },
    /// The pool device failed in a load: its count of faults before and after it.
    Device { before: u64, after: u64 },
    /// What a load read is damaged.
    Damaged { id: MsId, damage: Damage },
    /// The pool met a fault or damage before, and loads nothing since.
    Suspended { first: First },
    /// Memory ran out: these copies stay granted.
    Memory { kept: Copies },
}

/// Why a copy or a segment was not freed. Of a block the copies before it stay freed.
#[derive(Clone, Copy, Debug, PartialEq, Eq)]
pub enum FreeFault {
    /// There is no such vdev.
    NoSuch,
    /// It is no segment of a metaslab: of no size, of a part of a unit, past the vdev's end, or across two metaslabs.
    BadSeg,
    /// The unit at this offset, in bytes of the vdev, is the lowest of it that is not handed out in a group of at most the
    /// hold's. So many copies were freed before.
    NotLive { freed: u8, vdev: u8, offset: u64 },
    /// The group of the hold was collected already.
    Late { group: Group, collected: Group },
    /// The pool device failed in a load: its count of faults before and after it.
    Device { before: u64, after: u64 },
    /// What a load read is damaged.
    Damaged { id: MsId, damage: Damage },
    /// The pool met a fault or damage before, and loads nothing since.
    Suspended { first: First },
    /// Memory ran out, after so many copies were freed.
    Memory { freed: u8 },
}
