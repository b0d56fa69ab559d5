//! How a call of the program ends, and what it hands back.

ghost use Rattle.std.specs.Prelude.{◌≡◌, Some};
ghost use Rattle.zms_top.specs.Statuses.{cause_text, status_text, exit_status};

use crate::Reply;
use crate::refusals::Refusal;
use meta_store::OpenCause;
use ms_model::{DeviceNote, GateNote, Journals};
use std::fmt;
use zms_units::{Group, Items};

/// Why a device is not the pool that was asked for.
#[derive(Clone, Copy, Debug, PartialEq, Eq)]
pub enum PoolCause {
    /// It doesn't open at the group that was asked for, or a sync read damage.
    Open(OpenCause),
    /// It opens, and isn't one normal vdev of 4096-byte units with one metaslab: lanes run over no other.
    OtherLayout,
    /// A pool is there already, with this group as its newest.
    AlreadyPool { newest: Group },
}

/// How a call ended.
#[derive(Clone, Copy, Debug, PartialEq, Eq)]
pub enum Status {
    Done,
    /// The words of the command line are outside the grammar.
    Usage,
    /// This line of the command file, from 1, is the first outside the grammar or past a limit.
    BadText { line: u64 },
    /// The command file was not read to its end.
    ReadFault,
    /// What was to be printed or traced was not taken.
    WriteFault,
    /// The pool device failed.
    DeviceFault,
    NotAPool { cause: PoolCause },
    Memory,
    /// An audit found so many faults.
    Found { n: u64 },
}

impl Status {
    /// The exit status of the program: 0 for `Done`, else one for each kind.
    pub fn exit_code(&self) -> u8
        ensures { result ≡ exit_status self.now }
    {
        match self {
            Status::Done => 0,
            Status::Usage => 1,
            Status::BadText { .. } => 2,
            Status::ReadFault => 3,
            Status::WriteFault => 4,
            Status::DeviceFault => 5,
            Status::NotAPool { .. } => 6,
            Status::Memory => 7,
            Status::Found { .. } => 8,
        }
    }
}

impl fmt::Display for PoolCause {
    ghost output = { λ cause. Some (cause_text cause) };

    fn fmt<W: fmt::Write>(&self, f: &mut fmt::Formatter<W>) -> fmt::Result {
        match self {
            PoolCause::Open(cause) => {
                let refusal = Refusal(*cause);
                write!(f, "{refusal}")
            }
            PoolCause::OtherLayout => write!(f, "other layout"),
            PoolCause::AlreadyPool { newest } => write!(f, "already a pool, newest {newest}"),
        }
    }
}

impl fmt::Display for Status {
    ghost output = { λ status. Some (status_text status) };

    fn fmt<W: fmt::Write>(&self, f: &mut fmt::Formatter<W>) -> fmt::Result {
        match self {
            Status::Done => write!(f, "zms: done"),
            Status::Usage => write!(f, "zms: usage"),
            Status::BadText { line } => write!(f, "zms: bad text at line {line}"),
            Status::ReadFault => write!(f, "zms: read fault"),
            Status::WriteFault => write!(f, "zms: write fault"),
            Status::DeviceFault => write!(f, "zms: device fault"),
            Status::NotAPool { cause } => write!(f, "zms: not a pool: {cause}"),
            Status::Memory => write!(f, "zms: out of memory"),
            Status::Found { n } => write!(f, "zms: found {n}"),
        }
    }
}

/// What the lanes of a run leave beside the journals of the trace: their replies in the order of the file (none after
/// want of memory), the gate's journal, and the journal of each of the 16 data devices.
#[derive(Debug, Drop)]
pub struct RunLists {
    pub replies: Items<Reply>,
    pub gate: Items<GateNote>,
    pub device_notes: Items<Items<DeviceNote>>,
}

/// What a call hands back: how it ended, its devices, and, where lanes began, their journals and lists.
pub struct Shipped<D, V> {
    pub status: Status,
    pub meta: D,
    pub devices: Items<V>,
    pub journals: Option<Journals>,
    pub lists: Option<RunLists>,
}
