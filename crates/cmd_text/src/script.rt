//! What a command file says.

ghost use Rattle.std.specs.Prelude.{◌≡◌, Some};
ghost use Rattle.cmd_text.specs.declared.script.TextFault.TheVariants.{Memory};
ghost use Rattle.cmd_text.specs.Faults.{fault_text};

use std::alloc::{AllocError, AllocFailed};
use std::error::Error;
use std::fmt;
use zms_units::{Class, Items, Text};

/// The most bytes of a line, without its line feed.
pub const MAX_LINE_BYTES: usize = 200;

/// How many lanes a make line has.
pub const MAKE_LANES: u8 = 4;

/// The most commands of a file that begin a worker: `init`, `trim` and `autotrim`.
pub const MAX_WORKERS: usize = 16;

/// What a line of the command file asks for.
#[derive(Debug, Drop)]
pub enum What {
    /// Space for a block of `size` bytes, in a class, as many copies as this; the lane may free it by its name.
    Alloc {
        name: Text,
        size: u64,
        class: Class,
        copies: u8,
    },
    /// Gives back the block that the lane was granted under this name.
    Free {
        name: Text,
    },
    /// Gives back so many bytes of a vdev from this byte on.
    FreeSeg {
        vdev: u8,
        offset: u64,
        size: u64,
    },
    /// Makes all changes so far lasting.
    Sync,
    /// Brings a metaslab's free space into memory.
    Load {
        vdev: u8,
        index: u16,
    },
    /// Gives up a metaslab's free space in memory.
    Unload {
        vdev: u8,
        index: u16,
    },
    /// Writes over the free space of a vdev, after `zpool initialize`.
    Init {
        vdev: u8,
    },
    /// Discards the free space of a vdev, after `zpool trim`.
    Trim {
        vdev: u8,
    },
    /// Discards what was freed of a vdev since its last trim, after the pool's property `autotrim`.
    AutoTrim {
        vdev: u8,
    },
}

/// One command: the lane that runs it, from 1, the line that it stands in, from 1, and what it asks for.
#[derive(Debug, Drop)]
pub struct Command {
    pub lane: u8,
    pub line: u64,
    pub what: What,
}

/// The line `make NUMBER COUNT`, from 1: so many commands on four lanes, which follow from the number.
#[derive(Clone, Copy, Debug, PartialEq, Eq)]
pub struct Make {
    pub number: u32,
    pub count: u32,
    pub line: u64,
}

/// A file: the number of its lanes, its commands in their order, and its make line. Where there is a make line, there are
/// no commands beside it.
#[derive(Debug, Drop)]
pub struct Script {
    pub lanes: u8,
    pub commands: Items<Command>,
    pub make: Option<Make>,
}

/// Why a command file is refused: its first line, from 1, that is outside the grammar or passes a limit; or memory ran
/// out.
#[derive(Clone, Copy, Debug, PartialEq, Eq)]
pub enum TextFault {
    Bad { line: u64 },
    Memory,
}

impl fmt::Display for TextFault {
    ghost output = { λ fault. Some (fault_text fault) };

    fn fmt<W: fmt::Write>(&self, f: &mut fmt::Formatter<W>) -> fmt::Result {
        match self {
            TextFault::Bad { line } => write!(f, "line {line} is not a command within the limits"),
            TextFault::Memory => write!(f, "out of memory"),
        }
    }
}

impl Error for TextFault {}

impl From<AllocError> for TextFault {
    ghost from_gives = { λ _ e. e ≡ Memory };

    fn from(_e: AllocError) -> TextFault {
        TextFault::Memory
    }
}

impl<T: Drop> From<AllocFailed<T>> for TextFault {
    ghost from_gives = { λ _ e. e ≡ Memory };

    fn from(_e: AllocFailed<T>) -> TextFault {
        TextFault::Memory
    }
}
