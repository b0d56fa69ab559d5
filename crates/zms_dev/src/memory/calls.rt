// The record of a device's calls.

/// A call of the pool device. Places and lengths are in bytes.
#[derive(Clone, Copy, Debug, PartialEq, Eq)]
pub enum Call {
    Size,
    Read { at: u64, len: usize },
    /// `from` is the place of its first byte among all bytes that were written.
    Write { at: u64, len: usize, from: usize },
    Flush,
}

/// A call, and whether it answered Ok.
#[derive(Clone, Copy, Debug, PartialEq, Eq)]
pub struct CallRecord {
    pub call: Call,
    pub went_well: bool,
}
