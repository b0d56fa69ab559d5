ghost use Rattle.std.specs.Prelude.{◌≡◌, ◌≤◌, [], OnOk};
ghost use Rattle.ms_core.specs.Buffers.{run_room};

use std::alloc::{AllocError, Global};
use zms_units::Seg;

/// What one group changes, as maximal runs by rising start: the runs that it gains, and those that it gives back.
///
/// Its memory is taken ahead, so that `Metaslab::collect` takes none.
#[derive(Debug, Drop)]
pub struct RunBuf {
    pub allocs: Vec<Seg>,
    pub frees: Vec<Seg>,
}

impl RunBuf {
    /// An empty buffer, which takes no memory.
    pub fn new(alloc: Global) -> Self
        ensures allocs { result.allocs.items ≡ [] }
        ensures frees { result.frees.items ≡ [] }
    {
        RunBuf {
            allocs: Vec::new(alloc),
            frees: Vec::new(alloc),
        }
    }

    /// Takes the memory for `n` further runs in both lists. After an error some of it may have been taken.
    pub fn reserve(&mut self, n: u64) -> Result<(), AllocError>
        ensures ok { OnOk result (n ≤ run_room self.new) }
        ensures room { run_room self.old ≤ run_room self.new }
        ensures allocs { self.new.allocs.items ≡ self.old.allocs.items }
        ensures frees { self.new.frees.items ≡ self.old.frees.items }
    {
        self.allocs.reserve(n as usize)?;
        self.frees.reserve(n as usize)
    }

    /// How many further runs both lists take without memory.
    pub fn room(&self) -> u64
        ensures { result ≡ run_room self.now }
    {
        let allocs = self.allocs.capacity() - self.allocs.len();
        let frees = self.frees.capacity() - self.frees.len();
        allocs.min(frees) as u64
    }
}
