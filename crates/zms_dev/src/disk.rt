// The pool device.
ghost use Rattle.std.specs.Prelude.{◌≡◌, ◌≤◌, List, ℕ, length, IfOk};
ghost use Rattle.zms_dev.specs.Bytes.{Gives};
ghost use Rattle.zms_dev.specs.Causes.{HasCause};
ghost use Rattle.zms_dev.specs.Disk.{DiskState, Tells, bytes_of, SameKind, Elapses, Stays, Wrote, Flushed};

use crate::Failed;

/// The pool device: bytes, read as if zeros without end followed them. Places and lengths are in bytes.
///
/// Between two flushes each written range, and all past the end that was last flushed, may hold any bytes after a
/// stop; everything else stays. A write that failed counts as a written range.
pub trait Disk {
    /// What the device means now.
    ghost state: { Self → DiskState };

    /// How often it has failed.
    ghost faults: { Self → ℕ };

    /// How many bytes it has.
    fn size(&mut self) -> Result<u64, Failed>
        ensures size { Tells (state self.old) → IfOk result (λ n. n ≡ length (bytes_of (state self.old))) }
        ensures stays { Tells (state self.old) → Stays (state self.old) (state self.new) }
        ensures flushes { Tells (state self.old) → (state self.new).flushes ≡ (state self.old).flushes }
        ensures kind { SameKind (state self.old) (state self.new) }
        ensures time { Elapses (state self.old) (state self.new) }
        ensures cause { HasCause (faults self.old) (faults self.new) result };

    /// Reads from `at` on, and answers how many of the bytes lie before the end. The rest of the buffer is
    /// anything, and stands for zeros.
    fn read(&mut self, at: u64, buf: &mut [u8]) -> Result<usize, Failed>
        // Whatever the device does.
        ensures bound { IfOk result (λ n. n ≤ length buf.new) }
        ensures bytes { Tells (state self.old) → IfOk result (λ n. Gives (bytes_of (state self.old)) at n buf.new) }
        ensures stays { Tells (state self.old) → Stays (state self.old) (state self.new) }
        ensures flushes { Tells (state self.old) → (state self.new).flushes ≡ (state self.old).flushes }
        ensures kind { SameKind (state self.old) (state self.new) }
        ensures time { Elapses (state self.old) (state self.new) }
        ensures cause { HasCause (faults self.old) (faults self.new) result };

    /// Writes over what stands from `at` on, and past the end.
    fn write(&mut self, at: u64, bytes: &[u8]) -> Result<(), Failed>
        ensures wrote { Tells (state self.old) → Wrote (state self.old) (state self.new) at bytes.now result }
        ensures kind { SameKind (state self.old) (state self.new) }
        ensures time { Elapses (state self.old) (state self.new) }
        ensures cause { HasCause (faults self.old) (faults self.new) result };

    /// After it a stop leaves what a read gives.
    fn flush(&mut self) -> Result<(), Failed>
        ensures flushed { Tells (state self.old) → Flushed (state self.old) (state self.new) result }
        ensures kind { SameKind (state self.old) (state self.new) }
        ensures time { Elapses (state self.old) (state self.new) }
        ensures cause { HasCause (faults self.old) (faults self.new) result };

    /// How often it has failed. The count stands still at the greatest u64.
    fn faults(&self) -> u64
        ensures { result ≡ faults self.now };

    /// This moment is one of those since an earlier one.
    ghost counts_now: { (disk : Self) (t : ℕ) (c : List ℕ) → t ≤ (state disk).moment → (state disk).may_leave c → (state disk).left_since t c };

    /// Since this moment there is no other.
    ghost only_now: { (disk : Self) (c : List ℕ) → (state disk).left_since (state disk).moment c → (state disk).may_leave c };

    /// As it reads, it is one of the images that a stop now may leave.
    ghost reads_as: { (disk : Self) → Tells (state disk) → (state disk).may_leave (bytes_of (state disk)) };
}
