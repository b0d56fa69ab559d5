// Runs of calls on the pool device.
ghost use Rattle.std.specs.Prelude.{◌≡◌, [], ◌∷◌, ◌++◌, length, OnOk, OnErr};
ghost use Rattle.zms_dev.specs.Bytes.{Outside, Holds, part};
ghost use Rattle.zms_dev.specs.Causes.{HasCause};
ghost use Rattle.zms_dev.specs.Disk.{Tells, bytes_of, Only};
ghost use Rattle.zms_dev.specs.Runs.{Spares, Untouched};

use crate::{Disk, Failed};

/// Writes the bytes from `at` on, and flushes. At `Ok` a stop leaves what a read gives; after a failure the range may
/// hold anything.
pub fn put<D: Disk>(disk: &mut D, at: u64, bytes: &[u8]) -> Result<(), Failed>
    ensures spares { Tells (D.state disk.old) → Spares (Outside at (length bytes.now)) (D.state disk.old) (D.state disk.new) }
    ensures written { Tells (D.state disk.old) → OnOk result (Holds (bytes_of (D.state disk.old)) at bytes.now (bytes_of (D.state disk.new))) }
    ensures durable { Tells (D.state disk.old) → OnOk result (Only (bytes_of (D.state disk.new)) (D.state disk.new).may_leave) }
    ensures noted { Tells (D.state disk.old) → OnOk result ((D.state disk.new).flushes ≡ (D.state disk.old).flushes ++ (D.state disk.new).moment ∷ []) }
    ensures unnoted { Tells (D.state disk.old) → OnErr result ((D.state disk.new).flushes ≡ (D.state disk.old).flushes) }
    ensures cause { HasCause (D.faults disk.old) (D.faults disk.new) result }
{
    disk.write(at, bytes)?;
    disk.flush()
}

/// Fills the buffer with the bytes from `at` on, and with zeros behind the end.
pub fn read_part<D: Disk>(disk: &mut D, at: u64, buf: &mut [u8]) -> Result<(), Failed>
    ensures part { Tells (D.state disk.old) → OnOk result (buf.new ≡ part (bytes_of (D.state disk.old)) at (length buf.old)) }
    ensures rests { Tells (D.state disk.old) → Untouched (D.state disk.old) (D.state disk.new) }
    ensures cause { HasCause (D.faults disk.old) (D.faults disk.new) result }
{
    let n = disk.read(at, buf)?;
    buf[n..].fill(0);
    Ok(())
}
