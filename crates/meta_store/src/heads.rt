// The head of a device.
ghost use Rattle.std.specs.Prelude.{◌≡◌, ◌≢◌, ◌<◌, length, IfOk, IfErr, IsErrOf};
ghost use Rattle.zms_units.specs.Limits.{GROUPS_END};
ghost use Rattle.zms_dev.specs.Causes.{one_more};
ghost use Rattle.zms_dev.specs.Disk.{Tells, bytes_of};
ghost use Rattle.zms_dev.specs.Runs.{Untouched};
ghost use Rattle.vdev_map.specs.declared.layout.Part.TheVariants.{Head as HeadPart};
ghost use Rattle.uber_ring.specs.Numbers.{number_at};
ghost use Rattle.uber_ring.specs.Heads.{ShowsHeadFault};
ghost use Rattle.uber_ring.specs.declared.slot.Uber.{Uber};
ghost use Rattle.meta_store.specs.Causes.{IsOpenFaultOf};
ghost use Rattle.meta_store.specs.Faults.{of_head};
ghost use Rattle.meta_store.specs.Heads.{head_bytes, IsWholeHead, IsWholeLimits, IsNoHead};

use crate::{OpenCause, OpenFault};
use byteorder::{ByteOrder, LittleEndian};
use uber_ring::{HeadFault, head_of};
use vdev_map::{Form, Head, Part};
use zms_dev::{Disk, read_part};

/// How many bytes of a head are read.
const HEAD_LEN: usize = 64;

/// The byte of a head at which its version begins.
const VERSION_AT: u64 = 8;

/// The version that the bytes of a head say.
fn version_in(bytes: &[u8]) -> u32
    requires { length bytes.now ≡ 64 }
    ensures { result ≡ number_at bytes.now 8 4 }
{
    LittleEndian::read_u32(&bytes[8..])
}

/// The fault of a head whose version is not 0, where the fields before it are right.
fn wrong_version() -> HeadFault
    ensures { result ≡ HeadFault.Malformed HeadPart 8 }
{
    HeadFault::Malformed {
        part: Part::Head,
        at: VERSION_AT,
    }
}

/// The first fault of a head of version 0, from the first that it shows as a head of any version.
fn first_fault(bytes: &[u8], fault: HeadFault) -> HeadFault
    requires len { length bytes.now ≡ 64 }
    requires shows { ShowsHeadFault bytes.now fault }
    ensures { IsNoHead bytes.now result }
{
    match fault {
        HeadFault::HeadDamaged { .. } => fault,
        HeadFault::Malformed { at, .. } => {
            if at > VERSION_AT && version_in(bytes) != 0 {
                wrong_version()
            } else {
                fault
            }
        }
    }
}

/// The head of version 0 that the first 64 bytes of a device are.
fn whole_head_of(bytes: &[u8]) -> Result<Head, HeadFault>
    requires { length bytes.now ≡ 64 }
    ensures ok { IfOk result (λ head. IsWholeHead bytes.now head) }
    ensures err { IfErr result (IsNoHead bytes.now) }
{
    match head_of(bytes) {
        Ok(head) => match head.form {
            Form::Whole => Ok(head),
            Form::Logged => Err(wrong_version()),
        },
        Err(fault) => Err(first_fault(bytes, fault)),
    }
}

/// The cause that the fault of a head is.
fn cause_of(fault: HeadFault) -> OpenCause
    ensures { result ≡ of_head fault }
{
    match fault {
        HeadFault::HeadDamaged { kept, found } => OpenCause::HeadDamaged { kept, found },
        HeadFault::Malformed { part, at } => OpenCause::Malformed { part, at },
    }
}

/// Reads the head. One read, and no memory.
pub(crate) fn read_head<D: Disk>(disk: &mut D) -> Result<Head, OpenFault>
    ensures limits { IfOk result (λ head. IsWholeLimits head) }
    ensures head { Tells (D.state disk.old) → IfOk result (IsWholeHead (head_bytes (bytes_of (D.state disk.old)))) }
    ensures err { Tells (D.state disk.old) → (uber : Uber) → uber.group.0 < GROUPS_END → IfErr result (IsOpenFaultOf (bytes_of (D.state disk.old)) uber) }
    ensures rests { Tells (D.state disk.old) → Untouched (D.state disk.old) (D.state disk.new) }
    ensures steady { (IsErrOf result OpenFault.Failed → ⊥) → D.faults disk.new ≡ D.faults disk.old }
    ensures failed { IsErrOf result OpenFault.Failed → D.faults disk.new ≡ one_more (D.faults disk.old) }
{
    let mut bytes = [0u8; HEAD_LEN];
    read_part(disk, 0, &mut bytes)?;
    match whole_head_of(&bytes) {
        Ok(head) => Ok(head),
        Err(fault) => Err(OpenFault::Cause(cause_of(fault))),
    }
}
