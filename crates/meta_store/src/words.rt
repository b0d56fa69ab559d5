// Words from a device.
ghost use Rattle.std.specs.Prelude.{◌≡◌, ◌+◌, ◌*◌, ◌^◌, ◌<◌, ◌≤◌, length, IfOk, IfErr, IsErrOf, ◌⊎◌};
ghost use Rattle.zms_dev.specs.Causes.{one_more};
ghost use Rattle.zms_dev.specs.Disk.{Tells, bytes_of};
ghost use Rattle.zms_dev.specs.Runs.{Untouched};
ghost use Rattle.uber_ring.specs.Numbers.{bytes_at, number_at};
ghost use Rattle.meta_store.specs.Words.{words_at};

use crate::FoundFault;
use byteorder::{ByteOrder, LittleEndian};
use std::alloc::{AllocError, Global};
use zms_dev::{Disk, read_part};

/// The word at a place.
fn word_in(bytes: &[u8], at: usize) -> u64
    requires { at + 8 ≤ length bytes.now }
    ensures { result ≡ number_at bytes.now at 8 }
{
    LittleEndian::read_u64(&bytes[at..])
}

/// The first n words that bytes say.
fn words_of(alloc: Global, bytes: &[u8], n: usize) -> Result<Vec<u64>, AllocError>
    requires { 8 * n ≤ length bytes.now }
    ensures { IfOk result (λ words. words.items ≡ words_at bytes.now 0 n) }
{
    let mut words = Vec::with_capacity(alloc, n)?;
    for k in 0..n {
        words.push(word_in(bytes, 8 * k))?;
    }
    Ok(words)
}

/// Reads n bytes from a place on.
fn read_bytes<D: Disk>(
    alloc: Global,
    disk: &mut D,
    at: u64,
    n: usize,
) -> Result<Vec<u8>, FoundFault>
    ensures bytes { Tells (D.state disk.old) → IfOk result (λ bytes. bytes.items ≡ bytes_at (bytes_of (D.state disk.old)) at n) }
    ensures len { IfOk result (λ bytes. length bytes.items ≡ n) }
    ensures err { IfErr result (λ fault. (fault ≡ FoundFault.Failed) ⊎ (fault ≡ FoundFault.Memory)) }
    ensures rests { Tells (D.state disk.old) → Untouched (D.state disk.old) (D.state disk.new) }
    ensures steady { (IsErrOf result FoundFault.Failed → ⊥) → D.faults disk.new ≡ D.faults disk.old }
    ensures failed { IsErrOf result FoundFault.Failed → D.faults disk.new ≡ one_more (D.faults disk.old) }
{
    let mut bytes = Vec::new(alloc);
    bytes.resize(n, 0)?;
    read_part(disk, at, &mut bytes)?;
    Ok(bytes)
}

/// Reads n words from a place on. One read; memory grows with the words.
pub(crate) fn read_words<D: Disk>(
    alloc: Global,
    disk: &mut D,
    at: u64,
    n: usize,
) -> Result<Vec<u64>, FoundFault>
    requires { n < 2 ^ 32 }
    ensures words { Tells (D.state disk.old) → IfOk result (λ words. words.items ≡ words_at (bytes_of (D.state disk.old)) at n) }
    ensures err { IfErr result (λ fault. (fault ≡ FoundFault.Failed) ⊎ (fault ≡ FoundFault.Memory)) }
    ensures rests { Tells (D.state disk.old) → Untouched (D.state disk.old) (D.state disk.new) }
    ensures steady { (IsErrOf result FoundFault.Failed → ⊥) → D.faults disk.new ≡ D.faults disk.old }
    ensures failed { IsErrOf result FoundFault.Failed → D.faults disk.new ≡ one_more (D.faults disk.old) }
{
    let bytes = read_bytes(alloc, disk, at, 8 * n)?;
    let words = words_of(alloc, &bytes, n)?;
    Ok(words)
}
