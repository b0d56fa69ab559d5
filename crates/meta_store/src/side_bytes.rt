// Words as bytes, and the write of them.
ghost use Rattle.std.specs.Prelude.{◌≡◌, ◌+◌, ◌*◌, ◌^◌, ◌<◌, ◌≤◌, length, OnOk, IfOk, IfErr, IsErrOf};
ghost use Rattle.zms_dev.specs.Bytes.{Outside};
ghost use Rattle.zms_dev.specs.Causes.{one_more};
ghost use Rattle.zms_dev.specs.Disk.{Tells, bytes_of};
ghost use Rattle.zms_dev.specs.Runs.{Spares};
ghost use Rattle.uber_ring.specs.Numbers.{PutsNumber};
ghost use Rattle.meta_store.specs.CommitFaults.{IsCommitFailure};
ghost use Rattle.meta_store.specs.Words.{words_at};

use crate::CommitFault;
use byteorder::{ByteOrder, LittleEndian};
use std::alloc::{AllocError, Global};
use zms_dev::Disk;

/// Writes a word to a place.
fn put_word(bytes: &mut [u8], at: usize, word: u64)
    requires { at + 8 ≤ length bytes.old }
    ensures { PutsNumber bytes.old bytes.new at 8 word }
{
    LittleEndian::write_u64(&mut bytes[at..at + 8], word);
}

/// Writes words over bytes.
fn put_words(bytes: &mut [u8], words: &[u64])
    requires { length bytes.old ≡ 8 * length words.now }
    ensures { words_at bytes.new 0 (length words.now) ≡ words.now }
{
    for (k, word) in words.iter().enumerate() {
        put_word(bytes, 8 * k, *word);
    }
}

/// The bytes that words are written as.
fn word_bytes(alloc: Global, words: &[u64]) -> Result<Vec<u8>, AllocError>
    requires { length words.now < 2 ^ 28 }
    ensures len { IfOk result (λ bytes. length bytes.items ≡ 8 * length words.now) }
    ensures words { IfOk result (λ bytes. words_at bytes.items 0 (length words.now) ≡ words.now) }
{
    let mut bytes = Vec::new(alloc);
    bytes.resize(8 * words.len(), 0)?;
    put_words(&mut bytes, words);
    Ok(bytes)
}

/// Writes words from a place on. Does not flush. One write; linear in the words.
pub(crate) fn write_words<D: Disk>(
    alloc: Global,
    disk: &mut D,
    at: u64,
    words: &[u64],
) -> Result<(), CommitFault>
    requires { length words.now < 2 ^ 28 }
    ensures words { Tells (D.state disk.old) → OnOk result (words_at (bytes_of (D.state disk.new)) at (length words.now) ≡ words.now) }
    ensures lies { Tells (D.state disk.old) → 0 < length words.now → OnOk result (at + 8 * length words.now ≤ length (bytes_of (D.state disk.new))) }
    ensures spares { Tells (D.state disk.old) → Spares (Outside at (8 * length words.now)) (D.state disk.old) (D.state disk.new) }
    ensures flushes { Tells (D.state disk.old) → (D.state disk.new).flushes ≡ (D.state disk.old).flushes }
    ensures err { IfErr result IsCommitFailure }
    ensures steady { (IsErrOf result CommitFault.Failed → ⊥) → D.faults disk.new ≡ D.faults disk.old }
    ensures failed { IsErrOf result CommitFault.Failed → D.faults disk.new ≡ one_more (D.faults disk.old) }
{
    let bytes = word_bytes(alloc, words)?;
    disk.write(at, &bytes)?;
    Ok(())
}
