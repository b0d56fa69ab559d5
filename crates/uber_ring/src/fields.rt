// Numbers, digests and pieces in bytes.
ghost use Rattle.std.specs.Prelude.{◌≡◌, ◌+◌, ◌<◌, ◌≤◌, ◌↔◌, length, IsTrue};
ghost use Rattle.sha2.specs.Sha256.{sha256};
ghost use Rattle.uber_ring.specs.Numbers.{bytes_at, number_at, Puts, PutsNumber};
ghost use Rattle.uber_ring.specs.TableBytes.{AreZeros};

use byteorder::{ByteOrder, LittleEndian};
use sha2::{Digest, Sha256};

/// The u64 at a place.
pub(crate) fn u64_at(bytes: &[u8], at: usize) -> u64
    requires { at + 8 ≤ length bytes.now }
    ensures { result ≡ number_at bytes.now at 8 }
{
    LittleEndian::read_u64(&bytes[at..])
}

/// The u32 at a place.
pub(crate) fn u32_at(bytes: &[u8], at: usize) -> u32
    requires { at + 4 ≤ length bytes.now }
    ensures { result ≡ number_at bytes.now at 4 }
{
    LittleEndian::read_u32(&bytes[at..])
}

/// Writes a u64 to a place.
pub(crate) fn put_u64(bytes: &mut [u8], at: usize, value: u64)
    requires { at + 8 ≤ length bytes.old }
    ensures { PutsNumber bytes.old bytes.new at 8 value }
{
    LittleEndian::write_u64(&mut bytes[at..at + 8], value);
}

/// Writes a u32 to a place.
pub(crate) fn put_u32(bytes: &mut [u8], at: usize, value: u32)
    requires { at + 4 ≤ length bytes.old }
    ensures { PutsNumber bytes.old bytes.new at 4 value }
{
    LittleEndian::write_u32(&mut bytes[at..at + 4], value);
}

/// Writes bytes to a place.
pub(crate) fn put_bytes(bytes: &mut [u8], at: usize, piece: &[u8])
    requires { at + length piece.now ≤ length bytes.old }
    ensures { Puts bytes.old bytes.new at piece.now }
{
    bytes[at..at + piece.len()].copy_from_slice(piece);
}

/// The digest at a place.
pub(crate) fn digest_at(bytes: &[u8], at: usize) -> [u8; 32]
    requires { at + 32 ≤ length bytes.now }
    ensures { result ≡ bytes_at bytes.now at 32 }
{
    let mut digest = [0u8; 32];
    digest.copy_from_slice(&bytes[at..at + 32]);
    digest
}

/// The digest of the n bytes from a place on.
pub(crate) fn digest_of(bytes: &[u8], at: usize, n: usize) -> [u8; 32]
    requires { at + n ≤ length bytes.now }
    ensures { result ≡ sha256 (bytes_at bytes.now at n) }
{
    Sha256::digest(&bytes[at..at + n])
}

/// Whether there are only zeros in the n bytes from a place on.
pub(crate) fn has_zeros(bytes: &[u8], at: usize, n: usize) -> bool
    requires { at + n ≤ length bytes.now }
    ensures { IsTrue result ↔ AreZeros bytes.now at n }
{
    for place in at..at + n {
        if bytes[place] != 0 {
            return false;
        }
    }
    true
}

/// The digest of all the bytes.
pub(crate) fn whole_digest(bytes: &[u8]) -> [u8; 32]
    ensures { result ≡ sha256 bytes.now }
{
    Sha256::digest(bytes)
}
