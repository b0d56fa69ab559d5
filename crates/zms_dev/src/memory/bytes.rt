// Writes into bytes in memory, within the room that they have.
ghost use Rattle.std.specs.Prelude.{◌≡◌, ℕ, ◌+◌, ◌<◌, ◌≤◌, ◌++◌, length, replicate, nat_le, OnOk, vec_capacity};
ghost use Rattle.zms_dev.specs.Bytes.{byte, grown, overwritten, DiffersOnlyIn, Gives};

use std::alloc::AllocError;

/// Whether so many bytes from a place on end within the room.
pub fn fits(at: u64, len: usize, room: usize) -> bool
    ensures { result ≡ nat_le (at + len) room }
{
    len <= room && at <= (room - len) as u64
}

/// Writes over what stands from `at` on, and past the end.
pub fn overwrite(file: &mut Vec<u8>, at: usize, bytes: &[u8])
    requires { at + length bytes.now ≤ vec_capacity file.old }
    ensures bytes { file.new.items ≡ overwritten file.old.items at bytes.now }
    ensures capacity { vec_capacity file.old ≤ vec_capacity file.new }
{
    if bytes.is_empty() {
        return;
    }
    let end = at + bytes.len();
    grow(file, end);
    file[at..end].copy_from_slice(bytes);
}

// Fills up to an end with zeros, where the bytes end before it.
fn grow(file: &mut Vec<u8>, end: usize)
    requires { end ≤ vec_capacity file.old }
    ensures bytes { file.new.items ≡ grown file.old.items end }
    ensures capacity { vec_capacity file.old ≤ vec_capacity file.new }
{
    if end > file.len() {
        let _ = file.resize(end, 0);
    }
}

/// Writes a byte over a range, as far as there are bytes.
pub fn cover(file: &mut [u8], at: u64, len: u64, fill: u8)
    ensures outside { DiffersOnlyIn at len file.old file.new }
    ensures inside { (p : ℕ) → at ≤ p → p < at + len → p < length file.new → byte file.new p ≡ fill }
{
    let size = file.len() as u64;
    let from = at.min(size) as usize;
    let end = at.saturating_add(len).min(size) as usize;
    file[from..end].fill(fill);
}

/// Fills up to the end of a range with a byte, where the bytes end before it.
pub fn extend(file: &mut Vec<u8>, at: u64, len: usize, fill: u8) -> Result<(), AllocError>
    ensures added { OnOk result ((added : ℕ) × (file.new.items ≡ file.old.items ++ replicate added fill)) }
    ensures reaches { OnOk result (at + len ≤ length file.new.items) }
{
    let end = (at as usize).checked_add(len).ok_or(AllocError)?;
    if end > file.len() {
        file.resize(end, fill)?;
    }
    Ok(())
}

/// Copies the bytes from `at` on into the buffer, as many as there are and as fit, and answers how many.
pub fn read_at(file: &[u8], at: u64, buf: &mut [u8]) -> usize
    ensures { Gives file.now at result buf.new }
{
    let from = at.min(file.len() as u64) as usize;
    let rest = &file[from..];
    let n = rest.len().min(buf.len());
    buf[..n].copy_from_slice(&rest[..n]);
    n
}
