// The front of a table: its text, its group and its counts.
ghost use Rattle.std.specs.Prelude.{◌≡◌, ◌+◌, ◌*◌, ◌^◌, ◌<◌, ◌≤◌, ◌↔◌, length, IsTrue, IfOk, IfErr, OnOk, codes};
ghost use Rattle.vdev_map.specs.Limits.{IsVdevCount, HasNormal};
ghost use Rattle.vdev_map.specs.Numbers.{metaslabs_in};
ghost use Rattle.vdev_map.specs.Tables.{first_log, HasItsLogs};
ghost use Rattle.vdev_map.specs.declared.layout.Head.{Head};
ghost use Rattle.vdev_map.specs.declared.layout.Part.TheVariants.{Table as TablePart};
ghost use Rattle.uber_ring.specs.declared.faults.TableFault.TheVariants.{Malformed};
ghost use Rattle.uber_ring.specs.Numbers.{bytes_at, number_at};
ghost use Rattle.uber_ring.specs.TableBytes.{vdevs_in, table_in, vdev_count_in, metaslab_count_in, HasItsLength};
ghost use Rattle.uber_ring.specs.TableFields.{Each, IsRight, IsWrongIn, AreCounts, front_fields};

use crate::fields::{has_zeros, u32_at, u64_at};
use crate::{TableFault, Uber};
use vdev_map::Part;

/// The text at the front of a table.
pub(crate) const TEXT: &[u8] = b"ZMSTABLE";

/// How long the front is, and how long the row of a vdev, a log and a metaslab.
pub(crate) const FRONT_LEN: usize = 64;

pub(crate) const VDEV_LEN: usize = 32;

pub(crate) const LOG_LEN: usize = 48;

pub(crate) const ROW_LEN: usize = 40;

/// How many vdevs, logs and metaslabs a table has, and whether these make up its length.
#[derive(Clone, Copy, Debug)]
pub(crate) struct Counts {
    pub(crate) vdevs: usize,
    pub(crate) logs: usize,
    pub(crate) metaslabs: usize,
    pub(crate) is_whole: bool,
}

/// The fault of a field that begins at a byte of a table.
pub(crate) fn malformed(at: usize) -> TableFault
    ensures { result ≡ Malformed TablePart at }
{
    TableFault::Malformed {
        part: Part::Table,
        at: at as u64,
    }
}

fn has_text(bytes: &[u8]) -> bool
    ensures { IsTrue result ↔ ((64 ≤ length bytes.now) × (bytes_at bytes.now 0 8 ≡ codes "ZMSTABLE")) }
{
    bytes.len() >= FRONT_LEN && is_text(&bytes[..8])
}

fn is_text(piece: &[u8]) -> bool
    ensures { IsTrue result ↔ (piece.now ≡ codes "ZMSTABLE") }
{
    piece == TEXT
}

fn counts_of(bytes: &[u8]) -> Counts
    requires { 64 ≤ length bytes.now }
    ensures { AreCounts bytes.now result }
{
    let vdevs = u32_at(bytes, 16) as usize;
    let metaslabs = u32_at(bytes, 20) as usize;
    let logs = u32_at(bytes, 24) as usize;
    let len = FRONT_LEN + VDEV_LEN * vdevs + LOG_LEN * logs + ROW_LEN * metaslabs;
    Counts {
        vdevs,
        logs,
        metaslabs,
        is_whole: len == bytes.len(),
    }
}

/// Whether some vdev is normal.
fn has_normal(bytes: &[u8], vdevs: usize) -> bool
    requires count { vdevs ≡ vdev_count_in bytes.now }
    requires within { 64 + 32 * vdevs ≤ length bytes.now }
    requires len { length bytes.now ≤ 262144 }
    ensures { IsTrue result ↔ HasNormal (vdevs_in bytes.now) }
{
    for v in 0..vdevs {
        if u32_at(bytes, FRONT_LEN + VDEV_LEN * v) == 0 {
            return true;
        }
    }
    false
}

/// How many metaslabs the vdevs have in all.
fn metaslabs_of(bytes: &[u8], vdevs: usize) -> u64
    requires count { vdevs ≡ vdev_count_in bytes.now }
    requires within { 64 + 32 * vdevs ≤ length bytes.now }
    requires len { length bytes.now ≤ 262144 }
    ensures { result ≡ metaslabs_in (vdevs_in bytes.now) }
{
    let mut metaslabs = 0;
    for v in 0..vdevs {
        metaslabs += u64::from(u32_at(bytes, FRONT_LEN + VDEV_LEN * v + 12));
    }
    metaslabs
}

/// The least group that some metaslab has not flushed, or the one behind the table's.
pub(crate) fn first_log_of(bytes: &[u8], counts: Counts, group: u64) -> u64
    requires counts { AreCounts bytes.now counts }
    requires whole { HasItsLength bytes.now }
    requires len { length bytes.now ≤ 262144 }
    requires group { number_at bytes.now 8 8 ≡ group }
    requires last { group < 2 ^ 50 }
    ensures value { result ≡ first_log (table_in bytes.now) }
    ensures most { result ≤ group + 1 }
{
    let mut first = group + 1;
    for m in 0..counts.metaslabs {
        let at = FRONT_LEN + VDEV_LEN * counts.vdevs + LOG_LEN * counts.logs + ROW_LEN * m;
        first = first.min(u64_at(bytes, at + 16));
    }
    first
}

/// The counts of a table whose front is right.
pub(crate) fn front_of(bytes: &[u8], uber: &Uber) -> Result<Counts, TableFault>
    requires group { uber.now.group.0 < 2 ^ 50 }
    requires len { length bytes.now ≤ 262144 }
    ensures counts { IfOk result (AreCounts bytes.now) }
    ensures ok { (head : Head) → OnOk result (Each (IsRight head uber.now bytes.now) front_fields) }
    ensures err { (head : Head) → IfErr result (IsWrongIn (IsRight head uber.now bytes.now) bytes.now front_fields) }
{
    if !has_text(bytes) {
        return Err(malformed(0));
    }
    if u64_at(bytes, 8) != uber.group.0 {
        return Err(malformed(8));
    }
    let counts = counts_of(bytes);
    if !has_vdevs(bytes, counts) {
        return Err(malformed(16));
    }
    if !has_rows(bytes, counts) {
        return Err(malformed(20));
    }
    if !has_logs(bytes, counts, uber.group.0) {
        return Err(malformed(24));
    }
    if !has_zeros(bytes, 28, 36) {
        return Err(malformed(28));
    }
    Ok(counts)
}

/// Whether there are as many vdevs as there may be, one of them normal.
fn has_vdevs(bytes: &[u8], counts: Counts) -> bool
    requires counts { AreCounts bytes.now counts }
    requires len { length bytes.now ≤ 262144 }
    ensures { IsTrue result ↔ (IsVdevCount (vdev_count_in bytes.now) × (HasItsLength bytes.now → HasNormal (vdevs_in bytes.now))) }
{
    if counts.vdevs < 1 || counts.vdevs > 16 {
        return false;
    }
    !counts.is_whole || has_normal(bytes, counts.vdevs)
}

/// Whether there is a row for each metaslab of the vdevs.
fn has_rows(bytes: &[u8], counts: Counts) -> bool
    requires counts { AreCounts bytes.now counts }
    requires len { length bytes.now ≤ 262144 }
    ensures { IsTrue result ↔ ((metaslab_count_in bytes.now ≤ 1024) × (HasItsLength bytes.now → metaslab_count_in bytes.now ≡ metaslabs_in (vdevs_in bytes.now))) }
{
    if counts.metaslabs > 1024 {
        return false;
    }
    !counts.is_whole || metaslabs_of(bytes, counts.vdevs) == counts.metaslabs as u64
}

/// Whether there is a log for each group from the least unflushed one to the table's, and the length is right.
fn has_logs(bytes: &[u8], counts: Counts, group: u64) -> bool
    requires counts { AreCounts bytes.now counts }
    requires group { number_at bytes.now 8 8 ≡ group }
    requires last { group < 2 ^ 50 }
    requires len { length bytes.now ≤ 262144 }
    ensures { IsTrue result ↔ (HasItsLength bytes.now × HasItsLogs (table_in bytes.now)) }
{
    counts.is_whole && counts.logs as u64 + first_log_of(bytes, counts, group) == group + 1
}
