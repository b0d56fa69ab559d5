// The bytes of a table.
ghost use Rattle.std.specs.Prelude.{◌≡◌, ℕ, ◌+◌, ◌*◌, ◌<◌, ◌≤◌, length, slice_index_or, IfOk};
ghost use Rattle.vdev_map.specs.Numbers as Vdevs;
ghost use Rattle.vdev_map.specs.declared.table.LogRow.{LogRow};
ghost use Rattle.vdev_map.specs.declared.table.MsRow.{MsRow};
ghost use Rattle.uber_ring.specs.Encoding.{len_of, Changes, IsVdevAt, IsLogAt, IsMsRowAt, IsFrontOf, IsEncoded};
ghost use Rattle.uber_ring.specs.TableBytes.{class_number, AreZeros};

use crate::fields::{put_bytes, put_u32, put_u64};
use crate::front::{FRONT_LEN, LOG_LEN, ROW_LEN, TEXT, VDEV_LEN};
use std::alloc::{AllocError, Global};
use vdev_map::{LogRow, MsRow, Table};
use zms_units::{Class, VdevRow};

/// The number of a class.
fn class_number(class: Class) -> u32
    ensures { result ≡ class_number class }
{
    match class {
        Class::Normal => 0,
        Class::Log => 1,
        Class::Special => 2,
        Class::Dedup => 3,
    }
}

/// Writes the row of a vdev over zeros.
fn put_vdev(bytes: &mut [u8], at: usize, row: &VdevRow)
    requires within { at + 32 ≤ length bytes.old }
    requires zeros { AreZeros bytes.old at 32 }
    ensures row { IsVdevAt bytes.new at row.now }
    ensures changes { Changes bytes.old bytes.new at 32 }
{
    put_u32(bytes, at, class_number(row.class));
    put_u32(bytes, at + 4, u32::from(row.ashift));
    put_u32(bytes, at + 8, row.units);
    put_u32(bytes, at + 12, u32::from(row.metaslabs));
}

/// Writes the row of a log.
fn put_log(bytes: &mut [u8], at: usize, row: &LogRow)
    requires within { at + 48 ≤ length bytes.old }
    ensures row { IsLogAt bytes.new at row.now }
    ensures changes { Changes bytes.old bytes.new at 48 }
{
    put_u64(bytes, at, row.group.0);
    put_u64(bytes, at + 8, row.words);
    put_bytes(bytes, at + 16, &row.digest);
}

/// Writes the row of a metaslab over zeros.
fn put_row(bytes: &mut [u8], at: usize, row: &MsRow)
    requires within { at + 40 ≤ length bytes.old }
    requires zeros { AreZeros bytes.old at 40 }
    ensures row { IsMsRowAt bytes.new at row.now }
    ensures changes { Changes bytes.old bytes.new at 40 }
{
    put_u64(bytes, at, row.place);
    put_u64(bytes, at + 8, row.words);
    put_u64(bytes, at + 16, row.unflushed.0);
    put_u64(bytes, at + 24, row.held);
    put_u32(bytes, at + 32, row.side);
}

/// Writes the front of a table over zeros.
fn put_front(bytes: &mut [u8], group: u64, vdevs: u32, metaslabs: u32, logs: u32)
    requires within { 64 ≤ length bytes.old }
    requires zeros { AreZeros bytes.old 0 64 }
    ensures front { IsFrontOf bytes.new group vdevs metaslabs logs }
    ensures changes { Changes bytes.old bytes.new 0 64 }
{
    put_bytes(bytes, 0, TEXT);
    put_u64(bytes, 8, group);
    put_u32(bytes, 16, vdevs);
    put_u32(bytes, 20, metaslabs);
    put_u32(bytes, 24, logs);
}

/// Writes the rows of the vdevs from a place on, over zeros.
fn put_vdevs(bytes: &mut [u8], first: usize, rows: &[VdevRow])
    requires within { first + 32 * length rows.now ≤ length bytes.old }
    requires zeros { AreZeros bytes.old first (32 * length rows.now) }
    ensures rows { (v : ℕ) → v < length rows.now → IsVdevAt bytes.new (first + 32 * v) (Vdevs.row_at rows.now v) }
    ensures changes { Changes bytes.old bytes.new first (32 * length rows.now) }
{
    for (v, row) in rows.iter().enumerate() {
        put_vdev(bytes, first + VDEV_LEN * v, row);
    }
}

/// Writes the rows of the logs from a place on.
fn put_logs(bytes: &mut [u8], first: usize, rows: &[LogRow])
    requires within { first + 48 * length rows.now ≤ length bytes.old }
    ensures rows { (l : ℕ) (d : LogRow) → l < length rows.now → IsLogAt bytes.new (first + 48 * l) (slice_index_or rows.now l d) }
    ensures changes { Changes bytes.old bytes.new first (48 * length rows.now) }
{
    for (l, row) in rows.iter().enumerate() {
        put_log(bytes, first + LOG_LEN * l, row);
    }
}

/// Writes the rows of the metaslabs from a place on, over zeros.
fn put_rows(bytes: &mut [u8], first: usize, rows: &[MsRow])
    requires within { first + 40 * length rows.now ≤ length bytes.old }
    requires zeros { AreZeros bytes.old first (40 * length rows.now) }
    ensures rows { (m : ℕ) (d : MsRow) → m < length rows.now → IsMsRowAt bytes.new (first + 40 * m) (slice_index_or rows.now m d) }
    ensures changes { Changes bytes.old bytes.new first (40 * length rows.now) }
{
    for (m, row) in rows.iter().enumerate() {
        put_row(bytes, first + ROW_LEN * m, row);
    }
}

/// Writes a table over zeros of its length.
fn put_table(bytes: &mut [u8], table: &Table)
    requires len { length bytes.old ≡ len_of table.now }
    requires most { length bytes.old ≤ 262144 }
    requires zeros { AreZeros bytes.old 0 (len_of table.now) }
    ensures { IsEncoded bytes.new table.now }
{
    let vdevs = table.vdevs.as_slice();
    let logs = table.logs.as_slice();
    let rows = table.rows.as_slice();
    put_front(
        bytes,
        table.group.0,
        vdevs.len() as u32,
        rows.len() as u32,
        logs.len() as u32,
    );
    put_vdevs(bytes, FRONT_LEN, vdevs);
    put_logs(bytes, FRONT_LEN + VDEV_LEN * vdevs.len(), logs);
    put_rows(
        bytes,
        FRONT_LEN + VDEV_LEN * vdevs.len() + LOG_LEN * logs.len(),
        rows,
    );
}

/// The bytes of a table. Linear in its rows.
pub(crate) fn encode(alloc: Global, table: &Table) -> Result<Vec<u8>, AllocError>
    requires { len_of table.now ≤ 262144 }
    ensures { IfOk result (λ bytes. IsEncoded bytes.items table.now) }
{
    let len = FRONT_LEN
        + VDEV_LEN * table.vdevs.len()
        + LOG_LEN * table.logs.len()
        + ROW_LEN * table.rows.len();
    let mut bytes = Vec::new(alloc);
    bytes.resize(len, 0)?;
    put_table(&mut bytes, table);
    Ok(bytes)
}
