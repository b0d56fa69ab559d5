ghost use Rattle.std.specs.Prelude.{◌≡◌, ◌+◌, ◌≤◌, length, IfOk, IfErr, OnOk, IsErrOf};
ghost use Rattle.sha2.specs.Sha256.{sha256};
ghost use Rattle.zms_dev.specs.Bytes.{Outside, Holds};
ghost use Rattle.zms_dev.specs.Causes.{HasCause, one_more};
ghost use Rattle.zms_dev.specs.Disk.{Tells, bytes_of};
ghost use Rattle.zms_dev.specs.Runs.{Spares, Untouched};
ghost use Rattle.vdev_map.specs.Limits.{IsHead};
ghost use Rattle.vdev_map.specs.Places.{table_place};
ghost use Rattle.vdev_map.specs.Tables.{IsGroup, IsTable};
ghost use Rattle.vdev_map.specs.declared.layout.Head.{Head};
ghost use Rattle.uber_ring.specs.Encoding.{len_of, Names, HasDigestOf, IsWrittenAs, IsFailure};
ghost use Rattle.uber_ring.specs.Numbers.{bytes_at};
ghost use Rattle.uber_ring.specs.Slots.{IsUber};
ghost use Rattle.uber_ring.specs.TableBytes.{table_in};
ghost use Rattle.uber_ring.specs.TableFields.{IsAllRight, HasTable, HasTableFault, ShowsFault};

use crate::decode::decode;
use crate::encode::encode;
use crate::fields::whole_digest;
use crate::slot::VERSION;
use crate::{TableFault, Uber};
use std::alloc::Global;
use vdev_map::{Head, Table, table_place};
use zms_dev::{Disk, Failed, read_part};

/// Writes a table into the slot of its group, and answers the uberblock that names it. Does not flush. Linear in its rows.
pub fn write_table<D: Disk>(alloc: Global, disk: &mut D, table: &Table) -> Result<Uber, TableFault>
    requires group { IsGroup table.now.group.0 }
    requires len { len_of table.now ≤ 262144 }
    ensures limits { IfOk result (λ uber. IsUber uber) }
    ensures names { IfOk result (λ uber. Names uber table.now) }
    // Whatever the device does.
    ensures digest { IfOk result (λ uber. HasDigestOf uber table.now) }
    ensures encoded { Tells (D.state disk.old) → IfOk result (λ uber. IsWrittenAs (bytes_of (D.state disk.new)) uber table.now) }
    // What was written is read again, under every head that the table fits.
    ensures written { Tells (D.state disk.old) → IfOk result (λ uber. (head : Head) → IsTable head table.now → HasTable (bytes_of (D.state disk.new)) head uber table.now) }
    ensures lies { Tells (D.state disk.old) → OnOk result (table_place table.now.group.0 + len_of table.now ≤ length (bytes_of (D.state disk.new))) }
    ensures spares { Tells (D.state disk.old) → Spares (Outside (table_place table.now.group.0) (len_of table.now)) (D.state disk.old) (D.state disk.new) }
    ensures flushes { Tells (D.state disk.old) → (D.state disk.new).flushes ≡ (D.state disk.old).flushes }
    ensures err { IfErr result (λ fault. IsFailure fault) }
    // Memory runs out before the device is touched.
    ensures memory { Tells (D.state disk.old) → IsErrOf result TableFault.Memory → Untouched (D.state disk.old) (D.state disk.new) }
    ensures steady { (IsErrOf result TableFault.Failed → ⊥) → D.faults disk.new ≡ D.faults disk.old }
    ensures failed { IsErrOf result TableFault.Failed → D.faults disk.new ≡ one_more (D.faults disk.old) }
{
    let bytes = encode(alloc, table)?;
    let uber = uber_for(table, &bytes);
    write_bytes(disk, table_place(table.group), &bytes)?;
    Ok(uber)
}

/// Writes bytes from a place on.
fn write_bytes<D: Disk>(disk: &mut D, at: u64, bytes: &[u8]) -> Result<(), Failed>
    ensures written { Tells (D.state disk.old) → OnOk result (Holds (bytes_of (D.state disk.old)) at bytes.now (bytes_of (D.state disk.new))) }
    ensures spares { Tells (D.state disk.old) → Spares (Outside at (length bytes.now)) (D.state disk.old) (D.state disk.new) }
    ensures flushes { Tells (D.state disk.old) → (D.state disk.new).flushes ≡ (D.state disk.old).flushes }
    ensures cause { HasCause (D.faults disk.old) (D.faults disk.new) result }
{
    disk.write(at, bytes)
}

/// The uberblock that names a table with these bytes.
fn uber_for(table: &Table, bytes: &[u8]) -> Uber
    requires { length bytes.now ≡ len_of table.now }
    ensures names { Names result table.now }
    ensures digest { result.table_digest ≡ sha256 bytes.now }
{
    Uber {
        group: table.group,
        version: VERSION,
        table_len: bytes.len() as u64,
        table_digest: whole_digest(bytes),
    }
}

/// Reads the table that an uberblock names. Linear in its bytes.
///
/// The digest is tested first, and then each field in the order of the bytes. A length that no table has is told at byte
/// 0 where it is less than 64, and else at byte 24.
pub fn read_table<D: Disk>(
    alloc: Global,
    disk: &mut D,
    uber: &Uber,
    head: &Head,
) -> Result<Table, TableFault>
    requires uber { IsUber uber.now }
    requires head { IsHead head.now }
    ensures table { Tells (D.state disk.old) → IfOk result (HasTable (bytes_of (D.state disk.old)) head.now uber.now) }
    ensures fault { Tells (D.state disk.old) → IfErr result (HasTableFault (bytes_of (D.state disk.old)) head.now uber.now) }
    // Whatever the device does.
    ensures limits { IfOk result (λ table. IsTable head.now table) }
    ensures group { IfOk result (λ table. table.group ≡ uber.now.group) }
    ensures rests { Tells (D.state disk.old) → Untouched (D.state disk.old) (D.state disk.new) }
    ensures flushes { Tells (D.state disk.old) → (D.state disk.new).flushes ≡ (D.state disk.old).flushes }
    ensures steady { (IsErrOf result TableFault.Failed → ⊥) → D.faults disk.new ≡ D.faults disk.old }
    ensures failed { IsErrOf result TableFault.Failed → D.faults disk.new ≡ one_more (D.faults disk.old) }
{
    let bytes = read_bytes(
        alloc,
        disk,
        table_place(uber.group),
        uber.table_len as usize,
    )?;
    table_of(alloc, &bytes, uber, head)
}

/// Reads n bytes from a place on.
fn read_bytes<D: Disk>(
    alloc: Global,
    disk: &mut D,
    at: u64,
    n: usize,
) -> Result<Vec<u8>, TableFault>
    ensures len { IfOk result (λ bytes. length bytes.items ≡ n) }
    ensures bytes { Tells (D.state disk.old) → IfOk result (λ bytes. bytes.items ≡ bytes_at (bytes_of (D.state disk.old)) at n) }
    ensures err { IfErr result (λ fault. IsFailure fault) }
    ensures rests { Tells (D.state disk.old) → Untouched (D.state disk.old) (D.state disk.new) }
    ensures flushes { Tells (D.state disk.old) → (D.state disk.new).flushes ≡ (D.state disk.old).flushes }
    ensures steady { (IsErrOf result TableFault.Failed → ⊥) → D.faults disk.new ≡ D.faults disk.old }
    ensures failed { IsErrOf result TableFault.Failed → D.faults disk.new ≡ one_more (D.faults disk.old) }
{
    let mut bytes = Vec::new(alloc);
    bytes.resize(n, 0)?;
    read_part(disk, at, &mut bytes)?;
    Ok(bytes)
}

/// The table that these bytes are, if their digest and each field is as it should be.
fn table_of(alloc: Global, bytes: &[u8], uber: &Uber, head: &Head) -> Result<Table, TableFault>
    requires uber { IsUber uber.now }
    requires head { IsHead head.now }
    requires len { length bytes.now ≤ 262144 }
    ensures digest { OnOk result (sha256 bytes.now ≡ uber.now.table_digest) }
    ensures right { OnOk result (IsAllRight head.now uber.now bytes.now) }
    ensures table { IfOk result (λ table. table ≡ table_in bytes.now) }
    ensures limits { IfOk result (λ table. IsTable head.now table) }
    ensures group { IfOk result (λ table. table.group ≡ uber.now.group) }
    ensures err { IfErr result (ShowsFault head.now uber.now bytes.now) }
{
    let found = whole_digest(bytes);
    if found != uber.table_digest {
        return Err(TableFault::TableDamaged {
            group: uber.group,
            kept: uber.table_digest,
            found,
        });
    }
    decode(alloc, bytes, uber, head)
}
