// A table from its bytes.
ghost use Rattle.std.specs.Prelude.{◌≡◌, ◌^◌, ◌<◌, ◌≤◌, length, IfOk, IfErr, OnOk};
ghost use Rattle.std.specs.List.{flat_map, range_with_len};
ghost use Rattle.vdev_map.specs.Limits.{IsHead, EachRow};
ghost use Rattle.vdev_map.specs.Numbers.{metaslabs_in};
ghost use Rattle.vdev_map.specs.Tables.{HasItsLogs};
ghost use Rattle.vdev_map.specs.declared.layout.Head.{Head};
ghost use Rattle.uber_ring.specs.Numbers.{number_at};
ghost use Rattle.uber_ring.specs.TableBytes.{vdevs_in, logs_in, rows_in, table_in, vdev_count_in, log_count_in, metaslab_count_in, HasItsLength};
ghost use Rattle.uber_ring.specs.TableFields.{Each, IsRight, IsWrongIn, IsAllRight, AreCounts, fields_in, vdev_fields, log_fields, row_fields};
ghost use Rattle.uber_ring.specs.declared.slot.Uber.{Uber};

use crate::front::{Counts, first_log_of, front_of};
use crate::rows::{log_of, row_of, vdev_of};
use crate::{TableFault, Uber};
use std::alloc::Global;
use vdev_map::{Head, LogRow, MsRow, Table};
use zms_units::{Items, VdevRow};

/// The rows of the vdevs.
fn vdevs_of(alloc: Global, bytes: &[u8], counts: Counts) -> Result<Vec<VdevRow>, TableFault>
    requires counts { AreCounts bytes.now counts }
    requires whole { HasItsLength bytes.now }
    requires len { length bytes.now ≤ 262144 }
    requires each { metaslab_count_in bytes.now ≡ metaslabs_in (vdevs_in bytes.now) }
    requires few { metaslab_count_in bytes.now ≤ 1024 }
    ensures rows { IfOk result (λ rows. rows.items ≡ vdevs_in bytes.now) }
    ensures ok { (head : Head) (uber : Uber) → OnOk result (Each (IsRight head uber bytes.now) (flat_map vdev_fields (range_with_len 0 (vdev_count_in bytes.now)))) }
    ensures err { (head : Head) (uber : Uber) → IfErr result (IsWrongIn (IsRight head uber bytes.now) bytes.now (flat_map vdev_fields (range_with_len 0 (vdev_count_in bytes.now)))) }
{
    let mut vdevs = Vec::new(alloc);
    let mut units = 0;
    for v in 0..counts.vdevs {
        let row = vdev_of(bytes, v, units)?;
        units += u64::from(row.metaslabs) * u64::from(row.units);
        vdevs.push(row)?;
    }
    Ok(vdevs)
}

/// The rows of the logs.
fn logs_of(
    alloc: Global,
    bytes: &[u8],
    head: &Head,
    counts: Counts,
    group: u64,
) -> Result<Vec<LogRow>, TableFault>
    requires head { IsHead head.now }
    requires counts { AreCounts bytes.now counts }
    requires whole { HasItsLength bytes.now }
    requires len { length bytes.now ≤ 262144 }
    requires group { number_at bytes.now 8 8 ≡ group }
    requires last { group < 2 ^ 50 }
    ensures rows { IfOk result (λ rows. rows.items ≡ logs_in bytes.now) }
    ensures ok { (uber : Uber) → OnOk result (Each (IsRight head.now uber bytes.now) (flat_map log_fields (range_with_len 0 (log_count_in bytes.now)))) }
    ensures err { (uber : Uber) → IfErr result (IsWrongIn (IsRight head.now uber bytes.now) bytes.now (flat_map log_fields (range_with_len 0 (log_count_in bytes.now)))) }
{
    let first = first_log_of(bytes, counts, group);
    let mut logs = Vec::new(alloc);
    for l in 0..counts.logs {
        let row = log_of(bytes, head, counts, l, first)?;
        logs.push(row)?;
    }
    Ok(logs)
}

/// The rows of the metaslabs.
fn rows_of(
    alloc: Global,
    bytes: &[u8],
    head: &Head,
    uber: &Uber,
    vdevs: &[VdevRow],
    counts: Counts,
) -> Result<Vec<MsRow>, TableFault>
    requires head { IsHead head.now }
    requires group { uber.now.group.0 < 2 ^ 50 }
    requires vdevs { vdevs.now ≡ vdevs_in bytes.now }
    requires count { length vdevs.now ≤ 16 }
    requires units { EachRow (λ row. row.units ≤ 131072) vdevs.now }
    requires each { metaslab_count_in bytes.now ≡ metaslabs_in vdevs.now }
    requires few { metaslab_count_in bytes.now ≤ 1024 }
    requires counts { AreCounts bytes.now counts }
    requires whole { HasItsLength bytes.now }
    requires len { length bytes.now ≤ 262144 }
    ensures rows { IfOk result (λ rows. rows.items ≡ rows_in bytes.now) }
    ensures ok { OnOk result (Each (IsRight head.now uber.now bytes.now) (flat_map row_fields (range_with_len 0 (metaslab_count_in bytes.now)))) }
    ensures err { IfErr result (IsWrongIn (IsRight head.now uber.now bytes.now) bytes.now (flat_map row_fields (range_with_len 0 (metaslab_count_in bytes.now)))) }
{
    let mut rows = Vec::new(alloc);
    for m in 0..counts.metaslabs {
        let row = row_of(bytes, head, uber, vdevs, counts, m)?;
        rows.push(row)?;
    }
    Ok(rows)
}

/// The table that these bytes are, if each field is as it should be. Linear in the rows.
pub(crate) fn decode(
    alloc: Global,
    bytes: &[u8],
    uber: &Uber,
    head: &Head,
) -> Result<Table, TableFault>
    requires head { IsHead head.now }
    requires group { uber.now.group.0 < 2 ^ 50 }
    requires len { length bytes.now ≤ 262144 }
    ensures table { IfOk result (λ table. table ≡ table_in bytes.now) }
    ensures ok { OnOk result (IsAllRight head.now uber.now bytes.now) }
    ensures err { IfErr result (IsWrongIn (IsRight head.now uber.now bytes.now) bytes.now (fields_in bytes.now)) }
{
    let counts = front_of(bytes, uber)?;
    let vdevs = vdevs_of(alloc, bytes, counts)?;
    let logs = logs_of(alloc, bytes, head, counts, uber.group.0)?;
    let rows = rows_of(alloc, bytes, head, uber, &vdevs, counts)?;
    Ok(Table {
        group: uber.group,
        vdevs: Items::from_vec(vdevs),
        logs: Items::from_vec(logs),
        rows: Items::from_vec(rows),
    })
}
