// The rows of a table, as they are read.
ghost use Rattle.std.specs.Prelude.{◌≡◌, ◌+◌, ◌*◌, ◌^◌, ◌<◌, ◌≤◌, ◌↔◌, length, take, IsTrue, IfOk, IfErr, OnOk, MatchOption};
ghost use Rattle.zms_units.specs.declared.places.Class.{Class};
ghost use Rattle.vdev_map.specs.Limits.{IsHead, IsShift, IsUnits, EachRow};
ghost use Rattle.vdev_map.specs.Numbers.{metaslabs_in, units_in};
ghost use Rattle.vdev_map.specs.Tables.{IsUnflushed, IsSide, first_log};
ghost use Rattle.vdev_map.specs.declared.layout.Head.{Head};
ghost use Rattle.uber_ring.specs.Numbers.{number_at};
ghost use Rattle.uber_ring.specs.TableBytes.{vdev_at, log_at, row_at, class_of, vdev_row_in, log_row_in, ms_row_in, vdevs_in, table_in, vdev_count_in, log_count_in, metaslab_count_in, HasItsLength};
ghost use Rattle.uber_ring.specs.TableFields.{Each, IsRight, IsWrongIn, AreCounts, vdev_fields, log_fields, row_fields};
ghost use Rattle.uber_ring.specs.declared.slot.Uber.{Uber};

use crate::fields::{digest_at, has_zeros, u32_at, u64_at};
use crate::front::{Counts, FRONT_LEN, LOG_LEN, ROW_LEN, VDEV_LEN, malformed};
use crate::{TableFault, Uber};
use vdev_map::{Form, Head, LogRow, MsRow, id_of, log_len, room_of, row_place};
use zms_units::{Class, Group, VdevRow};

/// The most units that a pool may have.
const MAX_UNITS_IN_ALL: u64 = 4_194_304;

/// The class of a number.
fn class_for(number: u32) -> Option<Class>
    ensures { MatchOption result (4 ≤ number) (λ class. (number < 4) × (class ≡ class_of number)) }
{
    match number {
        0 => Some(Class::Normal),
        1 => Some(Class::Log),
        2 => Some(Class::Special),
        3 => Some(Class::Dedup),
        _ => None,
    }
}

/// Whether a unit may have `2^ashift` bytes.
fn is_shift(ashift: u32) -> bool
    ensures { IsTrue result ↔ IsShift ashift }
{
    ashift >= 9 && ashift <= 12
}

/// Whether a vdev may have metaslabs of so many units, behind vdevs that have so many in all.
fn are_units(units: u32, metaslabs: u32, before: u64) -> bool
    requires metaslabs { metaslabs ≤ 1024 }
    requires before { before ≤ 4194304 }
    ensures { IsTrue result ↔ (IsUnits units × (before + metaslabs * units ≤ 4194304)) }
{
    if units < 64 || units > 131_072 {
        return false;
    }
    before + u64::from(metaslabs) * u64::from(units) <= MAX_UNITS_IN_ALL
}

/// The row of a vdev, behind vdevs that have so many units in all.
pub(crate) fn vdev_of(bytes: &[u8], v: usize, units_before: u64) -> Result<VdevRow, TableFault>
    requires number { v < vdev_count_in bytes.now }
    requires within { vdev_at v + 32 ≤ length bytes.now }
    requires len { length bytes.now ≤ 262144 }
    requires before { units_before ≡ units_in (take v (vdevs_in bytes.now)) }
    requires few { units_before ≤ 4194304 }
    requires metaslabs { number_at bytes.now (vdev_at v + 12) 4 ≤ 1024 }
    ensures row { IfOk result (λ row. row ≡ vdev_row_in bytes.now (vdev_at v)) }
    ensures ok { (head : Head) (uber : Uber) → OnOk result (Each (IsRight head uber bytes.now) (vdev_fields v)) }
    ensures err { (head : Head) (uber : Uber) → IfErr result (IsWrongIn (IsRight head uber bytes.now) bytes.now (vdev_fields v)) }
{
    let at = FRONT_LEN + VDEV_LEN * v;
    let Some(class) = class_for(u32_at(bytes, at)) else {
        return Err(malformed(at));
    };
    let ashift = u32_at(bytes, at + 4);
    if !is_shift(ashift) {
        return Err(malformed(at + 4));
    }
    let units = u32_at(bytes, at + 8);
    let metaslabs = u32_at(bytes, at + 12);
    if !are_units(units, metaslabs, units_before) {
        return Err(malformed(at + 8));
    }
    if metaslabs < 1 {
        return Err(malformed(at + 12));
    }
    if !has_zeros(bytes, at + 16, 16) {
        return Err(malformed(at + 16));
    }
    Ok(VdevRow {
        class,
        ashift: ashift as u8,
        units,
        metaslabs: metaslabs as u16,
    })
}

/// The row of a log, where the logs begin with that of a group.
pub(crate) fn log_of(
    bytes: &[u8],
    head: &Head,
    counts: Counts,
    l: usize,
    first: u64,
) -> Result<LogRow, TableFault>
    requires head { IsHead head.now }
    requires counts { AreCounts bytes.now counts }
    requires number { l < log_count_in bytes.now }
    requires within { log_at (vdev_count_in bytes.now) l + 48 ≤ length bytes.now }
    requires len { length bytes.now ≤ 262144 }
    requires first { first ≡ first_log (table_in bytes.now) }
    requires last { first ≤ 2 ^ 50 }
    ensures row { IfOk result (λ row. row ≡ log_row_in bytes.now (log_at (vdev_count_in bytes.now) l)) }
    ensures ok { (uber : Uber) → OnOk result (Each (IsRight head.now uber bytes.now) (log_fields l)) }
    ensures err { (uber : Uber) → IfErr result (IsWrongIn (IsRight head.now uber bytes.now) bytes.now (log_fields l)) }
{
    let at = FRONT_LEN + VDEV_LEN * counts.vdevs + LOG_LEN * l;
    let group = u64_at(bytes, at);
    if group != first + l as u64 {
        return Err(malformed(at));
    }
    let words = u64_at(bytes, at + 8);
    if words > log_len(head.log) / 8 {
        return Err(malformed(at + 8));
    }
    Ok(LogRow {
        group: Group(group),
        words,
        digest: digest_at(bytes, at + 16),
    })
}

/// Whether a metaslab may have this group as the first that it has not flushed.
fn is_unflushed(head: &Head, group: u64, unflushed: u64) -> bool
    requires head { IsHead head.now }
    requires last { group < 2 ^ 50 }
    ensures { IsTrue result ↔ IsUnflushed head.now group unflushed }
{
    if unflushed < 5 || unflushed > group + 1 {
        return false;
    }
    if group >= unflushed + u64::from(head.flush) {
        return false;
    }
    match head.form {
        Form::Whole => unflushed == group + 1,
        Form::Logged => true,
    }
}

/// Whether there is such a side.
fn is_side(head: &Head, side: u32) -> bool
    ensures { IsTrue result ↔ IsSide head.now side }
{
    match head.form {
        Form::Whole => side == 0,
        Form::Logged => side <= 1,
    }
}

/// The row of the metaslab of a number.
pub(crate) fn row_of(
    bytes: &[u8],
    head: &Head,
    uber: &Uber,
    vdevs: &[VdevRow],
    counts: Counts,
    m: usize,
) -> Result<MsRow, TableFault>
    requires head { IsHead head.now }
    requires group { uber.now.group.0 < 2 ^ 50 }
    requires vdevs { vdevs.now ≡ vdevs_in bytes.now }
    requires count { length vdevs.now ≤ 16 }
    requires units { EachRow (λ row. row.units ≤ 131072) vdevs.now }
    requires each { metaslab_count_in bytes.now ≡ metaslabs_in vdevs.now }
    requires few { metaslab_count_in bytes.now ≤ 1024 }
    requires counts { AreCounts bytes.now counts }
    requires number { m < metaslab_count_in bytes.now }
    requires within { row_at (vdev_count_in bytes.now) (log_count_in bytes.now) m + 40 ≤ length bytes.now }
    requires len { length bytes.now ≤ 262144 }
    ensures row { IfOk result (λ row. row ≡ ms_row_in bytes.now (row_at (vdev_count_in bytes.now) (log_count_in bytes.now) m)) }
    ensures ok { OnOk result (Each (IsRight head.now uber.now bytes.now) (row_fields m)) }
    ensures err { IfErr result (IsWrongIn (IsRight head.now uber.now bytes.now) bytes.now (row_fields m)) }
{
    let at = FRONT_LEN + VDEV_LEN * counts.vdevs + LOG_LEN * counts.logs + ROW_LEN * m;
    let id = id_of(vdevs, m as u32);
    let place = u64_at(bytes, at);
    if place != row_place(head, vdevs, id) {
        return Err(malformed(at));
    }
    let words = u64_at(bytes, at + 8);
    if words > room_of(head.form, vdevs[id.vdev as usize].units) {
        return Err(malformed(at + 8));
    }
    let unflushed = u64_at(bytes, at + 16);
    if !is_unflushed(head, uber.group.0, unflushed) {
        return Err(malformed(at + 16));
    }
    let held = u64_at(bytes, at + 24);
    if held > u64::from(vdevs[id.vdev as usize].units) {
        return Err(malformed(at + 24));
    }
    let side = u32_at(bytes, at + 32);
    if !is_side(head, side) {
        return Err(malformed(at + 32));
    }
    if !has_zeros(bytes, at + 36, 4) {
        return Err(malformed(at + 36));
    }
    Ok(MsRow {
        place,
        words,
        unflushed: Group(unflushed),
        held,
        side,
    })
}
