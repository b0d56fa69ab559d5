// The units of a metaslab that a group holds, from the device.
ghost use Rattle.std.specs.Prelude.{◌≡◌, ℕ, ◌<◌, ◌≤◌, length, IfOk, IfErr, IsErrOf, OnOk};
ghost use Rattle.zms_units.specs.Segments.{total_of, covered};
ghost use Rattle.zms_units.specs.Runs.{AreMaximalRuns};
ghost use Rattle.zms_dev.specs.Causes.{one_more};
ghost use Rattle.zms_dev.specs.Disk.{Tells, bytes_of};
ghost use Rattle.zms_dev.specs.Runs.{Untouched};
ghost use Rattle.vdev_map.specs.Numbers.{IsIn};
ghost use Rattle.vdev_map.specs.Tables.{IsTable};
ghost use Rattle.meta_store.specs.Finding.{IsFoundFault};
ghost use Rattle.meta_store.specs.Heads.{IsWholeLimits};
ghost use Rattle.meta_store.specs.Words.{row_of, units_of, words_place, words_in, AreHeldRuns};

use crate::FoundFault;
use crate::runs::runs_of;
use crate::words::read_words;
use std::alloc::Global;
use vdev_map::{Head, MsRow, Piece, Table, number_of, span_of};
use zms_dev::Disk;
use zms_units::{MsId, Seg};

/// The row of a metaslab in a table.
pub(crate) fn row_at<'a>(head: &Head, table: &'a Table, id: MsId) -> &'a MsRow
    requires table { IsTable head.now table.now }
    requires id { IsIn table.now.vdevs id }
    ensures { result.now ≡ row_of table.now id }
{
    &table.rows.as_slice()[number_of(table.vdevs.as_slice(), id) as usize]
}

/// How many units a metaslab has.
pub(crate) fn units_at(table: &Table, id: MsId) -> u32
    requires { IsIn table.now.vdevs id }
    ensures { result ≡ units_of table.now id }
{
    table.vdevs.as_slice()[id.vdev as usize].units
}

/// Where the words of a metaslab lie, in bytes.
fn place_at(head: &Head, table: &Table, id: MsId) -> u64
    requires head { IsWholeLimits head.now }
    requires table { IsTable head.now table.now }
    requires id { IsIn table.now.vdevs id }
    ensures { result ≡ words_place table.now id }
{
    span_of(
        head,
        table.vdevs.as_slice(),
        Piece::WholeSlot(id, table.group),
    )
    .at
}

/// Reads the words that the row of a metaslab names, and gives the units that they hold as maximal runs, which add up to the
/// row's number on every device. Linear in the words and the units.
pub(crate) fn find<D: Disk>(
    alloc: Global,
    disk: &mut D,
    head: &Head,
    table: &Table,
    id: MsId,
) -> Result<Vec<Seg>, FoundFault>
    requires head { IsWholeLimits head.now }
    requires table { IsTable head.now table.now }
    requires id { IsIn table.now.vdevs id }
    ensures runs { Tells (D.state disk.old) → IfOk result (λ runs. AreHeldRuns (words_in (bytes_of (D.state disk.old)) table.now id) (units_of table.now id) runs.items) }
    ensures maximal { IfOk result (λ runs. AreMaximalRuns (covered runs.items) (units_of table.now id) runs.items) }
    ensures count { IfOk result (λ runs. total_of runs.items ≡ (row_of table.now id).held) }
    ensures fault { Tells (D.state disk.old) → IfErr result (IsFoundFault (bytes_of (D.state disk.old)) table.now id) }
    ensures rests { Tells (D.state disk.old) → Untouched (D.state disk.old) (D.state disk.new) }
    ensures steady { (IsErrOf result FoundFault.Failed → ⊥) → D.faults disk.new ≡ D.faults disk.old }
    ensures failed { IsErrOf result FoundFault.Failed → D.faults disk.new ≡ one_more (D.faults disk.old) }
{
    let place = place_at(head, table, id);
    let row = row_at(head, table, id);
    let units = units_at(table, id);
    let words = read_words(alloc, disk, place, row.words as usize)?;
    runs_of(alloc, &words, id, units, row.held)
}
