//! The report, line by line.

ghost use Rattle.std.specs.Prelude.{◌≡◌, ◌<◌, ℕ, List, OnOk, IfOk, IfErr, IsErrOf, length};
ghost use Rattle.std.specs.List.{flat_map};
ghost use Rattle.zms_dev.specs.Causes.{one_more};
ghost use Rattle.zms_dev.specs.Disk.{Tells, bytes_of};
ghost use Rattle.zms_dev.specs.Prints.{Prints, HandsOn};
ghost use Rattle.zms_dev.specs.Runs.{Untouched};
ghost use Rattle.zms_units.specs.Runs.{AreMaximalRuns};
ghost use Rattle.zms_units.specs.Segments.{covered, total_of};
ghost use Rattle.zms_units.specs.declared.places.MsId.{MsId};
ghost use Rattle.vdev_map.specs.Numbers.{IsIn, number_of, metaslabs_in};
ghost use Rattle.meta_store.specs.Causes.{IsFirstDamaged};
ghost use Rattle.meta_store.specs.Finding.{IsFoundFault};
ghost use Rattle.meta_store.specs.Groups.{IsSound};
ghost use Rattle.meta_store.specs.Words.{row_of, units_of};
ghost use Rattle.zdb_report.specs.Faults.{IsFaultAt, IsReportFault, HaveFaulted};
ghost use Rattle.zdb_report.specs.Stats.{IsStats, IsShown, AreShown, IsReport};
ghost use Rattle.zdb_report.specs.Texts.{metaslab_text};
ghost use Rattle.zdb_report.specs.declared.stats.MetaslabStats.{MetaslabStats};

use crate::ReportFault;
use crate::classes::{metaslab_count, write_closing};
use crate::gaps::vacant_histogram;
use crate::lines::write_opening;
use crate::stats::MetaslabStats;
use meta_store::{FoundFault, MetaStore};
use ms_weight::weight_of;
use std::alloc::Global;
use trace_text::Printed;
use vdev_map::id_of;
use zms_dev::{Disk, Sink};
use zms_units::{MsId, Seg};

/// What is told of a metaslab of which these runs are held.
fn stats_of<D: Disk>(store: &MetaStore<D>, id: MsId, held: &[Seg]) -> MetaslabStats
    requires id { IsIn store.now.layout.vdevs id }
    requires held { AreMaximalRuns (covered held.now) (units_of store.now.table id) held.now }
    requires count { total_of held.now ≡ (row_of store.now.table id).held }
    ensures id { result.id ≡ id }
    ensures stats { IsStats store.now.table (number_of store.now.table.vdevs id) (covered held.now) result }
{
    let vdev = store.layout().vdevs.as_slice()[id.vdev as usize];
    let row = *store.row(id);
    let hist = vacant_histogram(held, vdev.units, vdev.ashift);
    MetaslabStats {
        id,
        class: vdev.class,
        ashift: vdev.ashift,
        row,
        live: row.held,
        vacant: u64::from(vdev.units) - row.held,
        hist,
        weight: weight_of(&hist),
    }
}

/// Reads what is told of the metaslab of a number.
fn survey<D: Disk>(
    alloc: Global,
    store: &mut MetaStore<D>,
    number: u32,
) -> Result<MetaslabStats, FoundFault>
    requires { number < metaslabs_in store.old.table.vdevs }
    ensures shown { IfOk result (IsShown (D.state store.old.disk) store.old.table number) }
    ensures sound { Tells (D.state store.old.disk) → IfOk result (λ s. IsSound (bytes_of (D.state store.old.disk)) store.old.table s.id) }
    ensures fault { Tells (D.state store.old.disk) → IfErr result (λ fault. (id : MsId) × IsIn store.old.table.vdevs id × (number_of store.old.table.vdevs id ≡ number) × IsFoundFault (bytes_of (D.state store.old.disk)) store.old.table id fault) }
    ensures layout { store.new.layout ≡ store.old.layout }
    ensures table { store.new.table ≡ store.old.table }
    ensures rests { Tells (D.state store.old.disk) → Untouched (D.state store.old.disk) (D.state store.new.disk) }
    ensures steady { (IsErrOf result FoundFault.Failed → ⊥) → D.faults store.new.disk ≡ D.faults store.old.disk }
    ensures failed { IsErrOf result FoundFault.Failed → D.faults store.new.disk ≡ one_more (D.faults store.old.disk) }
{
    let id = id_of(store.layout().vdevs.as_slice(), number);
    let held = store.found(alloc, id)?;
    Ok(stats_of(store, id, &held))
}

/// Writes the lines of the metaslab of a number.
fn write_metaslab<K: Sink, D: Disk>(
    alloc: Global,
    out: &mut K,
    store: &mut MetaStore<D>,
    number: u32,
) -> Result<(), ReportFault>
    requires { number < metaslabs_in store.old.table.vdevs }
    ensures shown { OnOk result ((s : MetaslabStats) × IsShown (D.state store.old.disk) store.old.table number s × Prints (K.state out.old) (K.state out.new) (metaslab_text s) result) }
    ensures sound { Tells (D.state store.old.disk) → OnOk result ((id : MsId) × IsIn store.old.table.vdevs id × (number_of store.old.table.vdevs id ≡ number) × IsSound (bytes_of (D.state store.old.disk)) store.old.table id) }
    ensures damaged { Tells (D.state store.old.disk) → IfErr result (IsFaultAt (bytes_of (D.state store.old.disk)) store.old.table number) }
    ensures layout { store.new.layout ≡ store.old.layout }
    ensures table { store.new.table ≡ store.old.table }
    ensures rests { Tells (D.state store.old.disk) → Untouched (D.state store.old.disk) (D.state store.new.disk) }
    ensures faults { HaveFaulted (D.faults store.old.disk) (D.faults store.new.disk) (K.state out.old).faults (K.state out.new).faults result }
{
    let stats = survey(alloc, store, number)?;
    stats.write(out)?;
    Ok(())
}

/// Writes the lines of all metaslabs, one after the other.
fn write_metaslabs<K: Sink, D: Disk>(
    alloc: Global,
    out: &mut K,
    store: &mut MetaStore<D>,
) -> Result<(), ReportFault>
    ensures shown { OnOk result ((stats : List MetaslabStats) × AreShown (D.state store.old.disk) store.old.table (metaslabs_in store.old.table.vdevs) stats × Prints (K.state out.old) (K.state out.new) (flat_map metaslab_text stats) result) }
    ensures damaged { Tells (D.state store.old.disk) → IfErr result (IsReportFault (bytes_of (D.state store.old.disk)) store.old.table) }
    ensures layout { store.new.layout ≡ store.old.layout }
    ensures table { store.new.table ≡ store.old.table }
    ensures rests { Tells (D.state store.old.disk) → Untouched (D.state store.old.disk) (D.state store.new.disk) }
    ensures faults { HaveFaulted (D.faults store.old.disk) (D.faults store.new.disk) (K.state out.old).faults (K.state out.new).faults result }
{
    let count = metaslab_count(store.layout().vdevs.as_slice());
    for number in 0..count {
        write_metaslab(alloc, out, store, number)?;
    }
    Ok(())
}

/// Writes the report of the store's group, and hands it on: the pool and its vdevs, each metaslab with its row, its live and
/// vacant units, its weight, its fragmentation and the histogram of its vacant runs, and the bytes of each class and of the
/// pool. After `zdb -m` and `zdb -mm`.
///
/// The device is read and never written. `Damaged` names the first metaslab whose words are damaged. After a fault the sink
/// has taken some of the front. Linear in the words and the runs of the group, with the runs of one metaslab in memory.
pub fn report<K: Sink, D: Disk>(
    alloc: Global,
    out: &mut K,
    store: &mut MetaStore<D>,
) -> Result<(), ReportFault>
    ensures printed { OnOk result ((text : List ℕ) × IsReport (D.state store.old.disk) store.old.layout store.old.table text × HandsOn (K.state out.old) (K.state out.new) text result) }
    ensures damaged { Tells (D.state store.old.disk) → IfErr result (IsReportFault (bytes_of (D.state store.old.disk)) store.old.table) }
    ensures rests { Tells (D.state store.old.disk) → Untouched (D.state store.old.disk) (D.state store.new.disk) }
    ensures layout { store.new.layout ≡ store.old.layout }
    ensures table { store.new.table ≡ store.old.table }
    ensures faults { HaveFaulted (D.faults store.old.disk) (D.faults store.new.disk) (K.state out.old).faults (K.state out.new).faults result }
{
    write_opening(out, store.layout(), store.group())?;
    write_metaslabs(alloc, out, store)?;
    write_closing(out, store)?;
    out.flush()?;
    Ok(())
}
