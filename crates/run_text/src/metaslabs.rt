//! The lines of the metaslabs, in units.

ghost use Rattle.std.specs.Prelude.{◌≡◌, ◌<◌, ◌^◌, length};
ghost use Rattle.zms_dev.specs.Prints.{Prints};
ghost use Rattle.trace_text.specs.Numbers.{numbered};
ghost use Rattle.vdev_map.specs.Limits.{AreVdevs};
ghost use Rattle.vdev_map.specs.Numbers.{metaslabs_in};
ghost use Rattle.run_text.specs.Tallies.{by_vdev};
ghost use Rattle.run_text.specs.Texts.{metaslab_line, metaslab_lines};

use crate::tallies::Tally;
use crate::vdevs::counts_of;
use ms_core::Counts;
use trace_text::Piece::{Number, Text};
use trace_text::Printed;
use zms_dev::{Failed, Sink};
use zms_units::VdevRow;

/// The line of one metaslab.
fn write_metaslab<S: Sink>(
    out: &mut S,
    vdev: u64,
    index: u64,
    counts: &Counts,
) -> Result<(), Failed>
    ensures { Prints (S.state out.old) (S.state out.new) (metaslab_line vdev index counts.now) result }
{
    let units = Tally {
        live: u64::from(counts.live),
        deferred: u64::from(counts.deferred),
        vacant: u64::from(counts.vacant),
    };
    (
        Text(b"metaslab "),
        Number(vdev),
        Text(b" "),
        Number(index),
        units,
    )
        .write(out)
}

/// The lines of a vdev's metaslabs, by index.
fn write_vdev<S: Sink>(out: &mut S, vdev: u64, counts: &[Counts]) -> Result<(), Failed>
    ensures { Prints (S.state out.old) (S.state out.new) (numbered (metaslab_line vdev) 0 counts.now) result }
{
    for (index, metaslab) in counts.iter().enumerate() {
        write_metaslab(out, vdev, index as u64, metaslab)?;
    }
    Ok(())
}

/// The lines of all metaslabs, by vdev and index.
pub(crate) fn write_metaslabs<S: Sink>(
    out: &mut S,
    vdevs: &[VdevRow],
    counts: &[Counts],
) -> Result<(), Failed>
    requires vdevs { AreVdevs vdevs.now }
    requires one_each { length counts.now ≡ metaslabs_in vdevs.now }
    ensures { Prints (S.state out.old) (S.state out.new) (metaslab_lines (by_vdev vdevs.now counts.now)) result }
{
    for vdev in 0..vdevs.len() {
        write_vdev(out, vdev as u64, counts_of(vdevs, counts, vdev))?;
    }
    Ok(())
}
