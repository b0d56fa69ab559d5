//! The lines of the report. Nothing here takes memory.

ghost use Rattle.std.specs.Prelude.{◌≡◌, ◌++◌, ◌==◌, List, ℕ, codes, not};
ghost use Rattle.std.specs.List.{list_any};
ghost use Rattle.zms_dev.specs.Prints.{Prints};
ghost use Rattle.trace_text.specs.Pieces.{text_if};
ghost use Rattle.zdb_report.specs.Texts.{vdev_line, bucket_text, hist_line, units_text, row_text, runs_text, metaslab_text, pool_line, counts_text, opening_text};
ghost use Rattle.zdb_report.specs.Fragmentation.{fragmentation_of};

use crate::fragmentation::fragmentation_of;
use crate::placed::{EachPlaced, Placed};
use crate::stats::MetaslabStats;
use trace_text::Piece::{Number, Text, Weight};
use trace_text::{Printed, write_pieces};
use vdev_map::Layout;
use zms_dev::{Failed, Sink};
use zms_units::{Group, Histogram, MsId, VdevRow};

impl Placed for VdevRow {
    ghost text = { vdev_line };

    fn write_at<S: Sink>(&self, out: &mut S, place: u64) -> Result<(), Failed> {
        write_pieces(
            out,
            &[
                Text(b"vdev "),
                Number(place),
                Text(b" "),
                Text(self.class.word().as_bytes()),
                Text(b" ashift "),
                Number(u64::from(self.ashift)),
                Text(b" units "),
                Number(u64::from(self.units)),
                Text(b" metaslabs "),
                Number(u64::from(self.metaslabs)),
                Text(b"\n"),
            ],
        )
    }
}

/// How many runs a bucket has, where it has any.
impl Placed for u32 {
    ghost text = { bucket_text };

    fn write_at<S: Sink>(&self, out: &mut S, place: u64) -> Result<(), Failed> {
        if *self == 0 {
            write_pieces(out, &[])
        } else {
            write_pieces(
                out,
                &[
                    Text(b" "),
                    Number(place),
                    Text(b":"),
                    Number(u64::from(*self)),
                ],
            )
        }
    }
}

/// Has a histogram any run?
fn has_runs(hist: &Histogram) -> bool
    ensures { result ≡ list_any (λ count. not (count == 0)) hist.now.runs }
{
    hist.runs.iter().any(|count| *count != 0)
}

/// The line of a metaslab's histogram.
#[derive(Clone, Copy)]
struct HistLine {
    id: MsId,
    hist: Histogram,
}

impl Printed for HistLine {
    ghost text = { λ line. hist_line line.id line.hist };

    fn write<S: Sink>(&self, out: &mut S) -> Result<(), Failed> {
        if !has_runs(&self.hist) {
            return write_pieces(out, &[]);
        }
        (
            Text(b"hist "),
            Number(u64::from(self.id.vdev)),
            Text(b" "),
            Number(u64::from(self.id.index)),
            EachPlaced(&self.hist.runs),
            Text(b"\n"),
        )
            .write(out)
    }
}

/// The front of a metaslab's line: its name, and its units.
#[derive(Clone, Copy)]
struct UnitsPart<'a>(&'a MetaslabStats);

impl Printed for UnitsPart<'_> {
    ghost text = { λ part. units_text part.0.now };

    fn write<S: Sink>(&self, out: &mut S) -> Result<(), Failed> {
        let stats = self.0;
        write_pieces(
            out,
            &[
                Text(b"metaslab "),
                Number(u64::from(stats.id.vdev)),
                Text(b" "),
                Number(u64::from(stats.id.index)),
                Text(b" live "),
                Number(stats.live),
                Text(b" vacant "),
                Number(stats.vacant),
            ],
        )
    }
}

/// What the table says of it.
#[derive(Clone, Copy)]
struct RowPart<'a>(&'a MetaslabStats);

impl Printed for RowPart<'_> {
    ghost text = { λ part. row_text part.0.now };

    fn write<S: Sink>(&self, out: &mut S) -> Result<(), Failed> {
        let row = &self.0.row;
        write_pieces(
            out,
            &[
                Text(b" side "),
                Number(u64::from(row.side)),
                Text(b" words "),
                Number(row.words),
                Text(b" unflushed "),
                Number(row.unflushed.0),
            ],
        )
    }
}

/// How its vacant runs weigh.
#[derive(Clone, Copy)]
struct RunsPart<'a>(&'a MetaslabStats);

impl Printed for RunsPart<'_> {
    ghost text = { λ part. runs_text part.0.now };

    fn write<S: Sink>(&self, out: &mut S) -> Result<(), Failed> {
        let fragmentation = fragmentation_of(&self.0.hist);
        write_pieces(
            out,
            &[
                Text(b" weight "),
                Weight(self.0.weight),
                Text(b" frag "),
                Number(fragmentation),
                Text(b"\n"),
            ],
        )
    }
}

/// The lines of a metaslab.
impl Printed for MetaslabStats {
    ghost text = { metaslab_text };

    fn write<S: Sink>(&self, out: &mut S) -> Result<(), Failed> {
        let hist = HistLine {
            id: self.id,
            hist: self.hist,
        };
        (UnitsPart(self), RowPart(self), RunsPart(self), hist).write(out)
    }
}

/// Bytes that are live and vacant, at the end of a line.
#[derive(Clone, Copy)]
pub(crate) struct Sums {
    pub(crate) live: u64,
    pub(crate) vacant: u64,
}

impl Printed for Sums {
    ghost text = { λ sums. counts_text sums.live sums.vacant };

    fn write<S: Sink>(&self, out: &mut S) -> Result<(), Failed> {
        (
            Text(b" live "),
            Number(self.live),
            Text(b" vacant "),
            Number(self.vacant),
            Text(b"\n"),
        )
            .write(out)
    }
}

/// The line of the pool.
#[derive(Clone, Copy)]
struct PoolLine<'a> {
    layout: &'a Layout,
    group: Group,
}

impl Printed for PoolLine<'_> {
    ghost text = { λ line. pool_line line.layout.now line.group.0 };

    fn write<S: Sink>(&self, out: &mut S) -> Result<(), Failed> {
        write_pieces(
            out,
            &[
                Text(b"pool group "),
                Number(self.group.0),
                Text(b" version 0 flush "),
                Number(u64::from(self.layout.flush)),
                Text(b" log "),
                Number(u64::from(self.layout.log)),
                Text(b"\n"),
            ],
        )
    }
}

/// The lines of the pool and of its vdevs.
pub(crate) fn write_opening<S: Sink>(
    out: &mut S,
    layout: &Layout,
    group: Group,
) -> Result<(), Failed>
    ensures { Prints (S.state out.old) (S.state out.new) (opening_text layout.now group.0) result }
{
    (
        PoolLine { layout, group },
        EachPlaced(layout.vdevs.as_slice()),
    )
        .write(out)
}
