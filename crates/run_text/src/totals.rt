//! The lines of the classes and of the pool, in bytes, and of the last group.

ghost use Rattle.std.specs.Prelude.{◌≡◌, ◌++◌, codes, length};
ghost use Rattle.std.specs.List.{list_any};
ghost use Rattle.zms_dev.specs.Prints.{Prints};
ghost use Rattle.zms_units.specs.Classes.{class_word};
ghost use Rattle.zms_units.specs.declared.places.VdevRow.{VdevRow};
ghost use Rattle.trace_text.specs.Pieces.{text_if};
ghost use Rattle.vdev_map.specs.Limits.{AreVdevs};
ghost use Rattle.vdev_map.specs.Numbers.{metaslabs_in};
ghost use Rattle.run_text.specs.Tallies.{by_vdev, same_class};
ghost use Rattle.run_text.specs.Texts.{tally_text, class_line, sums_text, totals_text};

use crate::metaslabs::write_metaslabs;
use crate::tallies::{Tally, class_tally, is_same, pool_tally};
use ms_core::Counts;
use trace_text::Piece::{Number, Text};
use trace_text::Printed;
use zms_dev::{Failed, Sink};
use zms_units::{Class, Group, VdevRow};

/// How much is of each share, at the end of a line.
impl Printed for Tally {
    ghost text = { tally_text };

    fn write<S: Sink>(&self, out: &mut S) -> Result<(), Failed> {
        (
            Text(b" live "),
            Number(self.live),
            Text(b" deferred "),
            Number(self.deferred),
            Text(b" vacant "),
            (Number(self.vacant), Text(b"\n")),
        )
            .write(out)
    }
}

/// A class with its sums.
#[derive(Clone, Copy)]
struct ClassSums {
    class: Class,
    sums: Tally,
}

impl Printed for ClassSums {
    ghost text = { λ c. codes "class " ++ (class_word c.class ++ tally_text c.sums) };

    fn write<S: Sink>(&self, out: &mut S) -> Result<(), Failed> {
        (
            Text(b"class "),
            Text(self.class.word().as_bytes()),
            self.sums,
        )
            .write(out)
    }
}

fn has_class(class: Class, vdevs: &[VdevRow]) -> bool
    ensures { result ≡ list_any (λ (row : VdevRow). same_class class row.class) vdevs.now }
{
    vdevs.iter().any(|row| is_same(class, row.class))
}

/// The sums of a class, where some vdev is of it.
fn class_sums(class: Class, vdevs: &[VdevRow], counts: &[Counts]) -> Option<ClassSums>
    requires vdevs { AreVdevs vdevs.now }
    requires one_each { length counts.now ≡ metaslabs_in vdevs.now }
    ensures { text_if ⟦<ClassSums as Printed>⟧.text result ≡ class_line class (by_vdev vdevs.now counts.now) }
{
    if has_class(class, vdevs) {
        let sums = class_tally(class, vdevs, counts);
        Some(ClassSums { class, sums })
    } else {
        None
    }
}

/// The lines of the classes, of the pool and of the last group.
fn write_sums<S: Sink>(
    out: &mut S,
    vdevs: &[VdevRow],
    counts: &[Counts],
    group: Group,
) -> Result<(), Failed>
    requires vdevs { AreVdevs vdevs.now }
    requires one_each { length counts.now ≡ metaslabs_in vdevs.now }
    ensures { Prints (S.state out.old) (S.state out.new) (sums_text (by_vdev vdevs.now counts.now) group) result }
{
    (
        (
            class_sums(Class::Normal, vdevs, counts),
            class_sums(Class::Log, vdevs, counts),
            class_sums(Class::Special, vdevs, counts),
            class_sums(Class::Dedup, vdevs, counts),
        ),
        (Text(b"pool"), pool_tally(vdevs, counts)),
        (Text(b"group "), Number(group.0), Text(b"\n")),
    )
        .write(out)
}

/// The totals of a run.
pub(crate) fn write_totals<S: Sink>(
    out: &mut S,
    vdevs: &[VdevRow],
    counts: &[Counts],
    group: Group,
) -> Result<(), Failed>
    requires vdevs { AreVdevs vdevs.now }
    requires one_each { length counts.now ≡ metaslabs_in vdevs.now }
    ensures { Prints (S.state out.old) (S.state out.new) (totals_text (by_vdev vdevs.now counts.now) group) result }
{
    write_metaslabs(out, vdevs, counts)?;
    write_sums(out, vdevs, counts, group)
}
