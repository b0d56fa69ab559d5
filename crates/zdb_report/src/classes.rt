//! The sums of classes and of the pool, from the rows of the table.

ghost use Rattle.std.specs.Prelude.{◌≡◌, ◌+◌, ◌*◌, ◌^◌, ◌<◌, ◌≤◌, ◌++◌, List, codes, length};
ghost use Rattle.std.specs.List.{list_any, sum_by};
ghost use Rattle.zms_dev.specs.Prints.{Prints};
ghost use Rattle.zms_units.specs.Classes.{class_word};
ghost use Rattle.zms_units.specs.declared.places.VdevRow.{VdevRow};
ghost use Rattle.vdev_map.specs.Numbers.{metaslabs_in};
ghost use Rattle.trace_text.specs.Pieces.{text_if};
ghost use Rattle.zdb_report.specs.Stats.{IsRow, AreRows};
ghost use Rattle.zdb_report.specs.Texts.{same_class, is_asked, if_asked, live_bytes, vacant_bytes, counts_text, class_line, closing_text};
ghost use Rattle.zdb_report.specs.declared.stats.MetaslabStats.{MetaslabStats};

use crate::lines::Sums;
use meta_store::MetaStore;
use trace_text::Piece::Text;
use trace_text::Printed;
use vdev_map::id_of;
use zms_dev::{Disk, Failed, Sink};
use zms_units::{Class, VdevRow, bytes_of};

/// How many metaslabs vdevs have.
pub(crate) fn metaslab_count(vdevs: &[VdevRow]) -> u32
    requires { length vdevs.now ≤ 16 }
    ensures { result ≡ metaslabs_in vdevs.now }
{
    let mut count = 0;
    for row in vdevs {
        count += u32::from(row.metaslabs);
    }
    count
}

fn is_same(one: Class, other: Class) -> bool
    ensures { result ≡ same_class one other }
{
    matches!(
        (one, other),
        (Class::Normal, Class::Normal)
            | (Class::Log, Class::Log)
            | (Class::Special, Class::Special)
            | (Class::Dedup, Class::Dedup)
    )
}

fn is_wanted(asked: Option<Class>, class: Class) -> bool
    ensures { result ≡ is_asked asked class }
{
    match asked {
        None => true,
        Some(asked) => is_same(asked, class),
    }
}

fn has_class(vdevs: &[VdevRow], class: Class) -> bool
    ensures { result ≡ list_any (λ (row : VdevRow). same_class class row.class) vdevs.now }
{
    vdevs.iter().any(|row| is_same(class, row.class))
}

/// The bytes of the metaslab of a number, where it is of the class that is asked for.
fn bytes_at<D: Disk>(store: &MetaStore<D>, number: u32, asked: Option<Class>) -> Sums
    requires number { number < metaslabs_in store.now.layout.vdevs }
    ensures live { (s : MetaslabStats) → IsRow store.now.table number s → result.live ≡ if_asked asked live_bytes s }
    ensures vacant { (s : MetaslabStats) → IsRow store.now.table number s → result.vacant ≡ if_asked asked vacant_bytes s }
    ensures few { (result.live ≤ 2 ^ 29) × (result.vacant ≤ 2 ^ 29) }
{
    let vdevs = store.layout().vdevs.as_slice();
    let id = id_of(vdevs, number);
    let vdev = vdevs[id.vdev as usize];
    if !is_wanted(asked, vdev.class) {
        return Sums { live: 0, vacant: 0 };
    }
    let held = store.row(id).held as u32;
    Sums {
        live: bytes_of(held, vdev.ashift),
        vacant: bytes_of(vdev.units - held, vdev.ashift),
    }
}

/// The sums of the metaslabs of a class, or of all. Linear in the metaslabs.
fn sums_of<D: Disk>(store: &MetaStore<D>, asked: Option<Class>) -> Sums
    ensures live { (stats : List MetaslabStats) → AreRows store.now.table stats → result.live ≡ sum_by (if_asked asked live_bytes) stats }
    ensures vacant { (stats : List MetaslabStats) → AreRows store.now.table stats → result.vacant ≡ sum_by (if_asked asked vacant_bytes) stats }
{
    let count = metaslab_count(store.layout().vdevs.as_slice());
    let mut sums = Sums { live: 0, vacant: 0 };
    for number in 0..count {
        let here = bytes_at(store, number, asked);
        sums = Sums {
            live: sums.live + here.live,
            vacant: sums.vacant + here.vacant,
        };
    }
    sums
}

/// A class with its sums.
#[derive(Clone, Copy)]
struct ClassSums {
    class: Class,
    sums: Sums,
}

impl Printed for ClassSums {
    ghost text = { λ c. codes "class " ++ (class_word c.class ++ counts_text c.sums.live c.sums.vacant) };

    fn write<S: Sink>(&self, out: &mut S) -> Result<(), Failed> {
        (
            Text(b"class "),
            Text(self.class.word().as_bytes()),
            self.sums,
        )
            .write(out)
    }
}

/// The sums of a class, where some vdev is of the class.
fn class_sums<D: Disk>(store: &MetaStore<D>, class: Class) -> Option<ClassSums>
    ensures { (stats : List MetaslabStats) → AreRows store.now.table stats → text_if ⟦<ClassSums as Printed>⟧.text result ≡ class_line store.now.layout.vdevs stats class }
{
    if has_class(store.layout().vdevs.as_slice(), class) {
        let sums = sums_of(store, Some(class));
        Some(ClassSums { class, sums })
    } else {
        None
    }
}

/// The lines of the classes and of the pool.
pub(crate) fn write_closing<S: Sink, D: Disk>(
    out: &mut S,
    store: &MetaStore<D>,
) -> Result<(), Failed>
    ensures { (stats : List MetaslabStats) → AreRows store.now.table stats → Prints (S.state out.old) (S.state out.new) (closing_text store.now.layout.vdevs stats) result }
{
    (
        class_sums(store, Class::Normal),
        class_sums(store, Class::Log),
        class_sums(store, Class::Special),
        class_sums(store, Class::Dedup),
        Text(b"pool"),
        sums_of(store, None),
    )
        .write(out)
}
