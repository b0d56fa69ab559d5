//! The order in which the vdevs of a class are taken for a copy.
ghost use Rattle.std.specs.Prelude.{◌≡◌, ℕ, ◌+◌, ◌<◌, ◌≤◌, ◌⊎◌, ◌==◌, ◌↔◌, if◌then◌else◌, IsTrue, [], ◌∷◌, ◌++◌, length, slice_get};
ghost use Rattle.std.specs.List.{list_any};
ghost use Rattle.vdev_map.specs.Limits.{AreVdevs};
ghost use Rattle.vdev_map.specs.Numbers.{row_at};
ghost use Rattle.zms_units.specs.declared.blocks.Dva.{Dva};
ghost use Rattle.copy_walk.specs.Plans.{plan_of, IsPlan};
ghost use Rattle.copy_walk.specs.Routes.{stop_of, IsTaken, HasStops, IsRoute};

use smallvec::SmallVec;
use std::alloc::Global;
use std::marker::Model;
use vdev_map::number_of;
use zms_units::{Class, Copies, Dva, MsId, VdevRow};

/// A vdev with the number in the pool of its first metaslab, and how many metaslabs it has.
#[derive(Clone, Copy, Debug, Default, PartialEq, Eq)]
pub(crate) struct Stop {
    pub vdev: u8,
    pub first: u32,
    pub metaslabs: u16,
}

/// Up to 16 stops, one after the other. They lie in the value and take no memory.
#[derive(Drop)]
pub(crate) struct Route {
    stops: SmallVec<Stop, 16>,
}

impl Model for Route {
    ghost use Rattle.std.specs.Prelude.{◌≤◌, List};
    ghost use Rattle.copy_walk.specs.declared.route.Stop.{Stop};

    ghost Value = { List Stop };

    ghost view = { λ r. r.stops.items };

    ghost invariant = { λ r. 16 ≤ r.stops.capacity };
}

impl Route {
    fn new(alloc: Global) -> Self
        ensures { result ≡ [] }
    {
        Route {
            stops: SmallVec::new(alloc),
        }
    }

    /// Adds a stop behind the last, if it is wanted.
    fn add(&mut self, stop: Stop, wanted: bool)
        requires { IsTrue wanted → length self.old < 16 }
        ensures { self.new ≡ (if wanted then self.old ++ stop ∷ [] else self.old) }
    {
        if wanted {
            self.stops.push_reserved(stop);
        }
    }

    /// The stop at a place, and none behind the last.
    pub(crate) fn get(&self, place: usize) -> Option<Stop>
        ensures { result ≡ slice_get self.now place }
    {
        self.stops.as_slice().get(place).copied()
    }
}

/// The vdevs of a class in the order in which a copy takes them: from the rotor's on, going round, first those that hold no
/// earlier copy. Linear in the vdevs, and for each of the class in those before it.
pub(crate) fn route_of(
    alloc: Global,
    rows: &[VdevRow],
    class: Class,
    rotor: u8,
    earlier: &Copies,
) -> Route
    requires { IsPlan (plan_of rows.now class rotor earlier.now) }
    ensures { IsRoute (plan_of rows.now class rotor earlier.now) result }
{
    let mut route = Route::new(alloc);
    let copies = earlier.as_slice();
    add_stops(&mut route, rows, class, rotor, copies, false);
    add_stops(&mut route, rows, class, rotor, copies, true);
    route
}

/// Adds the vdevs of a class that hold an earlier copy, or those that hold none, from the rotor's on.
fn add_stops(
    route: &mut Route,
    rows: &[VdevRow],
    class: Class,
    rotor: u8,
    earlier: &[Dva],
    holding: bool,
)
    requires plan { IsPlan (plan_of rows.now class rotor earlier.now) }
    requires before { HasStops (plan_of rows.now class rotor earlier.now) (IsTaken (plan_of rows.now class rotor earlier.now) holding 0) route.old }
    ensures { HasStops (plan_of rows.now class rotor earlier.now) (IsTaken (plan_of rows.now class rotor earlier.now) holding (length rows.now)) route.new }
{
    for further in 0..rows.len() {
        let vdev = vdev_at(rows.len(), rotor as usize, further) as u8;
        let wanted = is_wanted(rows, class, earlier, holding, vdev);
        route.add(stop_at(rows, vdev), wanted);
    }
}

/// Whether a vdev is of a class and holds an earlier copy, or holds none.
fn is_wanted(rows: &[VdevRow], class: Class, earlier: &[Dva], holding: bool, vdev: u8) -> bool
    requires { vdev < length rows.now }
    ensures { IsTrue result ↔ (((row_at rows.now vdev).class ≡ class) × (list_any (λ (dva : Dva). dva.vdev == vdev) earlier.now ≡ holding)) }
{
    rows[vdev as usize].class == class && holds(earlier, vdev) == holding
}

/// The vdev so many further on than the rotor's, going round.
fn vdev_at(count: usize, rotor: usize, further: usize) -> usize
    requires rotor { rotor < count }
    requires further { further < count }
    requires count { count ≤ 16 }
    ensures below { result < count }
    ensures at { (result ≡ rotor + further) ⊎ (result + count ≡ rotor + further) }
{
    let vdev = rotor + further;
    if vdev < count { vdev } else { vdev - count }
}

/// Whether a vdev holds one of these copies.
fn holds(copies: &[Dva], vdev: u8) -> bool
    ensures { result ≡ list_any (λ (dva : Dva). dva.vdev == vdev) copies.now }
{
    copies.iter().any(|dva| dva.vdev == vdev)
}

fn stop_at(rows: &[VdevRow], vdev: u8) -> Stop
    requires vdev { vdev < length rows.now }
    requires rows { AreVdevs rows.now }
    ensures { result ≡ stop_of rows.now vdev }
{
    Stop {
        vdev,
        first: number_of(rows, MsId { vdev, index: 0 }),
        metaslabs: rows[vdev as usize].metaslabs,
    }
}
