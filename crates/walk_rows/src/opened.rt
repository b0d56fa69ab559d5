//! A walk with the layout over which it goes.
ghost use Rattle.std.specs.Prelude.{◌≡◌, ◌<◌, ◌↔◌, true, length, IsTrue, MatchOption, ⊤};
ghost use Rattle.vdev_map.specs.Numbers.{row_at};
ghost use Rattle.ms_model.specs.declared.notes.Got.{Got};

use copy_walk::{Next, Walk};
use ms_model::Got;
use std::alloc::Global;
use std::marker::Model;
use vdev_map::{Layout, check};
use zms_units::{Class, Copies, VdevRow};

/// A walk and its layout. Contracts see the vdevs.
#[derive(Drop)]
pub struct Opened {
    walk: Walk,
    layout: Layout,
}

impl Model for Opened {
    ghost use Rattle.std.specs.Prelude.{◌≡◌, List};
    ghost use Rattle.zms_units.specs.declared.places.VdevRow.{VdevRow};

    ghost Value = { List VdevRow };

    ghost view = { λ o. o.layout.vdevs };

    ghost invariant = { λ o. o.walk.plan.vdevs ≡ o.layout.vdevs };
}

fn is_same(one: Class, other: Class) -> bool
    ensures { IsTrue result ↔ (one ≡ other) }
{
    one == other
}

/// Is this the number of a vdev of the class?
fn has_class(rows: &[VdevRow], class: Class, vdev: u8) -> bool
    ensures { result ≡ true → (vdev < length rows.now) × ((row_at rows.now vdev).class ≡ class) }
{
    (vdev as usize) < rows.len() && is_same(rows[vdev as usize].class, class)
}

/// May a pick on this vdev give that?
fn fits(rows: &[VdevRow], vdev: u8, got: Option<Got>) -> bool
    ensures { result ≡ true → MatchOption got ⊤ (λ (g : Got). g.index < (row_at rows.now vdev).metaslabs) }
{
    match got {
        Some(got) => { (vdev as usize) < rows.len() && got.index < rows[vdev as usize].metaslabs }
        None => true,
    }
}

impl Opened {
    /// None where the layout is past a limit, or the rotor is at no vdev of the class.
    pub fn new(
        alloc: Global,
        class: Class,
        layout: Layout,
        rotor: u8,
        earlier: &Copies,
    ) -> Option<Opened> {
        if let Err(_) = check(&layout) {
            return None;
        }
        if !has_class(layout.vdevs.as_slice(), class, rotor) {
            return None;
        }
        let walk = Walk::new(alloc, &layout, class, rotor, earlier);
        Some(Opened { walk, layout })
    }

    pub fn next(&self) -> Next {
        self.walk.next()
    }

    pub fn looked(&self) -> u64 {
        self.walk.looked()
    }

    /// False where no such pick was asked for; so in what follows.
    pub fn picked(&mut self, got: Option<Got>, was_active: bool) -> bool {
        match self.walk.next() {
            Next::Pick { vdev, .. } if fits(self.layout.vdevs.as_slice(), vdev, got) => {
                self.walk.picked(got, was_active);
                true
            }
            _ => false,
        }
    }

    pub fn failed(&mut self) -> bool {
        match self.walk.next() {
            Next::Look { .. } => {
                self.walk.failed();
                true
            }
            _ => false,
        }
    }
}
