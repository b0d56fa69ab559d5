ghost use Rattle.std.specs.Prelude.{◌≡◌, ◌<◌, length};
ghost use Rattle.class_group.specs.Turns.{place_of, place_for};

use class_core::ClassCell;
use std::marker::Model;
use std::snapshot::Snapshot;
use turn_cell::{Pass, Turn};
use zms_units::{Class, Items, VdevRow};

/// The classes of a pool, in the order of `Class`, each under its turn. Lanes share them.
#[derive(Drop)]
pub struct Classes {
    pub(crate) vdevs: Items<VdevRow>,
    pub(crate) weights: Snapshot<Items<u64>>,
    pub cells: Vec<Turn<ClassCell>>,
}

impl Model for Classes {
    ghost use Rattle.class_group.specs.Turns.{ClassTurns, turns_in, AreClassesInside};

    ghost Value = { ClassTurns };

    ghost view = { turns_in };

    ghost invariant = { AreClassesInside };
}

/// What one holder knows of the classes, one pass a class. Contracts see it as the list of its passes.
#[derive(Drop)]
pub struct ClassPasses {
    pub cells: Vec<Pass<ClassCell>>,
}

impl Model for ClassPasses {
    ghost use Rattle.std.specs.Prelude.{List};
    ghost use Rattle.class_group.specs.Passes.{ClassKnown};

    ghost Value = { List ClassKnown };

    ghost view = { λ p. p.cells.items };
}

/// Where a class stands among the four.
fn place_of(class: Class) -> usize
    ensures place { result ≡ place_of class }
    ensures within { result < 4 }
{
    match class {
        Class::Normal => 0,
        Class::Log => 1,
        Class::Special => 2,
        Class::Dedup => 3,
    }
}

impl Classes {
    /// The place of a class.
    pub(crate) fn place_of(&self, class: Class) -> usize
        ensures place { result ≡ place_of class }
        ensures within { result < length self.now.cells }
    {
        // There is a cell for each class.
        let _ = &self.cells;
        place_of(class)
    }

    /// The place of a vdev's class.
    pub(crate) fn place_for(&self, vdev: u8) -> usize
        requires { vdev < length self.now.vdevs }
        ensures place { result ≡ place_for self.now.vdevs vdev }
        ensures within { result < length self.now.cells }
    {
        place_of(self.vdevs.as_slice()[vdev as usize].class)
    }
}
