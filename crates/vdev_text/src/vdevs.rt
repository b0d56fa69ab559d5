//! The vdevs of a text.
ghost use Rattle.std.specs.Prelude.{◌≡◌, ◌<◌, ◌≤◌, [], ◌∷◌, ◌++◌, length};

use std::marker::Model;
use zms_units::{Class, VdevRow};

/// How many vdevs a pool may have.
pub(crate) const MAX_VDEVS: usize = 16;

/// What an unused place holds.
const BLANK: VdevRow = VdevRow {
    class: Class::Normal,
    ashift: 0,
    units: 0,
    metaslabs: 0,
};

/// Up to 16 vdevs. They lie in the value and take no memory.
#[derive(Debug, Drop)]
pub struct Vdevs {
    rows: [VdevRow; 16],
    count: usize,
}

impl Model for Vdevs {
    ghost use Rattle.std.specs.Prelude.{◌≡◌, ◌≤◌, List, length, take};
    ghost use Rattle.zms_units.specs.declared.places.VdevRow.{VdevRow};

    ghost Value = { List VdevRow };

    ghost view = { λ v. take v.count v.rows };

    ghost invariant = { λ v. (v.count ≤ 16) × (length v.rows ≡ 16) };
}

impl Vdevs {
    pub(crate) fn new() -> Self
        ensures { result ≡ [] }
    {
        Vdevs {
            rows: [BLANK; 16],
            count: 0,
        }
    }

    /// Adds a vdev behind the last.
    pub(crate) fn push(&mut self, row: VdevRow)
        requires { length self.old < 16 }
        ensures { self.new ≡ self.old ++ row ∷ [] }
    {
        let count = self.count;
        self.rows[count] = row;
        self.count = count + 1;
    }

    pub fn as_slice(&self) -> &[VdevRow]
        ensures { result.now ≡ self.now }
    {
        &self.rows[..self.count]
    }

    pub(crate) fn len(&self) -> usize
        ensures count { result ≡ length self.now }
        ensures few { result ≤ 16 }
    {
        self.count
    }
}
