ghost use Rattle.std.specs.Prelude.{◌≡◌, ◌<◌, [], ◌∷◌, ◌++◌, length};

use crate::{Class, Group};
use smallvec::SmallVec;
use std::alloc::Global;
use std::marker::Model;

/// Where one copy of a block lies, after OpenZFS's DVA: the class of the vdev that was used, the vdev, and the offset
/// and size in bytes, both in whole units, the offset from the vdev's start.
#[derive(Clone, Copy, Debug, Default, PartialEq, Eq)]
pub struct Dva {
    pub class: Class,
    pub vdev: u8,
    pub offset: u64,
    pub size: u64,
}

/// Up to three copies of a block, in the order in which they were placed. They lie in the value and take no memory.
#[derive(Debug, Drop)]
pub struct Copies {
    dvas: SmallVec<Dva, 3>,
}

impl Model for Copies {
    ghost use Rattle.std.specs.Prelude.{◌≤◌, List};
    ghost use Rattle.zms_units.specs.declared.blocks.Dva.{Dva};

    ghost Value = { List Dva };

    ghost view = { λ c. c.dvas.items };

    ghost invariant = { λ c. 3 ≤ c.dvas.capacity };
}

impl Copies {
    pub fn new(alloc: Global) -> Self
        ensures { result ≡ [] }
    {
        Copies {
            dvas: SmallVec::new(alloc),
        }
    }

    /// Adds a copy at the end.
    pub fn push(&mut self, dva: Dva)
        requires { length self.old < 3 }
        ensures { self.new ≡ self.old ++ dva ∷ [] }
    {
        self.dvas.push_reserved(dva);
    }

    pub fn as_slice(&self) -> &[Dva]
        ensures { result.now ≡ self.now }
    {
        self.dvas.as_slice()
    }

    pub fn len(&self) -> usize
        ensures { result ≡ length self.now }
    {
        self.dvas.len()
    }
}

/// A block as it was granted: the group of the grant, and its copies.
#[derive(Debug, Drop)]
pub struct Block {
    pub group: Group,
    pub copies: Copies,
}
