ghost use Rattle.std.specs.Prelude.{◌≡◌, ℕ, ◌≤◌, false};
ghost use Rattle.zms_units.specs.Limits.{MAX_UNITS};

use crate::stepping;
use crate::tree::Tree;
use seg_trees::SegTrees;
use zms_units::{FreeRuns, Seg};

/// The units of a metaslab that may be handed out, as the fit asks for them.
#[derive(Drop)]
pub(crate) struct FreeSpace<'a, R: SegTrees> {
    trees: &'a R,
    range: u32,
    ghost most: { range ≤ MAX_UNITS },
    ghost within: { (u : ℕ) → range ≤ u → R.set trees.now 0 u ≡ false },
}

impl<'a, R: SegTrees> FreeSpace<'a, R> {
    /// What may be handed out of so many units.
    pub(crate) fn new(trees: &'a R, range: u32) -> Self
        requires most { range ≤ MAX_UNITS }
        requires within { (u : ℕ) → range ≤ u → R.set trees.now 0 u ≡ false }
        ensures range { result.range ≡ range }
        ensures trees { result.trees.now ≡ trees.now }
    {
        FreeSpace { trees, range }
    }
}

impl<'a, R: SegTrees> FreeRuns for FreeSpace<'a, R> {
    ghost free = { λ s. record { range = s.range; has = R.set s.trees.now 0 } };

    fn range(&self) -> u32 {
        self.range
    }

    fn units(&self) -> u32 {
        stepping::units(self.trees, Tree::Allocatable)
    }

    fn largest(&self) -> u32 {
        self.trees.largest(Tree::Allocatable.number())
    }

    fn first_from(&self, count: u32, at: u32) -> Option<Seg> {
        stepping::first_from(self.trees, Tree::Allocatable, count, at)
    }

    fn best(&self, count: u32) -> Option<Seg> {
        stepping::best(self.trees, Tree::Allocatable, count)
    }
}
