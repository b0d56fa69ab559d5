ghost use Rattle.std.specs.Prelude.{◌≡◌, ◌<◌};
ghost use Rattle.ms_core.specs.Mirrors.{number_of};

use seg_trees::TREES;
use zms_units::Group;

/// A tree of a metaslab, by what it holds. Those of the groups go round: four groups in a row have the four trees of what
/// they gained and the four of what they gave back, and two in a row the two of what is deferred.
#[derive(Clone, Copy, Debug, PartialEq, Eq)]
pub(crate) enum Tree {
    /// What may be handed out: `ms_allocatable`.
    Allocatable,
    /// What a group gained, until it is collected: `ms_allocating`.
    Allocating(Group),
    /// What a group gave back, until it is settled: `ms_freeing` and `ms_freed`.
    Freeing(Group),
    /// What is vacant from this group's settle on: `ms_defer`.
    Deferred(Group),
}

/// What a group does with units: it gains them, or gives them back.
#[derive(Clone, Copy, Debug, PartialEq, Eq)]
pub(crate) enum Change {
    Gained,
    Given,
}

impl Tree {
    /// Its number among the thirteen.
    pub(crate) fn number(self) -> u8
        ensures is { result ≡ number_of self }
        ensures few { result < TREES }
    {
        match self {
            Tree::Allocatable => 0,
            Tree::Allocating(group) => 1 + (group.0 % 4) as u8,
            Tree::Freeing(group) => 5 + (group.0 % 4) as u8,
            Tree::Deferred(group) => 9 + (group.0 % 2) as u8,
        }
    }
}
