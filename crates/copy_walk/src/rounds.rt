//! Where the last round goes on.
ghost use Rattle.std.specs.Prelude.{◌≡◌, ℕ, ◌+◌, ◌<◌, ◌≤◌, true, false, Some, length, slice_get, IfSome, IfNone};
ghost use Rattle.copy_walk.specs.Walks.{is_marked};
ghost use Rattle.copy_walk.specs.Walked.{AreNumbered, ArePassed, AreMarked, IsFirstIn, IsFirstOpen};

use crate::marks::Marks;
use crate::route::{Route, Stop};

/// The first metaslab without a mark, in the order of the stops and each by rising index, from a place on before which
/// each has one. Linear in the metaslabs that are passed.
#[tactic(auto, using(crate::proofs::Passing::found_here, crate::proofs::Passing::passed_stop, crate::proofs::Passing::found_none))]
pub(crate) fn first_open(
    route: &Route,
    marks: &Marks<1024>,
    round: usize,
    index: u16,
) -> (usize, u16)
    requires few { length route.now ≤ 16 }
    requires numbers { AreNumbered route.now (length marks.now) }
    requires passed { ArePassed route.now marks.now round index }
    ensures { IsFirstOpen route.now marks.now result.0 result.1 }
{
    let mut round = round;
    let mut index = index;
    while let Some(stop) = route.get(round) {
        if let Some(found) = first_in(stop, marks, index) {
            return (round, found);
        }
        round += 1;
        index = 0;
    }
    (round, index)
}

/// The first metaslab of a stop without a mark, from an index on.
#[tactic(auto, using(crate::proofs::Passing::marked_more))]
fn first_in(stop: Stop, marks: &Marks<1024>, from: u16) -> Option<u16>
    requires { stop.first + stop.metaslabs ≤ length marks.now }
    ensures found { IfSome result (IsFirstIn stop marks.now from) }
    ensures none { IfNone result (AreMarked stop marks.now from stop.metaslabs) }
{
    for index in from..stop.metaslabs {
        if !marks.has(stop.first as usize + index as usize) {
            return Some(index);
        }
    }
    None
}
