//! The inactive metaslabs of a vdev in the order in which they are looked at, after `mg_metaslab_tree`.
ghost use Rattle.std.specs.Prelude.{◌≡◌, ◌≤◌, true, not, ◌&&◌, ◌||◌, length, OnOk, OnErr, IfOk};
ghost use Rattle.class_model.specs.Picks.{IsBehind, IsFirstOf};
ghost use Rattle.class_core.specs.Rankings.{rank_of, has, is_same, from_of, HasBelow, IsFirstIn};

use ms_model::{Got, Start};
use std::alloc::{AllocError, Global};
use std::cmp::Reverse;
use std::collections::BTreeSet;
use std::ops::Bound;

/// Where a metaslab stands in its vdev's order: the higher weight first, and of one weight the lower index, after
/// `metaslab_compare`.
#[derive(Clone, Copy, Debug, PartialEq, Eq, PartialOrd, Ord)]
pub(crate) struct Rank {
    pub weight: Reverse<u64>,
    pub index: u16,
}

impl Rank {
    fn of(got: Got) -> Self
        ensures { result ≡ rank_of got }
    {
        Rank {
            weight: Reverse(got.weight),
            index: got.index,
        }
    }

    fn got(self) -> Got
        ensures { self ≡ rank_of result }
    {
        Got {
            index: self.index,
            weight: self.weight.0,
        }
    }
}

/// Metaslabs with their weights, each found, added and taken out in the logarithm of their number.
#[derive(Drop)]
pub(crate) struct Ranking {
    set: BTreeSet<Rank>,
}

impl Ranking {
    /// The metaslabs of these weights, by index. Costs the weights times the logarithm of their number, as sorting does.
    pub(crate) fn of(alloc: Global, weights: &[u64]) -> Result<Self, AllocError>
        requires { length weights.now ≤ 65536 }
        ensures { IfOk result (HasBelow (length weights.now) weights.now) }
    {
        let mut ranking = Ranking {
            set: BTreeSet::new(alloc),
        };
        for (index, weight) in weights.iter().enumerate() {
            ranking.put(Got {
                index: index as u16,
                weight: *weight,
            })?;
        }
        Ok(ranking)
    }

    pub(crate) fn has(&self, got: Got) -> bool
        ensures { result ≡ has self.now got }
    {
        self.set.contains(&Rank::of(got))
    }

    /// Adds a metaslab. The only error is want of memory, and changes nothing.
    pub(crate) fn put(&mut self, got: Got) -> Result<(), AllocError>
        ensures ok { OnOk result ((g : Got) → has self.new g ≡ (is_same got g || has self.old g)) }
        ensures err { OnErr result ((g : Got) → has self.new g ≡ has self.old g) }
    {
        self.set.insert(Rank::of(got))?;
        Ok(())
    }

    /// Takes a metaslab out, if it is there. Takes no memory.
    pub(crate) fn take(&mut self, got: Got)
        ensures { (g : Got) → has self.new g ≡ (not (is_same got g) && has self.old g) }
    {
        self.set.remove(&Rank::of(got));
    }

    /// Adds a metaslab in place of another, if that is there. The only error is want of memory, and changes nothing.
    pub(crate) fn shift(&mut self, from: Got, to: Got) -> Result<(), AllocError>
        ensures ok { OnOk result ((g : Got) → has self.new g ≡ (is_same to g || (not (is_same from g) && has self.old g))) }
        ensures err { OnErr result ((g : Got) → has self.new g ≡ has self.old g) }
    {
        self.put(to)?;
        if from.weight != to.weight || from.index != to.index {
            self.take(from);
        }
        Ok(())
    }

    /// The first metaslab, or the first behind the one that a start names.
    pub(crate) fn first_from(&self, start: Start) -> Option<Got>
        ensures { IsFirstOf (λ g. (has self.now g ≡ true) × IsBehind start g) result }
    {
        let rank = self.first_in(from_of(start))?;
        Some(rank.got())
    }

    fn first_in(&self, from: Bound<Rank>) -> Option<Rank>
        ensures { IsFirstIn self.now from result }
    {
        self.set.range((from, Bound::Unbounded)).next().copied()
    }
}

fn from_of(start: Start) -> Bound<Rank>
    ensures { result ≡ from_of start }
{
    match start {
        Start::Active | Start::Top => Bound::Unbounded,
        Start::After { weight, index } => Bound::Excluded(Rank::of(Got { index, weight })),
    }
}
