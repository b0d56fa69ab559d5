//! Calls at random on both forms of the trees.

ghost use Rattle.std.specs.Prelude.{◌<◌};

use crate::random::Random;
use crate::runs::is_segment;
use range_tree::RangeTrees;
use seg_trees::{PlainTrees, SegTrees, Steps, TREES};
use std::alloc::{AllocError, Global};
use std::sync::ledger::Ledger;
use zms_units::Seg;

/// For how many calls both forms have memory at first.
const ROOM: u32 = 20_000;

/// The same trees in both forms.
#[derive(Drop)]
struct Both {
    plain: PlainTrees,
    range: RangeTrees,
}

impl Both {
    fn new(alloc: Global) -> Result<Self, AllocError> {
        let mut plain = PlainTrees::new(alloc);
        plain.reserve(ROOM)?;
        let mut range = RangeTrees::new(alloc);
        range.reserve(ROOM)?;
        Ok(Both { plain, range })
    }

    /// Adds a segment, where none of it is there, and tells whether both meet the same unit of it.
    fn add<L: Ledger>(&mut self, tree: u8, seg: Seg, steps: &mut Steps<L>) -> bool
        requires { tree < TREES }
    {
        if !is_segment(seg) || self.plain.spare() == 0 || self.range.spare() == 0 {
            return true;
        }
        let plain = self.plain.meets(tree, seg, steps);
        let range = self.range.meets(tree, seg, steps);
        if plain.is_none() && range.is_none() {
            self.plain.add(tree, seg, steps);
            self.range.add(tree, seg, steps);
        }
        plain == range
    }

    /// Takes a segment away, where all of it is there, and tells whether it is so in both.
    fn remove<L: Ledger>(&mut self, tree: u8, seg: Seg, steps: &mut Steps<L>) -> bool
        requires { tree < TREES }
    {
        if !is_segment(seg) || self.plain.spare() == 0 || self.range.spare() == 0 {
            return true;
        }
        let plain = self.plain.covers(tree, seg, steps);
        let range = self.range.covers(tree, seg, steps);
        if plain && range {
            self.plain.remove(tree, seg, steps);
            self.range.remove(tree, seg, steps);
        }
        plain == range
    }

    /// Takes a part of a run away that is found from a place on.
    fn cut<L: Ledger>(&mut self, tree: u8, seg: Seg, steps: &mut Steps<L>) -> bool
        requires { tree < TREES }
    {
        let plain = self.plain.first_from(tree, 1, seg.start, steps);
        let range = self.range.first_from(tree, 1, seg.start, steps);
        match range {
            Some(run) => {
                let part = Seg {
                    start: run.start,
                    count: run.count.min(seg.count),
                };
                plain == range && self.remove(tree, part, steps)
            }
            None => plain == range,
        }
    }

    /// Whether both answer the same searches.
    fn search<L: Ledger>(&self, tree: u8, seg: Seg, steps: &mut Steps<L>) -> bool
        requires { tree < TREES }
    {
        let Seg { start, count } = seg;
        self.plain.first_from(tree, count, start, steps)
            == self.range.first_from(tree, count, start, steps)
            && self.plain.best(tree, count, steps) == self.range.best(tree, count, steps)
    }

    /// Whether both count alike.
    fn sizes(&self, tree: u8) -> bool
        requires { tree < TREES }
    {
        self.plain.nodes(tree) == self.range.nodes(tree)
            && self.plain.units(tree) == self.range.units(tree)
            && self.plain.largest(tree) == self.range.largest(tree)
            && self.plain.histogram(tree, 12) == self.range.histogram(tree, 12)
    }

    /// Exchanges two trees, or empties the second and moves the first there, or shares a segment out between them.
    fn exchange(&mut self, way: u32, first: u8, second: u8, seg: Seg)
        requires first { first < TREES }
        requires second { second < TREES }
    {
        if first == second || !is_segment(seg) {
            return;
        }
        if way == 0 {
            self.plain.swap(first, second);
            self.range.swap(first, second);
        } else if way == 1 {
            self.plain.clear(second);
            self.range.clear(second);
            self.plain.vacate(first, second);
            self.range.vacate(first, second);
        } else if self.plain.spare() >= seg.count && self.range.spare() >= seg.count {
            self.plain.xor_into(seg, first, second);
            self.range.xor_into(seg, first, second);
        }
    }

    /// One call, and whether both answer it alike.
    fn call<L: Ledger>(&mut self, random: &mut Random, steps: &mut Steps<L>) -> bool {
        let tree = random.tree();
        let seg = random.seg();
        match random.below(16) {
            0..7 => self.add(tree, seg, steps),
            7..10 => self.cut(tree, seg, steps),
            10 => self.remove(tree, seg, steps),
            11..14 => self.search(tree, seg, steps),
            14 => self.sizes(tree),
            _ => {
                let second = random.tree();
                let way = random.below(24).min(2);
                self.exchange(way, tree, second, seg);
                self.sizes(tree) && self.sizes(second)
            }
        }
    }
}

/// `CALLS SEED`: how many of so many calls both forms answer alike, and how many nodes they have in the end.
pub fn random_calls<L: Ledger>(
    alloc: Global,
    calls: u32,
    seed: u32,
    steps: &mut Steps<L>,
) -> Result<Option<String>, AllocError> {
    let mut random = Random::new(seed);
    let mut both = Both::new(alloc)?;
    let mut alike: u32 = 0;
    for _ in 0..calls {
        if both.call(&mut random, steps) {
            alike = alike.saturating_add(1);
        }
    }
    let mut agree = true;
    for tree in 0..TREES {
        agree = agree && both.sizes(tree);
    }
    let answer = format!(in alloc; "alike {alike} sizes {agree}")?;
    Ok(Some(answer))
}
