//! The metaslabs of a class on one vdev, after `metaslab_group_t`.
ghost use Rattle.std.specs.Prelude.{◌≡◌, ◌<◌, ◌≤◌, Some, None, map, length, replicate, slice_index, slice_set, OnOk, OnErr, IfOk};
ghost use Rattle.class_model.specs.Replay.{dropped};
ghost use Rattle.class_core.specs.Groups.{active_in, Stands, IsNext, IsPick, Takes};

use crate::ranking::Ranking;
use ms_model::{Got, Start};
use ms_weight::passes_over;
use std::alloc::{AllocError, Global};
use std::marker::Model;

/// The pairs of one of four allocators and a kind of copy.
pub(crate) const PAIRS: usize = 8;

/// The weight of each metaslab, the active one of each pair, and the inactive ones in the order in which they are looked at.
#[derive(Drop)]
pub(crate) struct MetaslabGroup {
    vdev: u8,
    weights: Vec<u64>,
    active: [Option<u16>; PAIRS],
    ranking: Ranking,
}

impl Model for MetaslabGroup {
    ghost use Rattle.class_core.specs.Groups.{GroupState};

    ghost Value = { GroupState };

    ghost use Rattle.class_core.specs.GroupInside.{group_state, IsGroup};

    ghost view = { group_state };

    ghost invariant = { IsGroup };
}

impl MetaslabGroup {
    /// The metaslabs of a vdev with these weights, none of which is active.
    pub(crate) fn new(alloc: Global, vdev: u8, weights: &[u64]) -> Result<Self, AllocError>
        requires { length weights.now ≤ 65536 }
        ensures vdev { IfOk result (λ g. g.vdev ≡ vdev) }
        ensures weights { IfOk result (λ g. g.weights ≡ weights.now) }
        ensures active { IfOk result (λ g. g.active ≡ replicate 8 None) }
    {
        Ok(MetaslabGroup {
            vdev,
            weights: Vec::from_slice(alloc, weights)?,
            active: [None; PAIRS],
            ranking: Ranking::of(alloc, weights)?,
        })
    }

    pub(crate) fn vdev(&self) -> u8
        ensures { result ≡ self.now.vdev }
    {
        self.vdev
    }

    /// The active metaslab of a pair.
    pub(crate) fn active(&self, pair: usize) -> Option<u16>
        requires { pair < PAIRS }
        ensures { result ≡ active_in self.now pair }
    {
        self.active[pair]
    }

    /// A metaslab with its weight.
    fn got(&self, index: u16) -> Got
        requires { index < length self.now.weights }
        ensures index { result.index ≡ index }
        ensures weight { result.weight ≡ slice_index self.now.weights index }
    {
        Got {
            index,
            weight: self.weights[index as usize],
        }
    }

    /// The metaslab that a pair looks at next, which is its active one from now on: the active one, or the first that is
    /// not passed over. As weights fall in the order, the first alone is tried. Costs the logarithm of the metaslabs.
    pub(crate) fn pick(
        &mut self,
        pair: usize,
        bytes: u64,
        start: Start,
    ) -> Result<Option<Got>, AllocError>
        requires { pair < PAIRS }
        ensures answer { IfOk result (IsPick self.old pair bytes start) }
        ensures takes { IfOk result (Takes self.old self.new pair) }
        ensures err { OnErr result (self.new ≡ self.old) }
    {
        if let (Start::Active, Some(index)) = (start, self.active[pair]) {
            return Ok(Some(self.got(index)));
        }
        let Some(got) = self.next(bytes, start) else {
            return Ok(None);
        };
        self.vacate(pair)?;
        self.occupy(pair, got);
        Ok(Some(got))
    }

    /// The first inactive metaslab that is not passed over, from the start on.
    fn next(&self, bytes: u64, start: Start) -> Option<Got>
        ensures { IsNext self.now bytes start result }
    {
        let got = self.ranking.first_from(start)?;
        if passes_over(got.weight, bytes) {
            None
        } else {
            Some(got)
        }
    }

    /// Makes the active metaslab of a pair inactive.
    fn vacate(&mut self, pair: usize) -> Result<(), AllocError>
        requires { pair < PAIRS }
        ensures ok { OnOk result (self.new ≡ record self.old { active = slice_set self.old.active pair None }) }
        ensures err { OnErr result (self.new ≡ self.old) }
    {
        if let Some(former) = self.active[pair] {
            let former = self.got(former);
            self.ranking.put(former)?;
        }
        self.active[pair] = None;
        Ok(())
    }

    /// Makes an inactive metaslab that of a pair which has none.
    fn occupy(&mut self, pair: usize, got: Got)
        requires pair { pair < PAIRS }
        requires none { active_in self.old pair ≡ None }
        requires stands { Stands self.old got }
        ensures { self.new ≡ record self.old { active = slice_set self.old.active pair (Some got.index) } }
    {
        self.ranking.take(got);
        self.active[pair] = Some(got.index);
    }

    /// Posts the weight of a metaslab, and leaves it active or not. Costs the logarithm of the metaslabs.
    pub(crate) fn weigh(&mut self, index: u16, weight: u64) -> Result<(), AllocError>
        requires { index < length self.old.weights }
        ensures ok { OnOk result (self.new ≡ record self.old { weights = slice_set self.old.weights index weight }) }
        ensures err { OnErr result (self.new ≡ self.old) }
    {
        let former = self.got(index);
        if self.ranking.has(former) {
            self.ranking.shift(former, Got { index, weight })?;
        }
        self.weights[index as usize] = weight;
        Ok(())
    }

    /// Posts the weight of a metaslab and makes it inactive. Costs the logarithm of the metaslabs.
    pub(crate) fn miss(&mut self, index: u16, weight: u64) -> Result<(), AllocError>
        requires { index < length self.old.weights }
        ensures ok { OnOk result (self.new ≡ record self.old { weights = slice_set self.old.weights index weight; active = map (dropped index) self.old.active }) }
        ensures err { OnErr result (self.new ≡ self.old) }
    {
        let former = self.got(index);
        self.ranking.shift(former, Got { index, weight })?;
        self.weights[index as usize] = weight;
        drop_active(&mut self.active, index);
        Ok(())
    }
}

/// Makes a metaslab inactive at each place.
fn drop_active(active: &mut [Option<u16>], index: u16)
    ensures { active.new ≡ map (dropped index) active.old }
{
    for slot in active.iter_mut() {
        *slot = dropped(index, *slot);
    }
}

fn dropped(index: u16, slot: Option<u16>) -> Option<u16>
    ensures { result ≡ dropped index slot }
{
    match slot {
        Some(other) if index == other => None,
        _ => slot,
    }
}
