ghost use Rattle.std.specs.Prelude.{◌≡◌, ℕ, ◌+◌, ◌≤◌, ◌&&◌, ◌==◌, fold, nat_le, IfSome, IfNone, map, find, unwrap_or, min, max};
ghost use Rattle.std.specs.List.{filter, reduce};
ghost use Rattle.zms_units.specs.Apart.{AreApartFrom};
ghost use Rattle.zms_units.specs.Segments.{covered};
ghost use Rattle.zms_units.specs.declared.segments.Seg.{Seg};

use crate::{FreeRuns, Seg, unit_count};
use std::marker::Model;

/// Free runs as a list that someone else keeps: rising, and with a unit between each and the next.
///
/// The plain form: each of its calls costs the length of the list.
#[derive(Drop)]
pub struct PlainRuns<'a> {
    runs: &'a [Seg],
    range: u32,
}

impl<'a> Model for PlainRuns<'a> {
    ghost use Rattle.std.specs.Prelude.{◌+◌};
    ghost use Rattle.zms_units.specs.Apart.{AreApartFrom, RunList};

    ghost Value = { RunList };

    ghost view = { λ r. record { range = r.range; runs = r.runs.now } };

    ghost invariant = { λ r. AreApartFrom 0 (r.range + 1) r.runs.now };
}

impl<'a> PlainRuns<'a> {
    /// The units that a list of runs covers, of the units 0 to `range - 1`.
    pub fn new(runs: &'a [Seg], range: u32) -> PlainRuns<'a>
        requires apart { AreApartFrom 0 (range + 1) runs.now }
        ensures range { result.range ≡ range }
        ensures runs { result.runs ≡ runs.now }
    {
        PlainRuns { runs, range }
    }
}

impl FreeRuns for PlainRuns<'_> {
    ghost free = { λ r. record { range = r.range; has = covered r.runs } };

    fn range(&self) -> u32 {
        self.range
    }

    fn units(&self) -> u32 {
        // Read for its type's bound, which the sum keeps.
        let _range = self.range;
        unit_count(self.runs)
    }

    fn largest(&self) -> u32 {
        longest_count(self.runs).unwrap_or(0)
    }

    fn first_from(&self, count: u32, at: u32) -> Option<Seg> {
        first_long(self.runs, count, at)
    }

    fn best(&self, count: u32) -> Option<Seg> {
        let shortest = shortest_count(self.runs, count)?;
        first_of(self.runs, shortest)
    }
}

/// The first run of at least `count` units that starts at or after `at`.
fn first_long(runs: &[Seg], count: u32, at: u32) -> Option<Seg>
    ensures { result ≡ find (λ (run : Seg). nat_le count run.count && nat_le at run.start) runs.now }
{
    runs.iter()
        .copied()
        .find(|run| run.count >= count && run.start >= at)
}

/// The first run of this length.
fn first_of(runs: &[Seg], count: u32) -> Option<Seg>
    ensures { result ≡ find (λ (run : Seg). run.count == count) runs.now }
{
    runs.iter().copied().find(|run| run.count == count)
}

/// The greatest length.
fn longest_count(runs: &[Seg]) -> Option<u32>
    ensures { result ≡ reduce max (map (λ (run : Seg). run.count) runs.now) }
{
    runs.iter().map(|run| run.count).max()
}

/// The least length of at least `count`.
fn shortest_count(runs: &[Seg], count: u32) -> Option<u32>
    ensures { result ≡ reduce min (filter (nat_le count) (map (λ (run : Seg). run.count) runs.now)) }
{
    runs.iter()
        .map(|run| run.count)
        .filter(|length| *length >= count)
        .min()
}
