//! A walk and its calls.
ghost use Rattle.std.specs.Prelude.{◌≡◌, ◌+◌, ◌<◌, ◌≤◌, [], List, length};
ghost use Rattle.ms_model.specs.declared.notes.Start.TheVariants.{Active};
ghost use Rattle.copy_walk.specs.Plans.{plan_of, IsPlan};
ghost use Rattle.copy_walk.specs.Steps.{Step, start_behind, start_from, failed};
ghost use Rattle.copy_walk.specs.Nexts.{IsNext};
ghost use Rattle.copy_walk.specs.Walks.{metaslab_of, asked_at, asked_in_round, asked_by, asked, IsPickOf, IsLook, look_number, place_after, look_of, WasTold, IsToldPick, IsToldFailure};

use crate::marks::Marks;
use crate::next::Next;
use crate::rounds::first_open;
use crate::route::{Route, Stop, route_of};
use ms_model::{Got, Start};
use std::alloc::Global;
use std::marker::Model;
use std::snapshot::Snapshot;
use vdev_map::Layout;
use zms_units::{Class, Copies, MsId};

/// Where the allocation of one copy of a block stands, after the loops of `metaslab_alloc_dva` and `metaslab_group_alloc`.
/// It takes no memory.
#[derive(Drop)]
pub struct Walk {
    layout: Snapshot<Layout>,
    class: Snapshot<Class>,
    rotor: Snapshot<u8>,
    earlier: Snapshot<Copies>,
    route: Route,
    place: usize,
    start: Start,
    look: Option<u16>,
    round: usize,
    index: u16,
    marks: Marks<1024>,
}

impl Model for Walk {
    ghost use Rattle.copy_walk.specs.Walks.{WalkState};

    ghost Value = { WalkState };

    ghost use Rattle.copy_walk.specs.Walked.{walk_state, IsWalk};

    ghost view = { walk_state };

    ghost invariant = { IsWalk };
}

impl Walk {
    /// A copy that is to be placed on a class, whose rotor stands at this vdev, where a block has these copies already. No
    /// step was told yet. A class without a vdev has no rotor, and no walk.
    ///
    /// Takes no memory. Linear in the vdevs, and for each of the class in those before it.
    pub fn new(alloc: Global, layout: &Layout, class: Class, rotor: u8, earlier: &Copies) -> Self
        requires { IsPlan (plan_of layout.now.vdevs class rotor earlier.now) }
        ensures plan { result.plan ≡ plan_of layout.now.vdevs class rotor earlier.now }
        ensures told { WasTold result [] }
    {
        Walk {
            layout: Snapshot::of(layout),
            class: Snapshot::of(&class),
            rotor: Snapshot::of(&rotor),
            earlier: Snapshot::of(earlier),
            route: route_of(alloc, layout.vdevs.as_slice(), class, rotor, earlier),
            place: 0,
            start: Start::Active,
            look: None,
            round: 0,
            index: 0,
            marks: Marks::new(),
        }
    }

    /// What comes next, by the steps that the walk was told. It costs the same whatever these are.
    pub fn next(&self) -> Next
        ensures asked { result ≡ asked self.now }
        ensures next { (steps : List Step) → WasTold self.now steps → IsNext self.now.plan steps result }
    {
        let in_round = asked_in_round(self.route.get(self.round), self.index);
        asked_by(self.route.get(self.place), self.start, self.look, in_round)
    }

    /// The pick that was asked for gave this metaslab of its vdev, with its weight at the pick, or none, and found the active
    /// one or didn't. It costs the same whatever the pool is.
    pub fn picked(&mut self, got: Option<Got>, was_active: bool)
        requires { IsPickOf self.old.plan (asked self.old) got }
        ensures plan { self.new.plan ≡ self.old.plan }
        ensures told { IsToldPick self.old self.new got was_active }
    {
        self.place = place_after(self.place, got);
        self.start = start_from(self.start, was_active, got);
        self.look = look_of(got);
    }

    /// The look that was asked for failed: the metaslab had no run long enough, or was shut. Costs the same whatever the
    /// pool is, but that the last round goes on from where it stood: over all looks it is linear in the class's metaslabs.
    pub fn failed(&mut self)
        requires { IsLook (asked self.old) }
        ensures plan { self.new.plan ≡ self.old.plan }
        ensures told { IsToldFailure self.old self.new }
    {
        let here = self.route.get(self.place);
        let there = self.route.get(self.round);
        self.marks
            .add(look_number(here, self.look, there, self.index));
        self.look = None;
        let (round, index) = first_open(&self.route, &self.marks, self.round, self.index);
        self.round = round;
        self.index = index;
    }

    /// How many metaslabs looks failed at, each counted once. It costs the same whatever the pool is.
    pub fn looked(&self) -> u64
        ensures count { (steps : List Step) → WasTold self.now steps → result ≡ length (failed steps) }
        ensures few { result ≤ 1024 }
    {
        self.marks.count()
    }
}

fn id_of(stop: Stop, index: u16) -> MsId
    ensures { result ≡ metaslab_of stop index }
{
    MsId {
        vdev: stop.vdev,
        index,
    }
}

/// What is asked for on a vdev.
fn asked_at(stop: Stop, start: Start, look: Option<u16>) -> Next
    ensures { result ≡ asked_at stop start look }
{
    match look {
        Some(index) => Next::Look {
            id: id_of(stop, index),
        },
        None => Next::Pick {
            vdev: stop.vdev,
            start,
        },
    }
}

/// What is asked for in the last round.
fn asked_in_round(stop: Option<Stop>, index: u16) -> Next
    ensures { result ≡ asked_in_round stop index }
{
    match stop {
        Some(stop) => Next::Look {
            id: id_of(stop, index),
        },
        None => Next::Done,
    }
}

/// What is asked for on the vdev at hand, and in the last round where there is none.
fn asked_by(here: Option<Stop>, start: Start, look: Option<u16>, in_round: Next) -> Next
    ensures { result ≡ asked_by here start look in_round }
{
    match here {
        Some(stop) => asked_at(stop, start, look),
        None => in_round,
    }
}

/// The number in the pool of the metaslab at which a look is asked for.
fn look_number(here: Option<Stop>, look: Option<u16>, there: Option<Stop>, index: u16) -> usize
    requires { IsLook (asked_by here Active look (asked_in_round there index)) }
    ensures { result ≡ look_number here look there index }
{
    match (here, look, there) {
        (Some(stop), Some(index), _) => number_in(stop, index),
        (None, _, Some(stop)) => number_in(stop, index),
        _ => unreachable!(),
    }
}

/// The number in the pool of a stop's metaslab.
fn number_in(stop: Stop, index: u16) -> usize
    ensures { result ≡ stop.first + index }
{
    stop.first as usize + index as usize
}

/// The place of the vdev at hand behind a pick: the next one where it gave none.
fn place_after(place: usize, got: Option<Got>) -> usize
    requires { place < 16 }
    ensures { result ≡ place_after place got }
{
    match got {
        Some(_) => place,
        None => place + 1,
    }
}

/// Where the pick behind another begins.
fn start_from(start: Start, was_active: bool, got: Option<Got>) -> Start
    ensures { result ≡ start_from start was_active got }
{
    match got {
        Some(got) => start_behind(start, was_active, got),
        None => Start::Active,
    }
}

fn start_behind(start: Start, was_active: bool, got: Got) -> Start
    ensures { result ≡ start_behind start was_active got }
{
    match start {
        Start::Active if was_active => Start::Top,
        _ => Start::After {
            weight: got.weight,
            index: got.index,
        },
    }
}

fn look_of(got: Option<Got>) -> Option<u16>
    ensures { result ≡ look_of got }
{
    match got {
        Some(got) => Some(got.index),
        None => None,
    }
}
