//! The four classes of a pool under their turns, and what may be asked of them.
ghost use Rattle.std.specs.Prelude.{◌≡◌, ◌+◌, ◌≤◌, ◌<◌, true, [], length, vec_capacity, IfSome, OnSome};
ghost use Rattle.vdev_map.specs.Numbers.{IsIn};
ghost use Rattle.class_group.specs.Passes.{Seated, AreIdle, AreRests};

use crate::opened::{is_lane, total};
use class_core::Picked;
use class_group::{
    ClassPasses, Classes, begin, close_classes, granted, join_classes, make_classes, missed,
    next_classes, pick, tell_class, weigh,
};
use ms_model::{ClassJournal, Kind, Start};
use std::alloc::{AllocError, Global};
use std::marker::Model;
use std::sync::Wait;
use vdev_map::{Layout, check};
use zms_units::{Class, Items, MsId, VdevRow};

/// The classes with the layout that they were made of.
#[derive(Drop)]
pub struct Pool {
    layout: Layout,
    classes: Classes,
}

impl Model for Pool {
    ghost use Rattle.std.specs.Prelude.{◌≡◌};
    ghost use Rattle.class_group.specs.Turns.{ClassTurns};

    ghost Value = { ClassTurns };

    ghost view = { λ p. p.classes };

    ghost invariant = { λ p. p.layout.vdevs ≡ p.classes.vdevs };
}

/// Makes the classes; None where the layout is past a limit, there is not one weight for each metaslab, or no memory.
pub fn make(alloc: Global, rows: Vec<VdevRow>, weights: Vec<u64>) -> Option<(Pool, ClassPasses)>
    ensures { IfSome result (λ r. AreRests 0 r.0 r.1) }
{
    let layout = Layout {
        flush: 2,
        log: 64,
        vdevs: Items::from_vec(rows),
    };
    if let Err(_) = check(&layout) {
        return None;
    }
    if total(layout.vdevs.as_slice()) != weights.len() {
        return None;
    }
    let weights = Items::from_vec(weights);
    match make_classes(alloc, &layout, &weights) {
        Ok((classes, rest)) => Some((Pool { layout, classes }, rest)),
        Err(_) => None,
    }
}

impl Pool {
    fn has_vdev(&self, vdev: u8) -> bool
        ensures { result ≡ true → vdev < length self.now.vdevs }
    {
        (vdev as usize) < self.layout.vdevs.len()
    }

    fn has(&self, id: MsId) -> bool
        ensures { result ≡ true → IsIn self.now.vdevs id }
    {
        (id.vdev as usize) < self.layout.vdevs.len()
            && id.index < self.layout.vdevs.as_slice()[id.vdev as usize].metaslabs
    }

    /// The passes of the next right; None where there is no memory.
    pub fn next(&self, alloc: Global, rest: &mut ClassPasses, right: u8) -> Option<ClassPasses>
        requires low { right ≤ 16 }
        requires rest { AreRests right self.now rest.old }
        ensures rest { OnSome result (AreRests (right + 1) self.now rest.new) }
        ensures idle { OnSome result (AreIdle self.now rest.new) }
        ensures seated { IfSome result (Seated right self.now) }
    {
        match next_classes(alloc, &self.classes, rest, right) {
            Ok(passes) => Some(passes),
            Err(_) => None,
        }
    }

    pub fn begin<W: Wait>(
        &self,
        rt: &W,
        lane: u8,
        passes: &mut ClassPasses,
        class: Class,
    ) -> Option<u8>
        requires { Seated lane self.now passes.old }
        ensures { Seated lane self.now passes.new }
    {
        let _ = lane;
        begin(rt, &self.classes, passes, class)
    }

    /// None where that is no call, or where there is no memory; so in what follows.
    pub fn pick<W: Wait>(
        &self,
        rt: &W,
        lane: u8,
        passes: &mut ClassPasses,
        vdev: u8,
        start: Start,
    ) -> Option<Option<Picked>>
        requires { Seated lane self.now passes.old }
        ensures { Seated lane self.now passes.new }
    {
        if !is_lane(lane) || !self.has_vdev(vdev) {
            return None;
        }
        pick(
            rt,
            &self.classes,
            passes,
            lane,
            Kind::Primary,
            vdev,
            4096,
            start,
        )
        .ok()
    }

    pub fn granted<W: Wait>(
        &self,
        rt: &W,
        lane: u8,
        passes: &mut ClassPasses,
        id: MsId,
        weight: u64,
    ) -> Option<()>
        requires { Seated lane self.now passes.old }
        ensures { Seated lane self.now passes.new }
    {
        if !is_lane(lane) || !self.has(id) {
            return None;
        }
        granted(rt, &self.classes, passes, lane, id, 4096, weight).ok()
    }

    pub fn missed<W: Wait>(
        &self,
        rt: &W,
        lane: u8,
        passes: &mut ClassPasses,
        id: MsId,
        weight: u64,
    ) -> Option<()>
        requires { Seated lane self.now passes.old }
        ensures { Seated lane self.now passes.new }
    {
        if !is_lane(lane) || !self.has(id) {
            return None;
        }
        missed(rt, &self.classes, passes, lane, id, weight).ok()
    }

    pub fn weigh<W: Wait>(
        &self,
        rt: &W,
        lane: u8,
        passes: &mut ClassPasses,
        id: MsId,
        weight: u64,
    ) -> Option<()>
        requires { Seated lane self.now passes.old }
        ensures { Seated lane self.now passes.new }
    {
        if !is_lane(lane) || !self.has(id) {
            return None;
        }
        weigh(rt, &self.classes, passes, lane, id, weight).ok()
    }

    /// Lets a second lane know what the first has seen of a class.
    pub fn tell(
        &self,
        lane: u8,
        from: &mut ClassPasses,
        other: u8,
        to: &mut ClassPasses,
        class: Class,
    )
        requires from { Seated lane self.now from.old }
        requires to { Seated other self.now to.old }
        ensures from { Seated lane self.now from.new }
        ensures to { Seated other self.now to.new }
    {
        let _ = (lane, other);
        tell_class(&self.classes, from, to, class);
    }

    /// Takes the passes of a lane back.
    pub fn join(&self, lane: u8, first: &mut ClassPasses, passes: ClassPasses)
        requires first { AreIdle self.now first.old }
        requires passes { Seated lane self.now passes }
        ensures { AreIdle self.now first.new }
    {
        let _ = lane;
        join_classes(&self.classes, first, passes);
    }

    /// Ends every turn, and gives the four journals.
    pub fn close<W: Wait>(
        self,
        rt: &W,
        passes: ClassPasses,
        room: Vec<ClassJournal>,
    ) -> Vec<ClassJournal>
        requires idle { AreIdle self passes }
        requires room { (room.items ≡ []) × (4 ≤ vec_capacity room) }
    {
        let Pool { classes, .. } = self;
        close_classes(rt, classes, passes, room)
    }
}
