//! Lanes on the classes of a pool, one after the other.
ghost use Rattle.std.specs.Prelude.{◌≡◌, ◌+◌, ◌≤◌, ◌<◌, IfSome, OnSome};
ghost use Rattle.class_group.specs.Passes.{Seated, AreIdle, AreRests};

use crate::pool::{Pool, make};
use class_core::Picked;
use class_group::ClassPasses;
use ms_model::{ClassJournal, ClassNote, Got, Kind, Start};
use std::alloc::Global;
use std::sync::Wait;
use zms_units::{Class, MsId, VdevRow};

// What a metaslab of 256 vacant units of 4096 bytes weighs, and what it weighs without one unit.
const WHOLE: u64 = 0x0500000000000001;

const LESS: u64 = 0x04c0000000000001;

/// A pool of one normal vdev with so many metaslabs.
fn one_vdev(alloc: Global, metaslabs: u16) -> Option<(Pool, ClassPasses)>
    ensures { IfSome result (λ r. AreRests 0 r.0 r.1) }
{
    let row = VdevRow {
        class: Class::Normal,
        ashift: 12,
        units: 256,
        metaslabs,
    };
    let mut rows = Vec::new(alloc);
    rows.push(row).ok()?;
    let mut weights = Vec::new(alloc);
    for _ in 0..metaslabs {
        weights.push(WHOLE).ok()?;
    }
    make(alloc, rows, weights)
}

/// The journals of the pool, once the passes of a lane are back.
fn end<W: Wait>(rt: &W, alloc: Global, pool: Pool, rest: ClassPasses) -> Option<Vec<ClassJournal>>
    requires { AreIdle pool rest }
{
    let room = Vec::with_capacity(alloc, 4).ok()?;
    Some(pool.close(rt, rest, room))
}

/// The notes of the worked first trace.
fn are_first_trace(journals: &[ClassJournal]) -> bool {
    let id = MsId { vdev: 0, index: 0 };
    let want = [
        (
            1u8,
            ClassNote::Pick {
                allocator: 0,
                kind: Kind::Primary,
                vdev: 0,
                bytes: 4096,
                start: Start::Active,
                got: Some(Got {
                    index: 0,
                    weight: WHOLE,
                }),
            },
        ),
        (1, ClassNote::Weigh { id, weight: WHOLE }),
        (
            1,
            ClassNote::Granted {
                id,
                bytes: 4096,
                weight: LESS,
            },
        ),
        (1, ClassNote::Weigh { id, weight: LESS }),
    ];
    journals.len() == 4
        && journals[0].class == Class::Normal
        && journals[0].notes.as_slice() == want.as_slice()
        && journals[1..].iter().all(|j| j.notes.is_empty())
}

/// The steps of an allocation of one unit, and of the sync behind it, and whether each was answered as it should be.
fn first_steps<W: Wait>(rt: &W, pool: &Pool, mut passes: ClassPasses) -> (ClassPasses, bool)
    requires { Seated 1 pool.now passes }
    ensures { Seated 1 pool.now result.0 }
{
    let id = MsId { vdev: 0, index: 0 };
    let vdev = pool.begin(rt, 1, &mut passes, Class::Normal);
    let picked = pool.pick(rt, 1, &mut passes, 0, Start::Active);
    let before = pool.weigh(rt, 1, &mut passes, id, WHOLE);
    let granted = pool.granted(rt, 1, &mut passes, id, LESS);
    let behind = pool.weigh(rt, 1, &mut passes, id, LESS);
    let nowhere = pool.begin(rt, 1, &mut passes, Class::Log);
    let posted = before.is_some() && granted.is_some() && behind.is_some();
    let answered = vdev == Some(0) && is_newly(picked, 0, WHOLE) && nowhere.is_none();
    (passes, posted && answered)
}

/// One lane allocates a unit of a pool of one metaslab, and a sync posts the weight.
pub fn note_the_first_trace<W: Wait>(rt: &W, alloc: Global) -> Option<bool> {
    let (pool, mut rest) = one_vdev(alloc, 1)?;
    let _keeper = pool.next(alloc, &mut rest, 0)?;
    let passes = pool.next(alloc, &mut rest, 1)?;
    let (passes, answered) = first_steps(rt, &pool, passes);
    pool.join(1, &mut rest, passes);
    let journals = end(rt, alloc, pool, rest)?;
    Some(answered && are_first_trace(journals.as_slice()))
}

/// Whether a pick gave this metaslab, which becomes active with it.
fn is_newly(picked: Option<Option<Picked>>, index: u16, weight: u64) -> bool {
    picked
        == Some(Some(Picked {
            index,
            weight,
            was_active: false,
        }))
}

/// Two lanes: the first misses its metaslab and picks again, and tells the second, which gets what is inactive again.
fn miss_steps<W: Wait>(
    rt: &W,
    pool: &Pool,
    mut one: ClassPasses,
    mut two: ClassPasses,
) -> (ClassPasses, ClassPasses, bool)
    requires one { Seated 1 pool.now one }
    requires two { Seated 2 pool.now two }
    ensures one { Seated 1 pool.now result.0 }
    ensures two { Seated 2 pool.now result.1 }
{
    let first = pool.pick(rt, 1, &mut one, 0, Start::Active);
    let missed = pool.missed(rt, 1, &mut one, MsId { vdev: 0, index: 0 }, LESS);
    let second = pool.pick(rt, 1, &mut one, 0, Start::Top);
    pool.tell(1, &mut one, 2, &mut two, Class::Normal);
    let third = pool.pick(rt, 2, &mut two, 0, Start::Active);
    let none = pool.pick(rt, 2, &mut two, 0, Start::Top);
    let got = is_newly(first, 0, WHOLE) && is_newly(second, 1, WHOLE) && is_newly(third, 0, LESS);
    (one, two, got && missed.is_some() && none == Some(None))
}

/// A lane whose metaslab was missed gets the next one, and another that was told of it gets what is inactive again.
pub fn miss_and_tell<W: Wait>(rt: &W, alloc: Global) -> Option<bool> {
    let (pool, mut rest) = one_vdev(alloc, 2)?;
    let _keeper = pool.next(alloc, &mut rest, 0)?;
    let one = pool.next(alloc, &mut rest, 1)?;
    let two = pool.next(alloc, &mut rest, 2)?;
    let (one, two, answered) = miss_steps(rt, &pool, one, two);
    pool.join(1, &mut rest, one);
    pool.join(2, &mut rest, two);
    let journals = end(rt, alloc, pool, rest)?;
    let noted = journals.as_slice().first()?.notes.len() == 5;
    Some(answered && noted)
}

/// A lane that picks the active metaslab and grants there, so many times. The answer is the metaslab, if it was the same each
/// time, and 65535 else.
fn run_lane<W: Wait>(
    rt: &W,
    pool: &Pool,
    lane: u8,
    mut passes: ClassPasses,
    rounds: u32,
) -> (ClassPasses, u16)
    requires { Seated lane pool.now passes }
    ensures { Seated lane pool.now result.0 }
{
    let mut index = u16::MAX;
    for round in 0..rounds {
        let Some(Some(picked)) = pool.pick(rt, lane, &mut passes, 0, Start::Active) else {
            return (passes, u16::MAX);
        };
        if round > 0 && picked.index != index {
            return (passes, u16::MAX);
        }
        index = picked.index;
        let id = MsId { vdev: 0, index };
        if pool.granted(rt, lane, &mut passes, id, WHOLE).is_none() {
            return (passes, u16::MAX);
        }
    }
    (passes, index)
}

/// Four lanes, one after the other, on four metaslabs of one weight.
pub fn four_get_one_each<W: Wait>(rt: &W, alloc: Global) -> Option<bool> {
    let (pool, mut rest) = one_vdev(alloc, 4)?;
    let _keeper = pool.next(alloc, &mut rest, 0)?;
    let one = pool.next(alloc, &mut rest, 1)?;
    let two = pool.next(alloc, &mut rest, 2)?;
    let three = pool.next(alloc, &mut rest, 3)?;
    let four = pool.next(alloc, &mut rest, 4)?;
    let (_, first) = run_lane(rt, &pool, 1, one, 2);
    let (_, second) = run_lane(rt, &pool, 2, two, 2);
    let (_, third) = run_lane(rt, &pool, 3, three, 2);
    let (_, fourth) = run_lane(rt, &pool, 4, four, 2);
    Some([first, second, third, fourth] == [0, 1, 2, 3])
}
