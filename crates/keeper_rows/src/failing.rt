//! A sync that has two groups of another lane to take up and one of its own, of which each call of the device fails in turn.

use crate::checks::is_sound;
use crate::device::{NEVER, Panel};
use crate::lane::{Asked, Lane};
use crate::rows::create_one;
use crate::session::{Crowd, Ended, Play, run};
use crate::working::{Piece, command};
use meta_store::At;
use ms_model::KeeperNote;
use pool_keeper::SyncFault;
use std::alloc::{AllocError, Global};
use std::sync::Wait;
use std::sync::atomic::Ordering;
use std::thread::Threads;
use zms_units::{First, Group};

/// More calls than the sync makes.
const MOST_CALLS: u64 = 1000;

/// How many groups wait for the sync's own.
const WAITING: u32 = 2;

/// How many commands fall into each group.
const COMMANDS: u32 = 6;

/// The sync, with the call of the device that fails, and another sync behind it.
#[derive(Drop)]
struct Failing<'p> {
    panel: &'p Panel,
    number: u64,
    first: Option<Result<Group, SyncFault>>,
    second: Option<Result<Group, SyncFault>>,
    /// How many calls of the device the second sync made.
    calls: u64,
}

impl<'p> Play for Failing<'p> {
    fn play<W: Threads + Wait + Sync>(
        &mut self,
        rt: &W,
        _alloc: Global,
        mut lanes: Vec<Lane<'_, '_>>,
    ) -> Result<(), AllocError> {
        let (Some(mut second), Some(mut first)) = (lanes.pop(), lanes.pop()) else {
            return Err(AllocError);
        };
        fill_groups(rt, &mut first, &mut second);
        self.panel.call.store(self.number, Ordering::SeqCst);
        self.first = Some(first.sync(rt));
        self.panel.call.store(NEVER, Ordering::SeqCst);
        self.panel.calls.store(0, Ordering::SeqCst);
        self.second = Some(second.sync(rt));
        self.calls = self.panel.calls.load(Ordering::SeqCst);
        Ok(())
    }
}

/// Commands of the first lane in each of three groups, of which the second lane closes two.
fn fill_groups<W: Wait>(rt: &W, first: &mut Lane<'_, '_>, second: &mut Lane<'_, '_>) {
    let mut slots: [Option<Piece>; 4] = [None; 4];
    for group in 0..WAITING + 1 {
        for number in 0..COMMANDS {
            let _ = command(rt, first, number, &mut slots[number as usize % 4]);
        }
        if group < WAITING {
            let _ = second.close(rt);
        }
    }
}

/// Whether the keeper noted one fault, the first of the device, and nothing behind it.
fn has_one_fault(notes: &[(u8, KeeperNote)]) -> bool {
    let mut last = None;
    for (_, note) in notes {
        if last
            == Some(KeeperNote::Fault {
                before: 0,
                after: 1,
            })
        {
            return false;
        }
        last = Some(*note);
    }
    last == Some(KeeperNote::Fault {
        before: 0,
        after: 1,
    })
}

/// Whether the sync answers the fault, and the next one that it is kept, for which the device isn't called.
fn answers_fault(failing: &Failing<'_>) -> bool {
    let first = First::Device {
        before: 0,
        after: 1,
    };
    failing.first
        == Some(Err(SyncFault::Device {
            before: 0,
            after: 1,
        }))
        && failing.second == Some(Err(SyncFault::Suspended { first }))
        && failing.calls == 0
}

/// What came of a sync whose call of this number fails: none where it makes fewer calls.
fn fail_at<R: Threads + Wait + Sync>(
    rt: &R,
    alloc: Global,
    number: u64,
) -> Result<Option<bool>, AllocError> {
    let panel = Panel::new();
    let bytes = create_one(alloc, &panel, 4)?;
    let mut failing = Failing {
        panel: &panel,
        number,
        first: None,
        second: None,
        calls: 0,
    };
    let crowd = Crowd {
        probes: 0,
        lanes: 2,
    };
    let mut ended = run(rt, alloc, &panel, bytes, At::Newest, crowd, &mut failing)?;
    if failing.first == Some(Ok(Group(7))) {
        let sound = is_sound(alloc, &mut ended, false)?;
        return Ok(if sound { None } else { Some(false) });
    }
    let noted = has_one_fault(ended.journals.keeper.as_slice());
    let sound = is_sound(alloc, &mut ended, true)?;
    Ok(Some(noted && sound && answers_fault(&failing)))
}

/// Lets each call of the sync fail in turn, of which there are at least so many.
pub fn fail_in_turn<R: Threads + Wait + Sync>(
    rt: &R,
    alloc: Global,
    least: u64,
) -> Result<bool, AllocError> {
    for number in 0..MOST_CALLS {
        match fail_at(rt, alloc, number)? {
            Some(true) => {}
            Some(false) => return Ok(false),
            None => return Ok(number >= least),
        }
    }
    Ok(false)
}
