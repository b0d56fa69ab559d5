//! Threads that share a turn, and passes that find it taken.

ghost use Rattle.std.specs.Prelude.{◌≡◌, ◌+◌, ◌<◌, ◌≤◌, true, false, [], ◌∷◌};
ghost use Rattle.turn_cell.specs.Notes.{has, only, without};
ghost use Rattle.turn_cell.specs.Lanes.{Ready};

use std::alloc::Global;
use std::sync::Wait;
use std::thread;
use std::thread::Threads;
use turn_cell::{Kept, Pass, Turn};

// The entries that a lane adds where four run at once.
const EACH: u32 = 1000;

// How often two lanes run beside each other, each time to the end of both, and the entries that each adds a time.
// The last wake of a lane is followed by no other until both are done, so that one which is missed holds the round up.
const ROUNDS: u32 = 600;

const A_ROUND: u32 = 100;

// How many of its entries lie between two for which a lane looks through all of them while it has the value: the others
// wait meanwhile, and sleep.
const LOOK: u32 = 500;

#[derive(Clone, Copy)]
struct Entry {
    lane: u8,
    number: u32,
}

/// A list of entries, which is its own journal.
#[derive(Drop)]
struct Ledger {
    entries: Vec<Entry>,
}

impl Kept for Ledger {
    type Note = Entry;

    type Fixed = ();

    ghost journal = { λ l. l.entries.items };

    ghost right = { λ e. e.lane };

    ghost fixed = { λ _. tt };

    ghost stands = { λ _ _. Unit {0} };
}

/// One turn of a lane. False where there is no memory for the entry, or where the lane looks through its entries and they
/// aren't numbered from 0 up to this one.
fn add_one<R: Wait>(
    rt: &R,
    turn: &Turn<Ledger>,
    pass: &mut Pass<Ledger>,
    lane: u8,
    number: u32,
) -> bool
    requires { Ready (λ e. e.lane) lane turn.now pass.old }
    ensures { Ready (λ e. e.lane) lane turn.now pass.new }
{
    let mut held = turn.take(rt, pass);
    let whole = number % LOOK > 0 || is_whole(held.value().entries.as_slice(), lane, number);
    let entry = Entry { lane, number };
    match held.value_mut().entries.push(entry) {
        Ok(()) => {
            turn.give(held, pass, Some(entry));
            whole
        }
        Err(_) => {
            turn.give(held, pass, None);
            false
        }
    }
}

/// Adds `count` entries, numbered from `from` on.
fn run_lane<R: Wait>(
    rt: &R,
    turn: &Turn<Ledger>,
    mut pass: Pass<Ledger>,
    lane: u8,
    from: u32,
    count: u32,
) -> (Pass<Ledger>, bool)
    requires room { from + count ≤ 61000 }
    requires pass { Ready (λ e. e.lane) lane turn.now pass }
    ensures { Ready (λ e. e.lane) lane turn.now result.0 }
{
    for number in from..from + count {
        if !add_one(rt, turn, &mut pass, lane, number) {
            return (pass, false);
        }
    }
    (pass, true)
}

/// Runs the lanes `lane` and `lane + 1` in two threads.
fn run_two<R: Threads + Wait + Sync>(
    rt: &R,
    turn: &Turn<Ledger>,
    first: Pass<Ledger>,
    second: Pass<Ledger>,
    lane: u8,
    from: u32,
    count: u32,
) -> (Pass<Ledger>, Pass<Ledger>, bool)
    requires room { (lane < 16) × (from + count ≤ 61000) }
    requires first { Ready (λ e. e.lane) lane turn.now first }
    requires second { Ready (λ e. e.lane) (lane + 1) turn.now second }
    ensures first { Ready (λ e. e.lane) lane turn.now result.0 }
    ensures second { Ready (λ e. e.lane) (lane + 1) turn.now result.1 }
{
    let next = lane + 1;
    let ((first, one), (second, other)) = thread::join(
        rt,
        move ||
            requires room { from + count ≤ 61000 }
            requires pass { Ready (λ e. e.lane) lane turn.now first }
            ensures { Ready (λ e. e.lane) lane turn.entry.now result.0 }
        { run_lane(rt, turn, first, lane, from, count) },
        move ||
            requires room { from + count ≤ 61000 }
            requires pass { Ready (λ e. e.lane) next turn.now second }
            ensures { Ready (λ e. e.lane) next turn.entry.now result.0 }
        { run_lane(rt, turn, second, next, from, count) },
    );
    (first, second, one && other)
}

/// Runs the lanes 1 and 2 in two threads, `ROUNDS` times, numbered from 0 on.
fn run_rounds<R: Threads + Wait + Sync>(
    rt: &R,
    turn: &Turn<Ledger>,
    mut first: Pass<Ledger>,
    mut second: Pass<Ledger>,
) -> (Pass<Ledger>, Pass<Ledger>, bool)
    requires first { Ready (λ e. e.lane) 1 turn.now first }
    requires second { Ready (λ e. e.lane) 2 turn.now second }
    ensures first { Ready (λ e. e.lane) 1 turn.now result.0 }
    ensures second { Ready (λ e. e.lane) 2 turn.now result.1 }
{
    let mut all_added = true;
    for round in 0..ROUNDS {
        let (one, two, added) = run_two(rt, turn, first, second, 1, round * A_ROUND, A_ROUND);
        first = one;
        second = two;
        all_added = all_added && added;
    }
    (first, second, all_added)
}

/// The pass of a lane, from a keeper that has seen nothing.
fn lane_pass(turn: &Turn<Ledger>, keeper: &mut Pass<Ledger>, lane: u8) -> Pass<Ledger>
    requires turn { keeper.old.turn ≡ turn.now }
    requires seen { keeper.old.seen ≡ [] }
    requires right { has keeper.old.own lane ≡ true }
    requires own { only (lane ∷ []) keeper.old.own ≡ (lane, []) ∷ [] }
    ensures kept { keeper.new ≡ record keeper.old { own = without (lane ∷ []) keeper.old.own } }
    ensures ready { Ready (λ e. e.lane) lane turn.now result }
{
    turn.split(keeper, Some(lane))
}

/// Whether the lane's entries are numbered from 0, in order, and there are `count` of them.
fn is_whole(entries: &[Entry], lane: u8, count: u32) -> bool {
    let mut next = 0u32;
    for entry in entries {
        if entry.lane == lane {
            if entry.number != next {
                return false;
            }
            next = next.wrapping_add(1);
        }
    }
    next == count
}

/// Tries to take the value, and gives it back.
fn is_busy(turn: &Turn<Ledger>, pass: &mut Pass<Ledger>) -> bool
    requires turn { pass.old.turn ≡ turn.now }
    requires idle { pass.old.out ≡ false }
    ensures turn { pass.new.turn ≡ turn.now }
    ensures idle { pass.new.out ≡ false }
{
    let Some(held) = turn.try_take(pass) else {
        return true;
    };
    turn.give(held, pass, None);
    false
}

fn empty(alloc: Global) -> Ledger
    ensures { result.entries.items ≡ [] }
{
    Ledger {
        entries: Vec::new(alloc),
    }
}

/// Whether each of four lanes has its entries in order, and no other entries are there.
fn are_whole(entries: &[Entry]) -> bool {
    let counts = [(1, 61000), (2, 61000), (3, 1000), (4, 1000)];
    entries.len() == 124000
        && counts
            .iter()
            .all(|(lane, count)| is_whole(entries, *lane, *count))
}

/// Two lanes add entries, a few at a time, and then four many at once.
pub fn keep_their_order<R: Threads + Wait + Sync>(rt: &R, alloc: Global) -> bool {
    let Ok((turn, mut keeper)) = Turn::new(alloc, empty(alloc)) else {
        return false;
    };
    let one = lane_pass(&turn, &mut keeper, 1);
    let two = lane_pass(&turn, &mut keeper, 2);
    let three = lane_pass(&turn, &mut keeper, 3);
    let four = lane_pass(&turn, &mut keeper, 4);
    let (one, two, added) = run_rounds(rt, &turn, one, two);
    let shared = &turn;
    let ((one, two, low), (three, four, high)) = thread::join(
        rt,
        move ||
            requires one { Ready (λ e. e.lane) 1 shared.now one }
            requires two { Ready (λ e. e.lane) 2 shared.now two }
            ensures one { Ready (λ e. e.lane) 1 shared.entry.now result.0 }
            ensures two { Ready (λ e. e.lane) 2 shared.entry.now result.1 }
        { run_two(rt, shared, one, two, 1, 60000, EACH) },
        move ||
            requires three { Ready (λ e. e.lane) 3 shared.now three }
            requires four { Ready (λ e. e.lane) 4 shared.now four }
            ensures three { Ready (λ e. e.lane) 3 shared.entry.now result.0 }
            ensures four { Ready (λ e. e.lane) 4 shared.entry.now result.1 }
        { run_two(rt, shared, three, four, 3, 0, EACH) },
    );
    turn.join(&mut keeper, one);
    turn.join(&mut keeper, two);
    turn.join(&mut keeper, three);
    turn.join(&mut keeper, four);
    match turn.close(keeper) {
        Ok(ledger) => added && low && high && are_whole(ledger.entries.as_slice()),
        Err(_) => false,
    }
}

/// A turn may be shared, and a turn and a pass may move, wherever the value may.
fn there_and_back<T: Kept + Drop + Send, R: Threads + Sync>(
    rt: &R,
    turn: Turn<T>,
    pass: Pass<T>,
) -> (Turn<T>, Pass<T>)
    ensures { (result.0 ≡ turn) × (result.1 ≡ pass) }
{
    let shared = &turn;
    let ((_, pass), ()) = thread::join(rt, move || (shared, pass), || ());
    let (turn, ()) = thread::join(rt, move || turn, || ());
    (turn, pass)
}

/// While a pass has the value out, another of its turn finds it taken and can't end the turn, and one of another turn
/// doesn't; afterwards both turns end.
pub fn are_busy_while_held<R: Threads + Wait + Sync>(rt: &R, alloc: Global) -> bool {
    let (Ok((turn, mut keeper)), Ok((other, mut pass))) = (
        Turn::new(alloc, empty(alloc)),
        Turn::new(alloc, empty(alloc)),
    ) else {
        return false;
    };
    let mut lane = lane_pass(&turn, &mut keeper, 1);
    let held = turn.take(rt, &mut lane);
    let is_new = held.value().entries.is_empty();
    let busy = is_busy(&turn, &mut keeper) && !is_busy(&other, &mut pass);
    let (turn, mut keeper) = match turn.close(keeper) {
        Err(both) => both,
        Ok(_) => {
            // A value that is out can't be let go: nothing that ends a turn gets here.
            for _ in rt.forever() {}
            unreachable!()
        }
    };
    turn.give(held, &mut lane, None);
    turn.learn(&mut keeper);
    let (turn, keeper) = there_and_back(rt, turn, keeper);
    let closed = turn.close(keeper).is_ok();
    let other_closed = other.close(pass).is_ok();
    is_new && busy && closed && other_closed
}
