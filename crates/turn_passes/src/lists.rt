//! The passes of a list of turns, place by place.
ghost use Rattle.std.specs.Prelude.{◌≡◌, ◌+◌, ℕ, ◌≤◌, [], Some, IfOk, OnOk, OnErr, length, vec_capacity};
ghost use Rattle.std.specs.List.{All};
ghost use Rattle.turn_cell.specs.Notes.{StandsFor, Ends};
ghost use Rattle.turn_passes.specs.Parts.{IsIdle, IsFresh, IsRest, Joined};
ghost use Rattle.turn_passes.specs.Pairs.{Each, EachThird};

use crate::single::{close_turn, join_pass, next_pass};
use std::alloc::{AllocError, Global};
use std::sync::Wait;
use turn_cell::{Kept, MAX_RIGHT, Pass, Turn};

/// A pass of this right for each turn, as `next_pass`. Where there is no memory for the list nothing is split off.
pub fn next_passes<T: Kept>(
    alloc: Global,
    turns: &[Turn<T>],
    rests: &mut Vec<Pass<T>>,
    right: u8,
) -> Result<Vec<Pass<T>>, AllocError>
    requires low { right ≤ MAX_RIGHT }
    requires count { length turns.now ≡ length rests.old.items }
    requires rests { Each (λ k t p. IsRest right t p) turns.now rests.old.items }
    ensures rests { OnOk result (Each (λ k t p. IsRest (right + 1) t p) turns.now rests.new.items) }
    ensures err { OnErr result (rests.new.items ≡ rests.old.items) }
    ensures fixed { Each (λ k p q. q.fixed ≡ p.fixed) rests.old.items rests.new.items }
    ensures size { length rests.new.items ≡ length rests.old.items }
    ensures count { IfOk result (λ passes. length passes.items ≡ length turns.now) }
    ensures fresh { IfOk result (λ passes. Each (λ k t p. IsFresh right t p) turns.now passes.items) }
    ensures same { IfOk result (λ passes. Each (λ k p q. q.fixed ≡ p.fixed) rests.old.items passes.items) }
{
    let mut passes = Vec::with_capacity(alloc, turns.len())?;
    for (at, turn) in turns.iter().enumerate() {
        passes.push_reserved(next_pass(turn, &mut rests[at], right));
    }
    Ok(passes)
}

/// Spends the second passes: the first have what both had.
pub fn join_passes<T: Kept>(turns: &[Turn<T>], first: &mut Vec<Pass<T>>, mut second: Vec<Pass<T>>)
    requires counts { (length turns.now ≡ length first.old.items) × (length turns.now ≡ length second.items) }
    requires first { Each (λ k t p. IsIdle t p) turns.now first.old.items }
    requires second { Each (λ k t p. IsIdle t p) turns.now second.items }
    ensures joined { EachThird (λ k p q r. Joined p q r) first.old.items second.items first.new.items }
    ensures size { length first.new.items ≡ length first.old.items }
{
    while let Some(pass) = second.pop() {
        let at = second.len();
        join_pass(&turns[at], &mut first[at], pass);
    }
}

/// Ends each turn, once no pass has its value out, and gives the values into a list that has room for them.
pub fn close_turns<T: Kept + Drop, W: Wait>(
    rt: &W,
    turns: Vec<Turn<T>>,
    passes: Vec<Pass<T>>,
    room: Vec<T>,
) -> Vec<T>
    requires count { length turns.items ≡ length passes.items }
    requires idle { Each (λ k t p. IsIdle t p) turns.items passes.items }
    requires room { (room.items ≡ []) × (length turns.items ≤ vec_capacity room) }
    ensures count { length result.items ≡ length turns.items }
    ensures ends { Each (λ k p x. Ends T.right p.own p.seen (T.journal x)) passes.items result.items }
    ensures stands { Each (λ k p x. StandsFor T.stands p.fixed x) passes.items result.items }
    ensures rights { All (λ x. All (λ n. T.right n ≤ MAX_RIGHT) (T.journal x)) result.items }
{
    let mut values = room;
    let mut turns = turns.into_iter();
    let mut passes = passes.into_iter();
    while let Some(turn) = turns.next() {
        let Some(pass) = passes.next() else {
            unreachable!()
        };
        values.push_reserved(close_turn(rt, turn, pass));
    }
    values
}
