//! The passes of one turn.
ghost use Rattle.std.specs.Prelude.{◌≡◌, ◌+◌, ℕ, ◌≤◌, [], Some, IfOk, IfErr};
ghost use Rattle.std.specs.List.{All};
ghost use Rattle.turn_cell.specs.Notes.{IsPrefix, StandsFor, Ends};
ghost use Rattle.turn_cell.specs.Lanes.{Ready, Went};
ghost use Rattle.turn_passes.specs.Parts.{IsIdle, IsFresh, IsRest, Joined};

use std::alloc::Global;
use std::sync::Wait;
use turn_cell::{Kept, MAX_RIGHT, Pass, Turn};

/// A turn round the value, and the rest of its rights, which is all of them. The only error is want of memory, and hands
/// the value back.
pub fn new_turn<T: Kept>(alloc: Global, value: T) -> Result<(Turn<T>, Pass<T>), T>
    requires empty { T.journal value ≡ [] }
    requires stands { T.stands (T.fixed value) value }
    ensures rest { IfOk result (λ r. IsRest 0 r.0 r.1) }
    ensures fixed { IfOk result (λ r. r.1.fixed ≡ Some (T.fixed value)) }
    ensures err { IfErr result (λ x. x ≡ value) }
{
    Turn::new(alloc, value)
}

/// The pass of this right, the lowest that the rest has.
pub fn next_pass<T: Kept>(turn: &Turn<T>, rest: &mut Pass<T>, right: u8) -> Pass<T>
    requires low { right ≤ MAX_RIGHT }
    requires rest { IsRest right turn.now rest.old }
    ensures rest { IsRest (right + 1) turn.now rest.new }
    ensures fresh { IsFresh right turn.now result }
    ensures fixed { (rest.new.fixed ≡ rest.old.fixed) × (result.fixed ≡ rest.old.fixed) }
{
    turn.split(rest, Some(right))
}

/// Spends the second pass: the first has what both had.
pub fn join_pass<T: Kept>(turn: &Turn<T>, first: &mut Pass<T>, second: Pass<T>)
    requires first { IsIdle turn.now first.old }
    requires second { IsIdle turn.now second }
    ensures { Joined first.old second first.new }
{
    turn.join(first, second);
}

/// Lets the second pass know all that the first has seen. It gets no right, and the first stays as it is.
pub fn tell_pass<T: Kept>(turn: &Turn<T>, from: &mut Pass<T>, to: &mut Pass<T>)
    requires from { IsIdle turn.now from.old }
    requires to { IsIdle turn.now to.old }
    ensures from { from.new ≡ from.old }
    ensures knows { IsPrefix from.old.seen to.new.seen }
    ensures went { (right : ℕ) → Ready T.right right turn.now to.old → Went T.right right [] to.old to.new }
{
    let part = turn.split(from, None);
    turn.join(to, part);
}

/// Ends the turn, once no pass has its value out, and gives the value.
pub fn close_turn<T: Kept, W: Wait>(rt: &W, mut turn: Turn<T>, mut pass: Pass<T>) -> T
    requires { IsIdle turn pass }
    ensures ends { Ends T.right pass.own pass.seen (T.journal result) }
    ensures stands { StandsFor T.stands pass.fixed result }
    ensures rights { All (λ n. T.right n ≤ MAX_RIGHT) (T.journal result) }
{
    for _ in rt.forever() {
        match turn.close(pass) {
            Ok(value) => return value,
            Err(both) => (turn, pass) = both,
        }
    }
    unreachable!()
}
