//! The passes of all classes: split, told and joined.
ghost use Rattle.std.specs.Prelude.{◌≡◌, ℕ, ◌+◌, ◌≤◌, [], IfOk, OnOk, OnErr};
ghost use Rattle.turn_cell.specs.Notes.{IsPrefix};
ghost use Rattle.turn_cell.specs.declared.kept.TheConstants.{MAX_RIGHT};
ghost use Rattle.class_group.specs.Turns.{place_of};
ghost use Rattle.class_group.specs.Passes.{Seated, AreIdle, AreFresh, AreRests, StandAlike, HaveAll, seen_in};
ghost use Rattle.class_group.specs.Journey.{Journey};

use crate::classes::{ClassPasses, Classes};
use std::alloc::{AllocError, Global};
use turn_cell::MAX_RIGHT;
use turn_passes::{join_passes, next_passes, tell_pass};
use zms_units::Class;

/// The passes of the lowest right that the rest has. Where there is no memory for them the rest stays as it is.
pub fn next_classes(
    alloc: Global,
    classes: &Classes,
    rest: &mut ClassPasses,
    right: u8,
) -> Result<ClassPasses, AllocError>
    requires low { right ≤ MAX_RIGHT }
    requires rest { AreRests right classes.now rest.old }
    ensures rest { OnOk result (AreRests (right + 1) classes.now rest.new) }
    ensures fresh { IfOk result (λ passes. AreFresh right classes.now passes) }
    ensures same { OnOk result (StandAlike rest.new rest.old) }
    ensures alike { IfOk result (λ passes. StandAlike passes rest.old) }
    ensures err { OnErr result (rest.new ≡ rest.old) }
{
    let cells = next_passes(alloc, &classes.cells, &mut rest.cells, right)?;
    Ok(ClassPasses { cells })
}

/// Spends the second passes: the first have what both had.
pub fn join_classes(classes: &Classes, first: &mut ClassPasses, second: ClassPasses)
    requires first { AreIdle classes.now first.old }
    requires second { AreIdle classes.now second }
    ensures idle { AreIdle classes.now first.new }
    ensures alike { StandAlike first.new first.old }
    ensures first { HaveAll first.new first.old }
    ensures second { HaveAll first.new second }
{
    let ClassPasses { cells } = second;
    join_passes(&classes.cells, &mut first.cells, cells);
}

/// Lets the second holder know all that the first has seen of a class. It takes no turn, and no right moves.
pub fn tell_class(classes: &Classes, from: &mut ClassPasses, to: &mut ClassPasses, class: Class)
    requires from { (right : ℕ) × Seated right classes.now from.old }
    requires to { (right : ℕ) × Seated right classes.now to.old }
    ensures from { from.new ≡ from.old }
    ensures knows { IsPrefix (seen_in from.old (place_of class)) (seen_in to.new (place_of class)) }
    ensures to { (right : ℕ) → Seated right classes.now to.old → Journey right [] to.old to.new }
{
    let at = classes.place_of(class);
    tell_pass(&classes.cells[at], &mut from.cells[at], &mut to.cells[at]);
}
