//! The classes, closed at the end.
ghost use Rattle.std.specs.Prelude.{◌≡◌, ◌≤◌, [], length, vec_capacity};
ghost use Rattle.turn_passes.specs.Parts.{IsIdle};
ghost use Rattle.turn_passes.specs.Pairs.{Each};
ghost use Rattle.class_group.specs.Passes.{AreIdle};
ghost use Rattle.class_group.specs.Closed.{IsHandedBack, AreClosed};

use crate::classes::{ClassPasses, Classes};
use class_core::ClassCell;
use ms_model::ClassJournal;
use std::sync::Wait;
use turn_cell::{Pass, Turn};
use turn_passes::close_turn;

/// Ends every turn, once all passes are back, and gives the journals into a list that has room for four.
pub fn close_classes<W: Wait>(
    rt: &W,
    classes: Classes,
    passes: ClassPasses,
    room: Vec<ClassJournal>,
) -> Vec<ClassJournal>
    requires idle { AreIdle classes passes }
    requires room { (room.items ≡ []) × (4 ≤ vec_capacity room) }
    ensures { AreClosed classes passes result.items }
{
    let Classes { cells, .. } = classes;
    let ClassPasses { cells: passes } = passes;
    close_all(rt, cells, passes, room)
}

// Ends each turn and gives its journal.
fn close_all<W: Wait>(
    rt: &W,
    turns: Vec<Turn<ClassCell>>,
    passes: Vec<Pass<ClassCell>>,
    room: Vec<ClassJournal>,
) -> Vec<ClassJournal>
    requires count { length turns.items ≡ length passes.items }
    requires idle { Each (λ k turn c. IsIdle turn c) turns.items passes.items }
    requires room { (room.items ≡ []) × (length turns.items ≤ vec_capacity room) }
    ensures count { length result.items ≡ length turns.items }
    ensures backs { Each (λ k c j. IsHandedBack c j) passes.items result.items }
{
    let mut journals = room;
    let mut turns = turns.into_iter();
    let mut passes = passes.into_iter();
    while let Some(turn) = turns.next() {
        let Some(pass) = passes.next() else {
            unreachable!()
        };
        journals.push_reserved(close_class(rt, turn, pass));
    }
    journals
}

// Ends one turn and gives its journal.
fn close_class<W: Wait>(rt: &W, cell: Turn<ClassCell>, pass: Pass<ClassCell>) -> ClassJournal
    requires { IsIdle cell pass }
    ensures { IsHandedBack pass result }
{
    close_turn(rt, cell, pass).into_journal()
}
