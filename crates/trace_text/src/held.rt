//! That the numbers of journals are such as their types hold: a proof knows it of what is passed by value, and of a
//! number that the body reads.

ghost use Rattle.std.specs.List.{All};
ghost use Rattle.trace_text.specs.Held.{NoteHeld, MetaslabHeld, LaneClassNoteHeld, ClassHeld, LaneKeeperNoteHeld, MetaslabsHeld, JournalsHeld};

use ms_model::{ClassJournal, ClassNote, Journals, KeeperNote, MsJournal, Noted};
use zms_units::Items;

/// What has numbers, each of which its type holds.
trait Typed {
    ghost held: { Self → Type 0 };

    /// Reads the numbers, and does nothing else.
    fn held(&self)
        ensures { held self.now };
}

fn note_held(_note: Noted)
    ensures { NoteHeld _note }
{}

fn class_note_held(_note: (u8, ClassNote))
    ensures { LaneClassNoteHeld _note }
{}

fn keeper_note_held(_note: (u8, KeeperNote))
    ensures { LaneKeeperNoteHeld _note }
{}

impl Typed for Noted {
    ghost held = { NoteHeld };

    fn held(&self) {
        note_held(*self);
    }
}

impl Typed for (u8, ClassNote) {
    ghost held = { LaneClassNoteHeld };

    fn held(&self) {
        class_note_held(*self);
    }
}

impl Typed for (u8, KeeperNote) {
    ghost held = { LaneKeeperNoteHeld };

    fn held(&self) {
        keeper_note_held(*self);
    }
}

impl<T: Typed> Typed for Items<T> {
    ghost held = { All T.held };

    fn held(&self) {
        let items = self.as_slice();
        for item in items {
            item.held();
        }
    }
}

impl Typed for MsJournal {
    ghost held = { MetaslabHeld };

    fn held(&self) {
        let _vdev = self.id.vdev;
        let _index = self.id.index;
        let _units = self.units;
        let _shift = self.ashift;
        let _held = self.held;
        self.notes.held();
    }
}

impl Typed for ClassJournal {
    ghost held = { ClassHeld };

    fn held(&self) {
        self.notes.held();
    }
}

/// The numbers of all that a trace without classes and keeper prints.
pub fn metaslabs_held(journals: &Journals)
    ensures { MetaslabsHeld journals.now }
{
    let _opened = journals.opened.0;
    journals.metaslabs.held();
}

/// The numbers of all that a trace prints.
pub fn journals_held(journals: &Journals)
    ensures { JournalsHeld journals.now }
{
    metaslabs_held(journals);
    journals.classes.held();
    journals.keeper.held();
}
