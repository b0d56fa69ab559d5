//! Journals out of the text of a trace.

use crate::lines::{class_noted_of, class_of, id_of, keeper_noted_of, noted_of};
use ms_model::{ClassJournal, ClassNote, Journals, KeeperNote, MsJournal, Noted};
use row_tables::Words;
use std::alloc::{AllocError, Global};
use std::mem;
use zms_units::{Class, Group, Items, MsId};

/// The line of a metaslab.
#[derive(Clone, Copy, Drop)]
struct Head {
    id: MsId,
    units: u32,
    ashift: u8,
    held: u32,
}

/// The part of the trace whose notes are being read.
#[derive(Drop)]
enum Part {
    Between,
    Metaslab(Head, Vec<Noted>),
    Class(Class, Vec<(u8, ClassNote)>),
}

/// What was read so far.
#[derive(Drop)]
struct Reading {
    opened: Group,
    metaslabs: Vec<MsJournal>,
    classes: Vec<ClassJournal>,
    keeper: Vec<(u8, KeeperNote)>,
    part: Part,
}

impl Reading {
    fn new(alloc: Global) -> Self {
        Reading {
            opened: Group(0),
            metaslabs: Vec::new(alloc),
            classes: Vec::new(alloc),
            keeper: Vec::new(alloc),
            part: Part::Between,
        }
    }

    /// Ends the part that is being read, and begins another.
    fn begin(&mut self, next: Part) -> Result<(), AllocError> {
        match mem::replace(&mut self.part, next) {
            Part::Between => {}
            Part::Metaslab(head, notes) => self.metaslabs.push(MsJournal {
                id: head.id,
                units: head.units,
                ashift: head.ashift,
                held: head.held,
                notes: Items::from_vec(notes),
            })?,
            Part::Class(class, notes) => self.classes.push(ClassJournal {
                class,
                notes: Items::from_vec(notes),
            })?,
        }
        Ok(())
    }

    /// Takes the line of a note, whose place was read. False where it is none.
    fn take_note(&mut self, words: &mut Words<'_>) -> Result<bool, AllocError> {
        match &mut self.part {
            Part::Between => match keeper_noted_of(words) {
                Some(noted) => self.keeper.push(noted)?,
                None => return Ok(false),
            },
            Part::Metaslab(_, notes) => match noted_of(words) {
                Some(noted) => notes.push(noted)?,
                None => return Ok(false),
            },
            Part::Class(_, notes) => match class_noted_of(words) {
                Some(noted) => notes.push(noted)?,
                None => return Ok(false),
            },
        }
        Ok(true)
    }

    /// Takes a line. False where it is none of a trace.
    fn take(&mut self, alloc: Global, line: &str) -> Result<bool, AllocError> {
        let mut words = Words::new(line);
        match words.word() {
            "trace" => match opened_of(&mut words) {
                Some(opened) => self.opened = opened,
                None => return Ok(false),
            },
            "metaslab" => match head_of(&mut words) {
                Some(head) => self.begin(Part::Metaslab(head, Vec::new(alloc)))?,
                None => return Ok(false),
            },
            "class" => match class_of(words.word()) {
                Some(class) => self.begin(Part::Class(class, Vec::new(alloc)))?,
                None => return Ok(false),
            },
            "keeper" | "end" => self.begin(Part::Between)?,
            _ => return self.take_note(&mut words),
        }
        Ok(true)
    }
}

/// `1 group G`
fn opened_of(words: &mut Words<'_>) -> Option<Group> {
    let _version = words.word();
    let _group = words.word();
    Some(Group(words.number()?))
}

/// `V I units N shift A held H`
fn head_of(words: &mut Words<'_>) -> Option<Head> {
    let id = id_of(words)?;
    let _units = words.word();
    let units = words.small()?;
    let _shift = words.word();
    let ashift = words.byte()?;
    let _held = words.word();
    let held = words.small()?;
    Some(Head {
        id,
        units,
        ashift,
        held,
    })
}

/// The journals of a trace, none where a line is none of a trace.
pub fn read_journals(alloc: Global, text: &str) -> Result<Option<Journals>, AllocError> {
    let mut reading = Reading::new(alloc);
    for line in text.lines() {
        if !reading.take(alloc, line)? {
            return Ok(None);
        }
    }
    let Reading {
        opened,
        metaslabs,
        classes,
        keeper,
        part: _,
    } = reading;
    Ok(Some(Journals {
        opened,
        metaslabs: Items::from_vec(metaslabs),
        classes: Items::from_vec(classes),
        keeper: Items::from_vec(keeper),
    }))
}
