//! Calls on a walk.
use crate::opened::Opened;
use copy_walk::Next;
use ms_model::{Got, Start};
use row_tables::{Calls, Words};
use std::alloc::{AllocError, Global};
use std::mem;
use vdev_map::Layout;
use zms_units::{Class, Copies, Dva, Items, VdevRow};

/// The rows of the next layout, and the walk that the last row `walk` made.
#[derive(Drop)]
pub struct WalkCalls {
    rows: Vec<VdevRow>,
    opened: Option<Opened>,
}

fn text(alloc: Global, word: &str) -> Result<String, AllocError> {
    String::from_str(alloc, word)
}

fn class_of(word: &str) -> Option<Class> {
    match word {
        "normal" => Some(Class::Normal),
        "log" => Some(Class::Log),
        "special" => Some(Class::Special),
        "dedup" => Some(Class::Dedup),
        _ => None,
    }
}

fn next_text(alloc: Global, next: Next) -> Result<String, AllocError> {
    match next {
        Next::Pick { vdev, start } => match start {
            Start::Active => format!(in alloc; "pick {vdev} active"),
            Start::Top => format!(in alloc; "pick {vdev} top"),
            Start::After { weight, index } => {
                format!(in alloc; "pick {vdev} after {index} {weight}")
            }
        },
        Next::Look { id } => format!(in alloc; "look {} {}", id.vdev, id.index),
        Next::Done => text(alloc, "done"),
    }
}

/// `INDEX WEIGHT active|new`
fn got(words: &mut Words<'_>) -> Option<(Got, bool)> {
    let index = words.word().parse::<u16>().ok()?;
    let weight = words.number()?;
    match words.word() {
        "active" => Some((Got { index, weight }, true)),
        "new" => Some((Got { index, weight }, false)),
        _ => None,
    }
}

/// The vdevs of the words that are left, up to three.
fn copies(alloc: Global, words: &mut Words<'_>) -> Option<Copies> {
    let mut copies = Copies::new(alloc);
    let rest = words.rest();
    if rest.is_empty() {
        return Some(copies);
    }
    for word in rest.split(' ') {
        let vdev = Words::new(word).byte()?;
        if copies.len() >= 3 {
            return None;
        }
        copies.push(Dva {
            class: Class::Normal,
            vdev,
            offset: 0,
            size: 4096,
        });
    }
    Some(copies)
}

/// A call on the walk that is there.
fn act(
    alloc: Global,
    opened: &mut Opened,
    name: &str,
    words: &mut Words<'_>,
) -> Result<String, AllocError> {
    let called = match name {
        "none" => opened.picked(None, false),
        "got" => match got(words) {
            Some((got, was_active)) => opened.picked(Some(got), was_active),
            None => false,
        },
        "failed" => opened.failed(),
        "looked" => return format!(in alloc; "{}", opened.looked()),
        _ => false,
    };
    if called {
        next_text(alloc, opened.next())
    } else {
        text(alloc, "no call")
    }
}

impl WalkCalls {
    pub fn new(alloc: Global) -> Self {
        WalkCalls {
            rows: Vec::new(alloc),
            opened: None,
        }
    }

    /// `CLASS METASLABS`: one vdev more.
    fn vdev(&mut self, alloc: Global, words: &mut Words<'_>) -> Result<String, AllocError> {
        let Some(class) = class_of(words.word()) else {
            return text(alloc, "no call");
        };
        let Some(metaslabs) = words.word().parse::<u16>().ok() else {
            return text(alloc, "no call");
        };
        self.rows.push(VdevRow {
            class,
            ashift: 12,
            units: 256,
            metaslabs,
        })?;
        format!(in alloc; "{}", self.rows.len())
    }

    /// `CLASS ROTOR VDEV ..`: a walk over the vdevs so far, of which none is left then; the last ones hold earlier copies.
    fn walk(&mut self, alloc: Global, words: &mut Words<'_>) -> Result<String, AllocError> {
        let layout = Layout {
            flush: 2,
            log: 64,
            vdevs: Items::from_vec(mem::replace(&mut self.rows, Vec::new(alloc))),
        };
        let (Some(class), Some(rotor)) = (class_of(words.word()), words.byte()) else {
            return text(alloc, "no call");
        };
        let Some(earlier) = copies(alloc, words) else {
            return text(alloc, "no call");
        };
        match Opened::new(alloc, class, layout, rotor, &earlier) {
            Some(opened) => {
                let answer = next_text(alloc, opened.next())?;
                self.opened = Some(opened);
                Ok(answer)
            }
            None => text(alloc, "no call"),
        }
    }
}

impl Calls for WalkCalls {
    fn answer(&mut self, alloc: Global, words: &mut Words<'_>) -> Result<String, AllocError> {
        match words.word() {
            "vdev" => self.vdev(alloc, words),
            "walk" => self.walk(alloc, words),
            name => match &mut self.opened {
                Some(opened) => act(alloc, opened, name, words),
                None => text(alloc, "no call"),
            },
        }
    }
}
