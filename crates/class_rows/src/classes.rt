//! Calls on a class.
use crate::opened::Opened;
use class_core::Picked;
use ms_model::{Kind, Start};
use row_tables::{Calls, Words};
use std::alloc::{AllocError, Global};
use std::mem;
use vdev_map::Layout;
use zms_units::{Class, Items, MsId, VdevRow};

/// The rows and the weights of the next class, and the one that the last row `open` made.
#[derive(Drop)]
pub struct ClassCalls {
    rows: Vec<VdevRow>,
    weights: Vec<u64>,
    opened: Option<Opened>,
}

fn text(alloc: Global, word: &str) -> Result<String, AllocError> {
    String::from_str(alloc, word)
}

fn class_of(word: &str) -> Option<Class> {
    match word {
        "normal" => Some(Class::Normal),
        "log" => Some(Class::Log),
        "special" => Some(Class::Special),
        "dedup" => Some(Class::Dedup),
        _ => None,
    }
}

fn kind_of(word: &str) -> Option<Kind> {
    match word {
        "primary" => Some(Kind::Primary),
        "secondary" => Some(Kind::Secondary),
        _ => None,
    }
}

fn index_of(words: &mut Words<'_>) -> Option<u16> {
    words.word().parse::<u16>().ok()
}

/// `active`, `top` or `after INDEX WEIGHT`
fn start_of(words: &mut Words<'_>) -> Option<Start> {
    match words.word() {
        "active" => Some(Start::Active),
        "top" => Some(Start::Top),
        "after" => {
            let index = index_of(words)?;
            let weight = words.hex()?;
            Some(Start::After { weight, index })
        }
        _ => None,
    }
}

fn id_of(words: &mut Words<'_>) -> Option<MsId> {
    let vdev = words.byte()?;
    let index = index_of(words)?;
    Some(MsId { vdev, index })
}

fn begin_text(alloc: Global, opened: &Opened) -> Result<String, AllocError> {
    match opened.begin() {
        Some(vdev) => format!(in alloc; "begin {vdev}"),
        None => text(alloc, "begin none"),
    }
}

fn picked_text(alloc: Global, picked: Option<Picked>) -> Result<String, AllocError> {
    let Some(picked) = picked else {
        return text(alloc, "none");
    };
    let how = if picked.was_active { "active" } else { "new" };
    format!(in alloc; "{} {:016x} {how}", picked.index, picked.weight)
}

/// `LANE KIND VDEV BYTES START`
fn pick(alloc: Global, opened: &mut Opened, words: &mut Words<'_>) -> Result<String, AllocError> {
    let (Some(lane), Some(kind), Some(vdev), Some(bytes), Some(start)) = (
        words.byte(),
        kind_of(words.word()),
        words.byte(),
        words.number(),
        start_of(words),
    ) else {
        return text(alloc, "no call");
    };
    match opened.pick(lane, kind, vdev, bytes, start)? {
        Some(picked) => picked_text(alloc, picked),
        None => text(alloc, "no call"),
    }
}

/// `LANE VDEV INDEX BYTES WEIGHT`
fn granted(
    alloc: Global,
    opened: &mut Opened,
    words: &mut Words<'_>,
) -> Result<String, AllocError> {
    let (Some(lane), Some(id), Some(bytes), Some(weight)) = (
        words.byte(),
        id_of(words),
        words.number(),
        words.hex(),
    ) else {
        return text(alloc, "no call");
    };
    if opened.granted(lane, id, bytes, weight)? {
        begin_text(alloc, opened)
    } else {
        text(alloc, "no call")
    }
}

/// `LANE VDEV INDEX WEIGHT`, of a metaslab that was missed or that is weighed
fn posted(
    alloc: Global,
    opened: &mut Opened,
    is_miss: bool,
    words: &mut Words<'_>,
) -> Result<String, AllocError> {
    let (Some(lane), Some(id), Some(weight)) = (words.byte(), id_of(words), words.hex()) else {
        return text(alloc, "no call");
    };
    let called = if is_miss {
        opened.missed(lane, id, weight)?
    } else {
        opened.weigh(lane, id, weight)?
    };
    text(alloc, if called { "done" } else { "no call" })
}

/// A call on the class that is there.
fn act(
    alloc: Global,
    opened: &mut Opened,
    name: &str,
    words: &mut Words<'_>,
) -> Result<String, AllocError> {
    match name {
        "pick" => pick(alloc, opened, words),
        "granted" => granted(alloc, opened, words),
        "missed" => posted(alloc, opened, true, words),
        "weigh" => posted(alloc, opened, false, words),
        _ => text(alloc, "no call"),
    }
}

impl ClassCalls {
    pub fn new(alloc: Global) -> Self {
        ClassCalls {
            rows: Vec::new(alloc),
            weights: Vec::new(alloc),
            opened: None,
        }
    }

    /// `CLASS WEIGHT ..`: one vdev more, with its metaslabs' weights.
    fn vdev(&mut self, alloc: Global, words: &mut Words<'_>) -> Result<String, AllocError> {
        let Some(class) = class_of(words.word()) else {
            return text(alloc, "no call");
        };
        let mut metaslabs = 0u16;
        for word in words.rest().split(' ') {
            let Some(weight) = Words::new(word).hex() else {
                return text(alloc, "no call");
            };
            self.weights.push(weight)?;
            metaslabs = metaslabs.saturating_add(1);
        }
        self.rows.push(VdevRow {
            class,
            ashift: 12,
            units: 256,
            metaslabs,
        })?;
        format!(in alloc; "{metaslabs}")
    }

    /// `CLASS`: opens the class of the vdevs so far, of which none is left then.
    fn open(&mut self, alloc: Global, words: &mut Words<'_>) -> Result<String, AllocError> {
        let Some(class) = class_of(words.word()) else {
            return text(alloc, "no call");
        };
        let layout = Layout {
            flush: 2,
            log: 64,
            vdevs: Items::from_vec(mem::replace(&mut self.rows, Vec::new(alloc))),
        };
        let weights = mem::replace(&mut self.weights, Vec::new(alloc));
        match Opened::new(alloc, class, layout, &weights)? {
            Some(opened) => {
                let answer = begin_text(alloc, &opened)?;
                self.opened = Some(opened);
                Ok(answer)
            }
            None => text(alloc, "no call"),
        }
    }

    /// Ends the class, and answers how many notes its journal has.
    fn end(&mut self, alloc: Global) -> Result<String, AllocError> {
        match self.opened.take() {
            Some(opened) => {
                let journal = opened.into_journal();
                format!(in alloc; "notes {}", journal.notes.len())
            }
            None => text(alloc, "no call"),
        }
    }
}

impl Calls for ClassCalls {
    fn answer(&mut self, alloc: Global, words: &mut Words<'_>) -> Result<String, AllocError> {
        match words.word() {
            "vdev" => self.vdev(alloc, words),
            "open" => self.open(alloc, words),
            "end" => self.end(alloc),
            name => match &mut self.opened {
                Some(opened) => act(alloc, opened, name, words),
                None => text(alloc, "no call"),
            },
        }
    }
}
