//! Sizes in units, the runs of a list, and the fit among them.

use fit_rule::fit;
use row_tables::{Calls, Words, are_apart_from, read_segs};
use std::alloc::{AllocError, Global};
use zms_units::{BadSize, FreeRuns, Group, PlainRuns, Seg, units_of};

/// The vacant runs that the last row `runs` named, within so many units.
#[derive(Drop)]
pub struct SpaceCalls {
    runs: Vec<Seg>,
    range: u32,
}

impl SpaceCalls {
    pub fn new(alloc: Global) -> Self {
        SpaceCalls {
            runs: Vec::new(alloc),
            range: 64,
        }
    }

    /// The runs, where they are not empty, rise and do not touch.
    fn vacant(&self) -> Option<PlainRuns<'_>> {
        if self.range < 1_000_000 && are_apart_from(0, self.range + 1, &self.runs) {
            Some(PlainRuns::new(&self.runs, self.range))
        } else {
            None
        }
    }

    /// `runs UNITS START:COUNT ..`
    fn set_runs(&mut self, alloc: Global, words: &mut Words<'_>) -> Result<String, AllocError> {
        let (Some(range), Some(runs)) = (words.small(), read_segs(alloc, words)?) else {
            return bad(alloc);
        };
        self.range = range;
        self.runs = runs;
        match self.vacant() {
            Some(vacant) => format!(in alloc;
                "{} of {}, largest {}",
                vacant.units(),
                vacant.range(),
                vacant.largest()
            ),
            None => bad(alloc),
        }
    }

    /// `first COUNT FROM`
    fn first(&self, alloc: Global, words: &mut Words<'_>) -> Result<String, AllocError> {
        match (self.vacant(), words.small(), words.small()) {
            (Some(vacant), Some(count), Some(from)) => {
                seg_text(alloc, vacant.first_from(count, from))
            }
            _ => bad(alloc),
        }
    }

    /// `best COUNT`
    fn best(&self, alloc: Global, words: &mut Words<'_>) -> Result<String, AllocError> {
        match (self.vacant(), words.small()) {
            (Some(vacant), Some(count)) => seg_text(alloc, vacant.best(count)),
            _ => bad(alloc),
        }
    }

    /// `fit ASHIFT COUNT BIT CURSOR`, where the cursors of other bits are 0.
    fn fit(&self, alloc: Global, words: &mut Words<'_>) -> Result<String, AllocError> {
        let (Some(vacant), Some(ashift)) = (self.vacant(), words.byte()) else {
            return bad(alloc);
        };
        let (Some(count), Some(bit), Some(cursor)) = (words.small(), words.byte(), words.small())
        else {
            return bad(alloc);
        };
        if ashift < 9 || ashift > 12 || count < 1 || count > 131_072 || bit >= 18 {
            return bad(alloc);
        }
        let mut cursors = [0; 18];
        cursors[bit as usize] = cursor;
        seg_text(alloc, fit(&vacant, ashift, &cursors, count))
    }
}

impl Calls for SpaceCalls {
    fn answer(&mut self, alloc: Global, words: &mut Words<'_>) -> Result<String, AllocError> {
        match words.word() {
            "units" => units(alloc, words),
            "group" => group(alloc, words),
            "runs" => self.set_runs(alloc, words),
            "first" => self.first(alloc, words),
            "best" => self.best(alloc, words),
            "fit" => self.fit(alloc, words),
            _ => bad(alloc),
        }
    }
}

/// The answer to a row whose words are no call.
pub fn bad(alloc: Global) -> Result<String, AllocError> {
    String::from_str(alloc, "no call")
}

/// `units BYTES ASHIFT`
fn units(alloc: Global, words: &mut Words<'_>) -> Result<String, AllocError> {
    let (Some(size), Some(ashift)) = (words.number(), words.byte()) else {
        return bad(alloc);
    };
    if ashift < 9 || ashift > 12 {
        return bad(alloc);
    }
    match units_of(size, ashift) {
        Ok(units) => format!(in alloc; "{units}"),
        Err(BadSize) => format!(in alloc; "{BadSize}"),
    }
}

/// `group NUMBER`
fn group(alloc: Global, words: &mut Words<'_>) -> Result<String, AllocError> {
    match words.number() {
        Some(number) => format!(in alloc; "{}", Group(number)),
        None => bad(alloc),
    }
}

fn seg_text(alloc: Global, seg: Option<Seg>) -> Result<String, AllocError> {
    match seg {
        Some(seg) => format!(in alloc; "{}:{}", seg.start, seg.count),
        None => String::from_str(alloc, "none"),
    }
}
