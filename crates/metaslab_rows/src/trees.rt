//! Calls on thirteen trees of runs.

ghost use Rattle.std.specs.Prelude.{◌≡◌, true};
ghost use Rattle.seg_trees.specs.Sets.{IsSegment};

use row_tables::{Calls, Words};
use seg_trees::{SegTrees, Steps, TREES};
use std::alloc::{AllocError, Global};
use std::fmt::Write;
use std::sync::ledger::Ledger;
use zms_units::{MAX_UNITS, Seg};

/// For how many calls the row `new` takes memory.
const ROOM: u32 = 40;

/// The trees that the last row `new` made.
#[derive(Drop)]
pub struct TreeCalls<T: SegTrees, L: Ledger> {
    trees: T,
    steps: Steps<L>,
}

/// Whether a segment is not empty and within the largest metaslab.
fn is_segment(seg: Seg) -> bool
    ensures { result ≡ true → IsSegment seg }
{
    seg.count > 0 && seg.count <= MAX_UNITS && seg.start <= MAX_UNITS - seg.count
}

/// A tree's number, and a segment.
fn tree_and_seg(words: &mut Words<'_>) -> Option<(u8, Seg)> {
    let tree = words.byte()?;
    let (start, count) = words.pair()?;
    Some((tree, Seg { start, count }))
}

fn text(alloc: Global, word: &str) -> Result<String, AllocError> {
    String::from_str(alloc, word)
}

fn seg_text(alloc: Global, seg: Option<Seg>) -> Result<String, AllocError> {
    match seg {
        Some(seg) => format!(in alloc; "{}:{}", seg.start, seg.count),
        None => text(alloc, "none"),
    }
}

fn unit_text(alloc: Global, unit: Option<u32>) -> Result<String, AllocError> {
    match unit {
        Some(unit) => format!(in alloc; "{unit}"),
        None => text(alloc, "none"),
    }
}

impl<T: SegTrees + Drop, L: Ledger> TreeCalls<T, L> {
    pub fn new(alloc: Global, steps: Steps<L>) -> Self {
        TreeCalls {
            trees: T::new(alloc),
            steps,
        }
    }

    /// Ends the trees, and gives the count of their steps back.
    pub fn into_steps(self) -> Steps<L> {
        self.steps
    }

    /// Empty trees with memory for some calls.
    fn begin(&mut self, alloc: Global) -> Result<String, AllocError> {
        let mut trees = T::new(alloc);
        let before = trees.spare();
        trees.reserve(ROOM)?;
        let after = trees.spare();
        self.trees = trees;
        format!(in alloc; "spare {before} {after}")
    }

    /// Adds a segment, and answers how many runs and units the tree has then; or the unit that it meets.
    fn add(&mut self, alloc: Global, tree: u8, seg: Seg) -> Result<String, AllocError> {
        if tree >= TREES || !is_segment(seg) || self.trees.spare() == 0 {
            return text(alloc, "no call");
        }
        if let Some(unit) = self.trees.meets(tree, seg, &mut self.steps) {
            return format!(in alloc; "meets {unit}");
        }
        self.trees.add(tree, seg, &mut self.steps);
        self.size(alloc, tree)
    }

    /// Takes a segment away, and answers how many runs and units the tree has then.
    fn remove(&mut self, alloc: Global, tree: u8, seg: Seg) -> Result<String, AllocError> {
        if tree >= TREES || !is_segment(seg) || self.trees.spare() == 0 {
            return text(alloc, "no call");
        }
        if !self.trees.covers(tree, seg, &mut self.steps) {
            return text(alloc, "not covered");
        }
        self.trees.remove(tree, seg, &mut self.steps);
        self.size(alloc, tree)
    }

    fn size(&self, alloc: Global, tree: u8) -> Result<String, AllocError> {
        if tree >= TREES {
            return text(alloc, "no call");
        }
        let trees = &self.trees;
        format!(in alloc;
            "runs {} units {} largest {}",
            trees.nodes(tree),
            trees.units(tree),
            trees.largest(tree)
        )
    }

    fn look(
        &mut self,
        alloc: Global,
        covers: bool,
        tree: u8,
        seg: Seg,
    ) -> Result<String, AllocError> {
        if tree >= TREES || !is_segment(seg) {
            text(alloc, "no call")
        } else if covers {
            format!(in alloc; "{}", self.trees.covers(tree, seg, &mut self.steps))
        } else {
            unit_text(alloc, self.trees.meets(tree, seg, &mut self.steps))
        }
    }

    fn first(&mut self, alloc: Global, words: &mut Words<'_>) -> Result<String, AllocError> {
        match (words.byte(), words.small(), words.small()) {
            (Some(tree), Some(count), Some(at)) if tree < TREES => {
                seg_text(
                    alloc,
                    self.trees.first_from(tree, count, at, &mut self.steps),
                )
            }
            _ => text(alloc, "no call"),
        }
    }

    fn best(&mut self, alloc: Global, words: &mut Words<'_>) -> Result<String, AllocError> {
        match (words.byte(), words.small()) {
            (Some(tree), Some(count)) if tree < TREES => {
                seg_text(alloc, self.trees.best(tree, count, &mut self.steps))
            }
            _ => text(alloc, "no call"),
        }
    }

    fn histogram(&self, alloc: Global, words: &mut Words<'_>) -> Result<String, AllocError> {
        match (words.byte(), words.byte()) {
            (Some(tree), Some(ashift)) if tree < TREES && 9 <= ashift && ashift <= 12 => {
                let mut line = text(alloc, "buckets")?;
                let hist = self.trees.histogram(tree, ashift);
                for (bucket, count) in hist.runs.iter().enumerate() {
                    if *count != 0 {
                        write!(line, " {bucket}:{count}")?;
                    }
                }
                Ok(line)
            }
            _ => text(alloc, "no call"),
        }
    }

    /// `swap FIRST SECOND`
    fn swap(&mut self, alloc: Global, words: &mut Words<'_>) -> Result<String, AllocError> {
        match (words.byte(), words.byte()) {
            (Some(first), Some(second)) if first < TREES && second < TREES && first != second => {
                self.trees.swap(first, second);
                text(alloc, "done")
            }
            _ => text(alloc, "no call"),
        }
    }

    /// `clear TREE`
    fn clear(&mut self, alloc: Global, words: &mut Words<'_>) -> Result<String, AllocError> {
        match words.byte() {
            Some(tree) if tree < TREES => {
                self.trees.clear(tree);
                text(alloc, "done")
            }
            _ => text(alloc, "no call"),
        }
    }

    /// `xor FROM INTO START:COUNT`
    fn share(&mut self, alloc: Global, words: &mut Words<'_>) -> Result<String, AllocError> {
        let (Some(from), Some((into, seg))) = (words.byte(), tree_and_seg(words)) else {
            return text(alloc, "no call");
        };
        if from >= TREES || into >= TREES || from == into || !is_segment(seg) {
            return text(alloc, "no call");
        }
        if self.trees.spare() < seg.count {
            return text(alloc, "no spare");
        }
        self.trees.xor_into(seg, from, into);
        text(alloc, "done")
    }
}

impl<T: SegTrees + Drop, L: Ledger> Calls for TreeCalls<T, L> {
    fn answer(&mut self, alloc: Global, words: &mut Words<'_>) -> Result<String, AllocError> {
        let name = words.word();
        match name {
            "new" => self.begin(alloc),
            "first" => self.first(alloc, words),
            "best" => self.best(alloc, words),
            "histogram" => self.histogram(alloc, words),
            "swap" => self.swap(alloc, words),
            "clear" => self.clear(alloc, words),
            "xor" => self.share(alloc, words),
            "size" => match words.byte() {
                Some(tree) => self.size(alloc, tree),
                None => text(alloc, "no call"),
            },
            _ => match tree_and_seg(words) {
                Some((tree, seg)) => match name {
                    "add" => self.add(alloc, tree, seg),
                    "remove" => self.remove(alloc, tree, seg),
                    "covers" => self.look(alloc, true, tree, seg),
                    "meets" => self.look(alloc, false, tree, seg),
                    _ => text(alloc, "no call"),
                },
                None => text(alloc, "no call"),
            },
        }
    }
}
