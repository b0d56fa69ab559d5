//! Calls on a pool.
use crate::asked::{class_of, meanwhile_of, refusal_of, vdev_of};
use crate::journals::read_journals;
use crate::pool::Pool;
use crate::texts::{alloc_text, freed_text, granted_text, text};
use row_tables::{Calls, Words, read_segs};
use std::alloc::{AllocError, Global};
use std::mem;
use std::sync::Wait;
use zms_units::{Block, VdevRow};

/// The vdevs of the next pool, and the pool that the last row `open` made, with the blocks that it granted; or, behind a row
/// `end`, the lines of its journals that are left, the last one first.
#[derive(Drop)]
pub struct BlockCalls<'a, W: Wait + Drop> {
    rt: &'a W,
    vdevs: Vec<VdevRow>,
    weights: Vec<u64>,
    pool: Option<Pool>,
    blocks: Vec<Block>,
    lines: Vec<String>,
}

/// `SIZE CLASS COPIES`; a block that was granted is the next of the list.
fn alloc<W: Wait>(
    rt: &W,
    memory: Global,
    pool: &mut Pool,
    blocks: &mut Vec<Block>,
    words: &mut Words<'_>,
) -> Result<String, AllocError> {
    let (Some(size), Some(class), Some(copies)) = (
        words.number(),
        class_of(words.word()),
        words.byte(),
    ) else {
        return text(memory, "no call");
    };
    match pool.alloc(rt, memory, size, class, copies) {
        Ok(block) => {
            let answer = granted_text(memory, &block)?;
            blocks.push(block)?;
            Ok(answer)
        }
        Err(fault) => alloc_text(memory, fault),
    }
}

/// `NUMBER`: the block of this number, from 0 on, in the order in which they were granted.
fn free<W: Wait>(
    rt: &W,
    memory: Global,
    pool: &mut Pool,
    blocks: &[Block],
    words: &mut Words<'_>,
) -> Result<String, AllocError> {
    let Some(block) = words.small().and_then(|number| blocks.get(number as usize)) else {
        return text(memory, "no call");
    };
    if block.copies.len() > 3 {
        return text(memory, "no call");
    }
    freed_text(memory, pool.free_block(rt, block))
}

/// `VDEV OFFSET SIZE`
fn free_seg<W: Wait>(
    rt: &W,
    memory: Global,
    pool: &mut Pool,
    words: &mut Words<'_>,
) -> Result<String, AllocError> {
    let (Some(vdev), Some(offset), Some(size)) = (words.byte(), words.number(), words.number())
    else {
        return text(memory, "no call");
    };
    freed_text(memory, pool.free_seg(rt, vdev, offset, size))
}

/// `START:COUNT ..`: from these runs metaslabs are loaded from now on.
fn hold(memory: Global, pool: &mut Pool, words: &mut Words<'_>) -> Result<String, AllocError> {
    let Some(held) = read_segs(memory, words)? else {
        return text(memory, "no call");
    };
    pool.hold(held);
    text(memory, "done")
}

/// As `meanwhile_of` reads it: what others do before the next load.
fn meanwhile(memory: Global, pool: &mut Pool, words: &mut Words<'_>) -> Result<String, AllocError> {
    let Some(meanwhile) = meanwhile_of(words) else {
        return text(memory, "no call");
    };
    pool.meanwhile(meanwhile);
    text(memory, "done")
}

impl<'a, W: Wait + Drop> BlockCalls<'a, W> {
    pub fn new(rt: &'a W, memory: Global) -> Self {
        BlockCalls {
            rt,
            vdevs: Vec::new(memory),
            weights: Vec::new(memory),
            pool: None,
            blocks: Vec::new(memory),
            lines: Vec::new(memory),
        }
    }

    /// One vdev more, as `vdev_of` reads it.
    fn vdev(&mut self, memory: Global, words: &mut Words<'_>) -> Result<String, AllocError> {
        let Some((row, weight)) = vdev_of(words) else {
            return text(memory, "no call");
        };
        for _ in 0..row.metaslabs {
            self.weights.push(weight)?;
        }
        self.vdevs.push(row)?;
        format!(in memory; "{}", self.vdevs.len())
    }

    /// Opens a pool of the vdevs so far, of which none is left then.
    fn open(&mut self, memory: Global) -> Result<String, AllocError> {
        let vdevs = mem::replace(&mut self.vdevs, Vec::new(memory));
        let weights = mem::replace(&mut self.weights, Vec::new(memory));
        self.blocks.clear();
        self.pool = Pool::new(memory, vdevs, weights)?;
        text(
            memory,
            if self.pool.is_some() {
                "done"
            } else {
                "no call"
            },
        )
    }

    /// Ends the pool, and answers how many lines its journals have.
    fn end(&mut self, memory: Global) -> Result<String, AllocError> {
        match self.pool.take() {
            Some(pool) => {
                self.lines = read_journals(self.rt, memory, pool)?;
                format!(in memory; "{}", self.lines.len())
            }
            None => text(memory, "no call"),
        }
    }

    /// The next line of the journals.
    fn line(&mut self, memory: Global) -> Result<String, AllocError> {
        match self.lines.pop() {
            Some(line) => Ok(line),
            None => text(memory, "none"),
        }
    }

    /// A call on the pool that is there.
    fn act(
        &mut self,
        memory: Global,
        name: &str,
        words: &mut Words<'_>,
    ) -> Result<String, AllocError> {
        let Some(pool) = &mut self.pool else {
            return text(memory, "no call");
        };
        match name {
            "alloc" => alloc(self.rt, memory, pool, &mut self.blocks, words),
            "free" => free(self.rt, memory, pool, &self.blocks, words),
            "freeseg" => free_seg(self.rt, memory, pool, words),
            "held" => hold(memory, pool, words),
            "meanwhile" => meanwhile(memory, pool, words),
            "refuse" => {
                pool.refuse(refusal_of(words));
                text(memory, "done")
            }
            _ => text(memory, "no call"),
        }
    }
}

impl<W: Wait + Drop> Calls for BlockCalls<'_, W> {
    fn answer(&mut self, memory: Global, words: &mut Words<'_>) -> Result<String, AllocError> {
        match words.word() {
            "vdev" => self.vdev(memory, words),
            "open" => self.open(memory),
            "end" => self.end(memory),
            "line" => self.line(memory),
            name => self.act(memory, name, words),
        }
    }
}
