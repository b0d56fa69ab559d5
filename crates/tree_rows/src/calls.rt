//! The calls of the table.

use crate::both::random_calls;
use crate::orders::in_order;
use crate::pools::{grow, take_and_give};
use crate::runs::{best_of_many, spare_after, vacate};
use row_tables::{Calls, Words};
use seg_trees::Steps;
use std::alloc::{AllocError, Global};
use std::sync::ledger::Ledger;
use zms_units::Seg;

/// The steps that the searches of all rows count.
#[derive(Drop)]
pub struct RowCalls<L: Ledger> {
    steps: Steps<L>,
}

impl<L: Ledger> RowCalls<L> {
    pub fn new(steps: Steps<L>) -> Self {
        RowCalls { steps }
    }

    /// The call, none where a word is missing.
    fn call(&mut self, alloc: Global, words: &mut Words<'_>) -> Result<Option<String>, AllocError> {
        let name = words.word();
        match (name, words.small(), words.small()) {
            ("pool", Some(room), Some(node)) => take_and_give(alloc, room, node),
            ("grow", Some(room), Some(more)) => grow(alloc, room, more),
            ("order", Some(key), Some(asked)) => in_order(alloc, key, asked),
            ("reserve", Some(room), _) => spare_after(alloc, room),
            ("best", Some(runs), Some(count)) => {
                best_of_many(alloc, runs, count, &mut self.steps)
            }
            ("vacate", Some(first), Some(second)) => {
                let first = Seg {
                    start: first,
                    count: 4,
                };
                let second = Seg {
                    start: second,
                    count: 4,
                };
                vacate(alloc, first, second, &mut self.steps)
            }
            ("random", Some(calls), Some(seed)) => {
                random_calls(alloc, calls, seed, &mut self.steps)
            }
            _ => Ok(None),
        }
    }
}

impl<L: Ledger> Calls for RowCalls<L> {
    fn answer(&mut self, alloc: Global, words: &mut Words<'_>) -> Result<String, AllocError> {
        match self.call(alloc, words)? {
            Some(answer) => Ok(answer),
            None => String::from_str(alloc, "no call"),
        }
    }
}
