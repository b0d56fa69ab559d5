//! Weights of histograms, and which sizes they pass over.

use crate::space::bad;
use ms_weight::{passes_over, weight_of};
use row_tables::{Calls, Words};
use std::alloc::{AllocError, Global};
use zms_units::Histogram;

/// Rows that keep nothing from one to the next.
#[derive(Drop)]
pub struct WeightCalls;

impl Calls for WeightCalls {
    fn answer(&mut self, alloc: Global, words: &mut Words<'_>) -> Result<String, AllocError> {
        match words.word() {
            "weight" => match histogram(words) {
                Some(hist) => format!(in alloc; "{:016x}", weight_of(&hist)),
                None => bad(alloc),
            },
            "passes" => match (words.hex(), words.number()) {
                (Some(weight), Some(bytes)) => format!(in alloc; "{}", passes_over(weight, bytes)),
                _ => bad(alloc),
            },
            _ => bad(alloc),
        }
    }
}

/// The histogram of words `BUCKET:COUNT`, whose other buckets are empty.
fn histogram(words: &mut Words<'_>) -> Option<Histogram> {
    let mut hist = Histogram { runs: [0; 64] };
    for word in words.rest().split(' ') {
        if !word.is_empty() {
            let (bucket, count) = Words::new(word).pair()?;
            if bucket >= 64 {
                return None;
            }
            hist.runs[bucket as usize] = count;
        }
    }
    Some(hist)
}
