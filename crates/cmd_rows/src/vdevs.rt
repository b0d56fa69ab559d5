//! Texts by which the vdevs of a new pool are asked for.

use crate::answers::class_word;
use row_tables::{Calls, Words};
use std::alloc::{AllocError, Global};
use std::fmt::Write;
use vdev_text::read_spec;
use zms_units::VdevRow;

/// Rows that keep nothing from one to the next.
#[derive(Drop)]
pub struct VdevCalls;

impl Calls for VdevCalls {
    fn answer(&mut self, alloc: Global, words: &mut Words<'_>) -> Result<String, AllocError> {
        match read_spec(words.rest().as_bytes()) {
            Some(vdevs) => vdevs_text(alloc, vdevs.as_slice()),
            None => String::from_str(alloc, "none"),
        }
    }
}

/// Each vdev by its class, shift, units and metaslabs.
fn vdevs_text(alloc: Global, vdevs: &[VdevRow]) -> Result<String, AllocError> {
    let mut text = String::new(alloc);
    for row in vdevs {
        let VdevRow {
            class,
            ashift,
            units,
            metaslabs,
        } = *row;
        let front = if text.is_empty() { "" } else { "; " };
        let class = class_word(class);
        write!(text, "{front}{class} {ashift} {units} {metaslabs}")?;
    }
    Ok(text)
}
