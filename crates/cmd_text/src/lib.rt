//! Command files: lines of text in, commands out.
//!
//! To the layer above it promises that `read_commands` is the inverse of the grammar (`specs/Grammar.antt`): a text that is
//! in it and within the limits gives its script, and any other the number of its first line that isn't
//! (`specs/Files.antt`), and no text is both. The bytes of names, numbers and classes are read by calls of their own
//! (`fields`), for the other texts that have them.
#![tactic(auto)]

pub mod fields;
pub mod laws;
mod lines;
mod past;
mod reader;
mod reading;
mod script;

pub use past::first_past;
pub use reading::{Front, read_commands, read_front};
pub use script::{Command, MAKE_LANES, MAX_LINE_BYTES, MAX_WORKERS, Make, Script, TextFault, What};
