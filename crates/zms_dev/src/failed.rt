// The one error of the outside.
use std::error::Error;
use std::fmt;

/// A device, a source or a sink has failed, and has counted it.
#[derive(Clone, Copy, Debug, PartialEq, Eq)]
pub struct Failed;

impl fmt::Display for Failed {
    fn fmt<W: fmt::Write>(&self, f: &mut fmt::Formatter<W>) -> fmt::Result {
        write!(f, "input or output failed")
    }
}

impl Error for Failed {}
