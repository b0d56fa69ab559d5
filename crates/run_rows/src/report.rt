//! What differs from what a row wants.

use crate::calls::Left;
use crate::folders::Asked;
use crate::images::Image;
use std::io;

/// The place of a call among the rows, and whether something differs there.
#[derive(Drop)]
pub struct Report<'a> {
    pub place: &'a str,
    pub differs: bool,
}

impl Report<'_> {
    pub fn tell<R: Print>(&mut self, rt: &R, what: &str, detail: &str) -> io::Result<()> {
        self.differs = true;
        println!(rt; "{}: {what}: {detail}", self.place)
    }

    pub fn require<R: Print>(&mut self, rt: &R, what: &str, holds: bool) -> io::Result<()> {
        if holds {
            Ok(())
        } else {
            self.tell(rt, what, "does not hold")
        }
    }

    /// Compares bytes, and tells where they part.
    fn compare<R: Print + AllocGlobal>(
        &mut self,
        rt: &R,
        what: &str,
        wanted: &[u8],
        given: &[u8],
    ) -> io::Result<()> {
        if wanted == given {
            return Ok(());
        }
        let detail = format!(in rt.alloc();
            "{} bytes wanted, {} found, which part at byte {}",
            wanted.len(),
            given.len(),
            same_bytes(wanted, given)
        )?;
        self.tell(rt, what, detail.as_str())
    }
}

/// How many bytes are the same before the first that differs.
fn same_bytes(wanted: &[u8], given: &[u8]) -> usize {
    for (at, byte) in wanted.iter().enumerate() {
        if given.get(at) != Some(byte) {
            return at;
        }
    }
    wanted.len()
}

/// Compares what a device reads as with what is wanted.
fn compare_device<R: Print + AllocGlobal>(
    rt: &R,
    report: &mut Report<'_>,
    wanted: &Image,
    given: &Image,
) -> io::Result<()> {
    let Some(place) = wanted.parts_at(given) else {
        return Ok(());
    };
    let detail = format!(in rt.alloc();
        "{} bytes wanted, {} found, which part at byte {place}",
        wanted.length(),
        given.length()
    )?;
    report.tell(rt, "left", detail.as_str())
}

/// Compares what a call left with what is wanted. `before` is what the device had.
pub fn compare_all<R: Print + AllocGlobal>(
    rt: &R,
    report: &mut Report<'_>,
    asked: &Asked,
    before: &Image,
    left: &Left,
) -> io::Result<()> {
    if asked.status != left.status {
        let detail = format!(in rt.alloc(); "wanted {}, found {}", asked.status, left.status)?;
        report.tell(rt, "status", detail.as_str())?;
    }
    report.compare(rt, "printed", &asked.printed, &left.printed)?;
    report.compare(rt, "traced", &asked.traced, &left.traced)?;
    report.compare(rt, "told", &asked.told, left.told.as_bytes())?;
    let kept = match &asked.left {
        Some(image) => image,
        None => before,
    };
    compare_device(rt, report, kept, left.disk.seen())?;
    let untouched = left.status != 6 || left.disk.is_untouched();
    report.require(rt, "a refused pool is untouched", untouched)
}
