//! Segments as tables write them, `START:COUNT` for each.

ghost use Rattle.std.specs.Prelude.{◌≡◌, ◌+◌, true};
ghost use Rattle.zms_units.specs.Segments.{AreRisingFrom, AreSegs};
ghost use Rattle.zms_units.specs.Apart.{AreApartFrom};

use crate::Words;
use std::alloc::{AllocError, Global};
use std::fmt::Write;
use zms_units::Seg;

/// The segments of the words that are left, none where one of them is no segment.
pub fn read_segs(alloc: Global, words: &mut Words<'_>) -> Result<Option<Vec<Seg>>, AllocError> {
    let mut segs = Vec::new(alloc);
    let rest = words.rest();
    if rest.is_empty() {
        return Ok(Some(segs));
    }
    for word in rest.split(' ') {
        let Some((start, count)) = Words::new(word).pair() else {
            return Ok(None);
        };
        segs.push(Seg { start, count })?;
    }
    Ok(Some(segs))
}

/// The text of segments, `none` where there is none.
pub fn segs_text(alloc: Global, segs: &[Seg]) -> Result<String, AllocError> {
    let mut text = String::new(alloc);
    for seg in segs {
        if !text.is_empty() {
            text.push_str(" ")?;
        }
        write!(text, "{}:{}", seg.start, seg.count)?;
    }
    if text.is_empty() {
        return String::from_str(alloc, "none");
    }
    Ok(text)
}

/// Whether segments are not empty, rise, do not overlap, and lie from `low` to so many units.
pub fn rise_from(low: u32, units: u32, segs: &[Seg]) -> bool
    ensures { result ≡ true → AreRisingFrom low units segs.now }
{
    match segs {
        [] => low <= units,
        [seg, rest @ ..] => {
            low <= seg.start
                && seg.count > 0
                && seg.count <= u32::MAX - seg.start
                && rise_from(seg.start + seg.count, units, rest)
        }
    }
}

/// Whether segments are not empty, rise, do not overlap, and lie within so many units.
pub fn are_segs(units: u32, segs: &[Seg]) -> bool
    ensures { result ≡ true → AreSegs units segs.now }
{
    rise_from(0, units, segs)
}

/// Whether segments are not empty, rise, do not touch, and lie from `low` on below `next`.
pub fn are_apart_from(low: u32, next: u32, segs: &[Seg]) -> bool
    ensures { result ≡ true → AreApartFrom low next segs.now }
{
    match segs {
        [] => low <= next,
        [seg, rest @ ..] => {
            low <= seg.start
                && seg.count > 0
                && seg.count < u32::MAX - seg.start
                && are_apart_from(seg.start + seg.count + 1, next, rest)
        }
    }
}
