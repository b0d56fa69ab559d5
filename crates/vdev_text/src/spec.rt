//! The whole text.
ghost use Rattle.std.specs.Prelude.{◌≡◌, List, Some, IfSome, IfNone};
ghost use Rattle.std.specs.Bool.{OnTrue, OnFalse};
ghost use Rattle.zms_units.specs.declared.places.VdevRow.{VdevRow};
ghost use Rattle.vdev_text.specs.Specs.{IsSpec};
ghost use Rattle.vdev_text.specs.Reading.{IsRead, Adds, Refuses};

use crate::totals::are_few;
use crate::vdev::{cut, read_vdev};
use crate::vdevs::{MAX_VDEVS, Vdevs};

/// Adds the vdev of a text, and says whether it is one and has room.
fn add(vdevs: &mut Vdevs, text: &[u8]) -> bool
    ensures added { OnTrue result (Adds vdevs.old text.now vdevs.new) }
    ensures refused { OnFalse result (Refuses vdevs.old text.now) }
{
    if vdevs.len() == MAX_VDEVS {
        return false;
    }
    let Some(row) = read_vdev(text) else {
        return false;
    };
    vdevs.push(row);
    true
}

/// The vdevs of a text, each of which is within its own limits.
fn read_vdevs(text: &[u8]) -> Option<Vdevs>
    ensures read { IfSome result (λ vdevs. IsRead text.now vdevs) }
    ensures only { (rows : List VdevRow) → IsRead text.now rows → result ≡ Some rows }
{
    let mut vdevs = Vdevs::new();
    let mut rest = text;
    while let Some((one, behind)) = cut(rest, b',') {
        if !add(&mut vdevs, one) {
            return None;
        }
        rest = behind;
    }
    if add(&mut vdevs, rest) {
        Some(vdevs)
    } else {
        None
    }
}

/// The vdevs that a text asks for; none exactly where it is outside the grammar or passes a limit of a pool.
///
/// Linear in the text. Takes no memory.
pub fn read_spec(text: &[u8]) -> Option<Vdevs>
    ensures some { IfSome result (λ vdevs. IsSpec text.now vdevs) }
    ensures none { IfNone result ((rows : List VdevRow) → IsSpec text.now rows → ⊥) }
    ensures only { (rows : List VdevRow) → IsSpec text.now rows → result ≡ Some rows }
{
    let vdevs = read_vdevs(text)?;
    if are_few(vdevs.as_slice()) {
        Some(vdevs)
    } else {
        None
    }
}
