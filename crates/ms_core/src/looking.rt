//! Which units of a segment are not what their giver back takes them for.
ghost use Rattle.std.specs.Prelude.{◌≡◌, ℕ, ◌+◌, ◌<◌, ◌≤◌, ◌||◌, Bool, true, false, Some, IfSome, IfNone, IsTrue};
ghost use Rattle.zms_units.specs.Segments.{end_of, covers, Covers};
ghost use Rattle.seg_trees.specs.Sets.{IsSegment};
ghost use Rattle.ms_model.specs.Origin.{Origin};
ghost use Rattle.ms_model.specs.Units.{LastAct, granted, act_on, last_act};
ghost use Rattle.ms_model.specs.Legal.{IsLegal, IsLowestLacking};
ghost use Rattle.ms_core.specs.Asked.{Finds, in_any, IsSettleBefore};

use crate::stepping;
use crate::tree::Tree;
use ms_model::{Act, Noted};
use seg_trees::SegTrees;
use zms_units::{Group, MAX_UNITS, Seg};

/// The lower of two units, where there is one.
pub(crate) fn lower(one: Option<u32>, other: Option<u32>, seg: Seg) -> Option<u32>
    ensures { (p q : ℕ → Bool) → Finds p seg one → Finds q seg other → Finds (λ u. p u || q u) seg result }
{
    match (one, other) {
        (Some(one), Some(other)) => Some(one.min(other)),
        (Some(one), None) => Some(one),
        (None, other) => other,
    }
}

/// The lowest unit of a segment that is in one of these trees.
pub(crate) fn lowest_in<R: SegTrees>(trees: &R, names: &[Tree], seg: Seg) -> Option<u32>
    requires segment { IsSegment seg }
    ensures { Finds (in_any (R.set trees.now) names.now) seg result }
{
    let mut found = None;
    for tree in names {
        found = lower(found, stepping::meets(trees, *tree, seg), seg);
    }
    found
}

/// The segment whose units a note changes, and whether it is a grant of this group by this lane. `None` where it changes
/// no unit.
fn change_of(note: Noted, lane: u8, group: Group) -> Option<(Seg, bool)>
    ensures none { IfNone result ((so_far : LastAct) (u : ℕ) → act_on u so_far note.lane note.act ≡ so_far) }
    ensures outside { IfSome result (λ change. (so_far : LastAct) (u : ℕ) → covers change.0 u ≡ false → act_on u so_far note.lane note.act ≡ so_far) }
    ensures own { IfSome result (λ change. change.1 ≡ true → (so_far : LastAct) (u : ℕ) → covers change.0 u ≡ true → act_on u so_far note.lane note.act ≡ granted (Some lane) group.0) }
    ensures other { IfSome result (λ change. change.1 ≡ false → (so_far : LastAct) (u : ℕ) → covers change.0 u ≡ true → act_on u so_far note.lane note.act ≡ granted (Some lane) group.0 → ⊥) }
{
    match note.act {
        Act::Grant { group: other, seg } => { Some((seg, note.lane == lane && other.0 == group.0)) }
        Act::Free { seg, .. } | Act::Unalloc { seg, .. } => Some((seg, false)),
        _ => None,
    }
}

/// Was another group settled so long ago that no grant of this group stands before it?
fn is_long_ago(act: Act, group: Group) -> bool
    ensures { IsTrue result → IsSettleBefore act group.0 }
{
    match act {
        Act::Settle { group: settled } => group.0 >= 3 && settled.0 <= group.0 - 3,
        _ => false,
    }
}

/// How many units at the front of a segment one note decides, where it is a grant of this group by this lane, and 0
/// where the first unit's last act is no such grant. Looks back through the notes, newest first, to the settle of the
/// group three before this one.
fn own_front(notes: &[Noted], lane: u8, group: Group, seg: Seg) -> u32
    requires { IsSegment seg }
    ensures within { result ≤ seg.count }
    ensures own { (o : Origin) (u : ℕ) → IsLegal o notes.now → seg.start ≤ u → u < seg.start + result → last_act o notes.now u ≡ granted (Some lane) group.0 }
    ensures none { (o : Origin) → IsLegal o notes.now → result ≡ 0 → last_act o notes.now seg.start ≡ granted (Some lane) group.0 → ⊥ }
{
    let mut count = seg.count;
    let mut i = notes.len();
    while i > 0 {
        i -= 1;
        if is_long_ago(notes[i].act, group) {
            return 0;
        }
        let Some((changed, own)) = change_of(notes[i], lane, group) else {
            continue;
        };
        if changed.start > seg.start {
            count = count.min(changed.start - seg.start);
        } else if seg.start - changed.start < changed.count {
            let left = changed.count - (seg.start - changed.start);
            return if own { count.min(left) } else { 0 };
        }
    }
    0
}

/// The lowest unit of a segment whose last act is not a grant of this group by this lane, as a journal says. For each
/// piece that was granted at once it looks back through the notes, newest first, to the settle of the group three
/// before this one.
pub(crate) fn first_foreign(notes: &[Noted], lane: u8, group: Group, seg: Seg) -> Option<u32>
    requires { IsSegment seg }
    ensures found { (o : Origin) → IsLegal o notes.now → IfSome result (IsLowestLacking (λ u. last_act o notes.now u ≡ granted (Some lane) group.0) seg) }
    ensures none { (o : Origin) → IsLegal o notes.now → IfNone result ((u : ℕ) → Covers seg u → last_act o notes.now u ≡ granted (Some lane) group.0) }
{
    let end = seg.start + seg.count;
    let mut at = seg.start;
    while at < end {
        let rest = Seg {
            start: at,
            count: end - at,
        };
        let count = own_front(notes, lane, group, rest);
        if count == 0 {
            return Some(at);
        }
        at += count;
    }
    None
}
