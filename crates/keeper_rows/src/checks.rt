//! What a run left is compared with its journals, which are read here note by note.
ghost use Rattle.std.specs.Prelude.{◌≡◌, true};
ghost use Rattle.zms_units.specs.Limits.{IsShift, IsUnitCount};
ghost use Rattle.vdev_map.specs.Numbers.{IsIn};

use crate::device::{Device, Panel};
use crate::session::Ended;
use meta_store::{At, MetaStore, open};
use ms_model::{Act, GateNote, Journals, KeeperNote, MsJournal, legal};
use row_tables::are_segs;
use std::alloc::{AllocError, Global};
use std::fmt::Write;
use std::mem;
use zms_units::{Group, Items, Seg};

fn are_limits(units: u32, ashift: u8) -> bool
    ensures units { result ≡ true → IsUnitCount units }
    ensures shift { result ≡ true → IsShift ashift }
{
    64 <= units && units <= 131_072 && 9 <= ashift && ashift <= 12
}

/// Whether the journal of a metaslab is legal, from the runs that the opened group held.
fn is_legal(
    alloc: Global,
    base: &[Seg],
    opened: Group,
    journal: &MsJournal,
) -> Result<bool, AllocError> {
    let units = journal.units;
    let ashift = journal.ashift;
    if !are_limits(units, ashift) || !are_segs(units, base) {
        return Ok(false);
    }
    let found = legal(alloc, base, units, ashift, opened, journal.notes.as_slice())?;
    Ok(found.is_none())
}

/// The runs that the opened group held of the metaslab of a number.
fn base_at(bases: &[Items<Seg>], number: usize) -> &[Seg] {
    match bases.get(number) {
        Some(base) => base.as_slice(),
        None => &[],
    }
}

/// Whether the journal of each metaslab is legal.
pub fn are_legal(alloc: Global, ended: &Ended) -> Result<bool, AllocError> {
    let journals = &ended.journals;
    for (number, journal) in journals.metaslabs.as_slice().iter().enumerate() {
        let base = base_at(&ended.bases, number);
        if !is_legal(alloc, base, journals.opened, journal)? {
            return Ok(false);
        }
    }
    Ok(true)
}

/// Marks the units of a segment.
fn mark(held: &mut [bool], seg: Seg, is_held: bool) {
    let start = seg.start as usize;
    if let Some(units) = held.get_mut(start..start.saturating_add(seg.count as usize)) {
        units.fill(is_held);
    }
}

/// The segment that an act of a group up to this one hands out or gives back.
fn moved(act: Act, last: Group) -> Option<(Seg, bool)> {
    match act {
        Act::Grant { group, seg } if group <= last => Some((seg, true)),
        Act::Free { group, seg } if group <= last => Some((seg, false)),
        Act::Unalloc { group, seg } if group <= last => Some((seg, false)),
        _ => None,
    }
}

/// Which units a group holds by a journal.
fn held_by(
    alloc: Global,
    base: &[Seg],
    journal: &MsJournal,
    group: Group,
) -> Result<Vec<bool>, AllocError> {
    let mut held = Vec::new(alloc);
    held.resize(journal.units as usize, false)?;
    for seg in base {
        mark(&mut held, *seg, true);
    }
    for note in journal.notes.as_slice() {
        if let Some((seg, is_held)) = moved(note.act, group) {
            mark(&mut held, seg, is_held);
        }
    }
    Ok(held)
}

/// Which units segments cover.
fn covered(alloc: Global, units: u32, segs: &[Seg]) -> Result<Vec<bool>, AllocError> {
    let mut held = Vec::new(alloc);
    held.resize(units as usize, false)?;
    for seg in segs {
        mark(&mut held, *seg, true);
    }
    Ok(held)
}

/// The metaslab of a number in a store, if it is the journal's.
fn is_there(store: &MetaStore<Device<'_>>, journal: &MsJournal) -> bool
    ensures { result ≡ true → IsIn store.now.layout.vdevs journal.now.id }
{
    let vdevs = store.layout().vdevs.as_slice();
    let id = journal.id;
    (id.vdev as usize) < vdevs.len() && id.index < vdevs[id.vdev as usize].metaslabs
}

/// Whether the store's group holds of a metaslab, unit by unit, what its journal says.
fn is_found(
    alloc: Global,
    store: &mut MetaStore<Device<'_>>,
    base: &[Seg],
    journal: &MsJournal,
    group: Group,
) -> Result<bool, AllocError> {
    if !is_there(store, journal) {
        return Ok(false);
    }
    match store.found(alloc, journal.id) {
        Ok(runs) => {
            let found = covered(alloc, journal.units, &runs)?;
            Ok(found == held_by(alloc, base, journal, group)?)
        }
        Err(_) => Ok(false),
    }
}

/// Whether a group that was opened holds what the journals say.
fn are_found(
    alloc: Global,
    store: &mut MetaStore<Device<'_>>,
    journals: &Journals,
    bases: &[Items<Seg>],
    group: Group,
) -> Result<bool, AllocError> {
    for (number, journal) in journals.metaslabs.as_slice().iter().enumerate() {
        let base = base_at(bases, number);
        if !is_found(alloc, store, base, journal, group)? {
            return Ok(false);
        }
    }
    Ok(store.group() == group)
}

/// How a device opens at a group: not, or as the journals say or not.
#[derive(Clone, Copy, Debug, PartialEq, Eq)]
pub enum How {
    None,
    Same,
    Differs,
}

/// Opens the device that a run left at a group.
pub fn open_at(alloc: Global, ended: &mut Ended, group: Group) -> Result<How, AllocError> {
    let panel = Panel::new();
    let bytes = mem::replace(&mut ended.bytes, Vec::new(alloc));
    let device = Device::new(bytes, &panel, Vec::new(alloc));
    match open(alloc, device, At::Group(group)) {
        Ok(mut store) => {
            let same = are_found(alloc, &mut store, &ended.journals, &ended.bases, group);
            ended.bytes = store.into_disk().into_bytes();
            Ok(if same? { How::Same } else { How::Differs })
        }
        Err((device, _)) => {
            ended.bytes = device.into_bytes();
            Ok(How::None)
        }
    }
}

/// The groups from some before the opened one to a last one at which the device opens; one whose units differ from the
/// journals is marked.
pub fn groups_text(alloc: Global, ended: &mut Ended, last: u64) -> Result<String, AllocError> {
    let mut text = String::from_str(alloc, "groups")?;
    let first = ended.journals.opened.0.saturating_sub(3);
    for group in first..last.saturating_add(1) {
        match open_at(alloc, ended, Group(group))? {
            How::None => {}
            How::Same => write!(text, " {group}")?,
            How::Differs => write!(text, " {group}!")?,
        }
    }
    Ok(text)
}

/// The last group that was settled, or the opened one.
pub fn settled(ended: &Ended) -> Group {
    let mut last = ended.journals.opened;
    for note in &ended.gate {
        if let GateNote::Settled { group } = *note {
            last = group;
        }
    }
    last
}

/// Whether the device opens just at the groups that are retained where this one is the newest, each as the journals say.
fn is_retained(alloc: Global, ended: &mut Ended, newest: Group) -> Result<bool, AllocError> {
    let opened = ended.journals.opened;
    let first = opened.0.max(newest.0.saturating_sub(2));
    for group in opened.0.saturating_sub(1)..newest.0.saturating_add(3) {
        let wanted = if first <= group && group <= newest.0 {
            How::Same
        } else {
            How::None
        };
        let is_near = group < opened.0.saturating_add(3) || newest.0 < group.saturating_add(5);
        if is_near && open_at(alloc, ended, Group(group))? != wanted {
            return Ok(false);
        }
    }
    Ok(true)
}

/// Whether each journal is legal, and the device has the settled group as its newest; after a fault the next one may be it.
pub fn is_sound(alloc: Global, ended: &mut Ended, has_fault: bool) -> Result<bool, AllocError> {
    let last = settled(ended);
    let next = Group(last.0.saturating_add(1));
    if !are_legal(alloc, ended)? {
        return Ok(false);
    }
    Ok(is_retained(alloc, ended, last)? || has_fault && is_retained(alloc, ended, next)?)
}
