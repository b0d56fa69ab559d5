//! The checker of histories: what each note needs of those before it, looked up in a table of the units.

ghost use Rattle.std.specs.Prelude.{if◌then◌else◌, max, ◌≡◌, ℕ, ◌+◌, ◌<◌, ◌≤◌, true, false, List, [], ◌++◌, ◌∷◌, length, Some, None, IfOk, IfSome, IfNone};
ghost use Rattle.zms_units.specs.Segments.{Covers, covers, covered, AreSegs};
ghost use Rattle.zms_units.specs.Runs.{IsFit, NoneInRow};
ghost use Rattle.zms_units.specs.Cursors.{cursor_of};
ghost use Rattle.zms_units.specs.Limits.{IsShift, IsUnitCount};
ghost use Rattle.ms_model.specs.Cursors.{cursor_at};
ghost use Rattle.ms_model.specs.Spaces.{is_vacant};
ghost use Rattle.std.specs.List.{All};
ghost use Rattle.ms_model.specs.Origin.{Origin};
ghost use Rattle.ms_model.specs.Units.{granted, settled_group};
ghost use Rattle.ms_model.specs.Legal.{IsWithin, IsOpenGroup, TakesRequests, IsGrantedBy, ChangesAbove, IsLegal, MayDo, MayGrant, MayMiss, MayShut, MayFree, MayTakeBack, MayUnload, MayDisable, MayWork, MayEnable};
ghost use Rattle.ms_model.specs.Laws.{TakesFreeUnits};
ghost use Rattle.ms_model.specs.Checking.{Decides, Reflects, IsTable, LiesWithin, TakesIn, IsFirstIllegal, origin_from, act_at, act_of, vacant_in};
ghost use Rattle.ms_model.specs.declared.notes.Noted.{Noted};

use crate::{Act, Noted};
use std::alloc::{AllocError, Global};
use zms_units::{CURSORS, Group, MAX_UNITS, Seg, cursor_place};

/// The last act on a unit's space.
#[derive(Clone, Copy, Debug, PartialEq, Eq)]
pub(crate) enum Last {
    /// A grant, by this lane; or by the group that was opened, with no lane.
    Granted { lane: Option<u8>, group: Group },
    Freed { group: Group },
    TakenBack,
    Untouched,
}

/// What a journal says, so far, of each unit of its metaslab and of its groups.
#[derive(Debug, Drop)]
pub(crate) struct Checker {
    pub(crate) ashift: u8,
    pub(crate) lasts: Vec<Last>,
    pub(crate) settled: Group,
    pub(crate) collected: Group,
    pub(crate) loaded: bool,
    pub(crate) worker: Option<u8>,
    pub(crate) cursors: [u32; CURSORS],
    // The greatest group of a grant, free or take-back, 0 if there is none.
    pub(crate) changed: Group,
}

/// Is this group at most three above the other?
fn is_near(group: Group, settled: Group) -> bool
    ensures { Decides result (group.0 ≤ settled.0 + 3) }
{
    group.0.saturating_sub(3) <= settled.0
}

/// Is this group the one after the other?
fn is_next(group: Group, before: Group) -> bool
    ensures { Decides result (group.0 ≡ before.0 + 1) }
{
    group.0 > 0 && group.0 - 1 == before.0
}

/// Is the segment not empty, and within so many units?
fn is_within(seg: Seg, units: u32) -> bool
    requires { units ≤ MAX_UNITS }
    ensures { Decides result (IsWithin units seg) }
{
    seg.count > 0 && seg.start <= units && seg.count <= units - seg.start
}

impl Checker {
    /// How many units the metaslab has.
    pub(crate) fn units(&self) -> u32
        requires most { length self.now.lasts.items ≤ MAX_UNITS }
        ensures { result ≡ length self.now.lasts.items }
    {
        self.lasts.len() as u32
    }

    /// Is the unit vacant?
    pub(crate) fn is_vacant(&self, unit: u32) -> bool
        requires { unit < length self.now.lasts.items }
        ensures { result ≡ vacant_in self.now unit }
    {
        match self.lasts[unit as usize] {
            Last::Granted { .. } => false,
            Last::Freed { group } => self.settled.0 >= 2 && group.0 <= self.settled.0 - 2,
            Last::TakenBack | Last::Untouched => true,
        }
    }

    /// Was the unit last granted, in this group or before?
    fn is_granted(&self, unit: u32, group: Group) -> bool
        requires { unit < length self.now.lasts.items }
        ensures { Decides result (IsGrantedBy group.0 (act_at self.now.lasts.items unit)) }
    {
        match self.lasts[unit as usize] {
            Last::Granted { group: other, .. } => other.0 <= group.0,
            _ => false,
        }
    }

    /// Was the unit last granted in this group, by this lane?
    fn is_own(&self, unit: u32, lane: u8, group: Group) -> bool
        requires { unit < length self.now.lasts.items }
        ensures { Decides result (act_at self.now.lasts.items unit ≡ granted (Some lane) group.0) }
    {
        match self.lasts[unit as usize] {
            Last::Granted {
                lane: Some(other),
                group: in_,
            } => other == lane && in_.0 == group.0,
            _ => false,
        }
    }

    /// Are all units of the segment vacant?
    fn are_vacant(&self, seg: Seg) -> bool
        requires within { IsWithin (length self.now.lasts.items) seg }
        requires most { length self.now.lasts.items ≤ MAX_UNITS }
        ensures { Decides result ((u : ℕ) → Covers seg u → vacant_in self.now u ≡ true) }
    {
        for unit in seg.start..seg.start + seg.count {
            if !self.is_vacant(unit) {
                return false;
            }
        }
        true
    }

    /// Were all units of the segment last granted, in this group or before?
    fn are_granted(&self, seg: Seg, group: Group) -> bool
        requires within { IsWithin (length self.now.lasts.items) seg }
        requires most { length self.now.lasts.items ≤ MAX_UNITS }
        ensures { Decides result ((u : ℕ) → Covers seg u → IsGrantedBy group.0 (act_at self.now.lasts.items u)) }
    {
        for unit in seg.start..seg.start + seg.count {
            if !self.is_granted(unit, group) {
                return false;
            }
        }
        true
    }

    /// Were all units of the segment last granted in this group, by this lane?
    fn are_own(&self, seg: Seg, lane: u8, group: Group) -> bool
        requires within { IsWithin (length self.now.lasts.items) seg }
        requires most { length self.now.lasts.items ≤ MAX_UNITS }
        ensures { Decides result ((u : ℕ) → Covers seg u → act_at self.now.lasts.items u ≡ granted (Some lane) group.0) }
    {
        for unit in seg.start..seg.start + seg.count {
            if !self.is_own(unit, lane, group) {
                return false;
            }
        }
        true
    }

    /// Does the metaslab take requests?
    fn takes_requests(&self) -> bool
        ensures { (o : Origin) (h : List Noted) → Reflects o h self.now → Decides result (TakesRequests h) }
    {
        self.loaded && self.worker.is_none()
    }

    /// May the metaslab change in this group?
    fn is_open(&self, group: Group) -> bool
        ensures { (o : Origin) (h : List Noted) → Reflects o h self.now → Decides result (IsOpenGroup o h group.0) }
    {
        group.0 > self.collected.0 && is_near(group, self.settled)
    }

    /// Is the segment the one that the fit names?
    fn fits(&self, seg: Seg) -> bool
        requires table { IsTable self.now }
        requires within { IsWithin (length self.now.lasts.items) seg }
        ensures { (o : Origin) (h : List Noted) → Reflects o h self.now → Decides result (IsFit (is_vacant o h) o.units o.ashift (cursor_at h (cursor_of seg.count)) seg.count seg) }
    {
        self.is_fit(seg)
    }

    /// Do no so many vacant units stand in a row?
    fn lacks_row(&self, count: u32) -> bool
        requires { IsTable self.now }
        ensures { (o : Origin) (h : List Noted) → Reflects o h self.now → Decides result (NoneInRow (is_vacant o h) o.units count) }
    {
        self.has_no_row(count)
    }

    /// Is each group settled in which something changed?
    fn is_settled(&self) -> bool
        ensures { (o : Origin) (h : List Noted) → Reflects o h self.now → Decides result (All (λ note. ChangesAbove (settled_group o h) note.act → ⊥) h) }
    {
        self.changed.0 <= self.settled.0
    }

    fn may_grant(&self, group: Group, seg: Seg) -> bool
        requires { IsTable self.now }
        ensures { (o : Origin) (h : List Noted) → Reflects o h self.now → Decides result (MayGrant o h group.0 seg) }
    {
        self.takes_requests()
            && self.is_open(group)
            && is_within(seg, self.units())
            && self.are_vacant(seg)
            && self.fits(seg)
    }

    fn may_miss(&self, count: u32) -> bool
        requires { IsTable self.now }
        ensures { (o : Origin) (h : List Noted) → Reflects o h self.now → Decides result (MayMiss o h count) }
    {
        self.takes_requests() && self.lacks_row(count)
    }

    fn may_free(&self, group: Group, seg: Seg) -> bool
        requires { IsTable self.now }
        ensures { (o : Origin) (h : List Noted) → Reflects o h self.now → Decides result (MayFree o h group.0 seg) }
    {
        self.loaded
            && self.is_open(group)
            && is_within(seg, self.units())
            && self.are_granted(seg, group)
    }

    fn may_take_back(&self, lane: u8, group: Group, seg: Seg) -> bool
        requires { IsTable self.now }
        ensures { (o : Origin) (h : List Noted) → Reflects o h self.now → Decides result (MayTakeBack o h lane group.0 seg) }
    {
        self.loaded
            && self.is_open(group)
            && is_within(seg, self.units())
            && self.are_own(seg, lane, group)
    }

    fn may_work(&self, lane: u8, worker: u8, seg: Seg) -> bool
        requires { IsTable self.now }
        ensures { (o : Origin) (h : List Noted) → Reflects o h self.now → Decides result (MayWork o h lane worker seg) }
    {
        self.worker == Some(worker)
            && worker == lane
            && is_within(seg, self.units())
            && self.are_vacant(seg)
    }

    /// May the note follow those that were taken in?
    pub(crate) fn allows(&self, note: &Noted) -> bool
        requires { IsTable self.now }
        ensures { (o : Origin) (h : List Noted) → Reflects o h self.now → Decides result (MayDo o h note.now.lane note.now.act) }
    {
        let lane = note.lane;
        match note.act {
            Act::Grant { group, seg } => self.may_grant(group, seg),
            Act::Free { group, seg } => self.may_free(group, seg),
            Act::Unalloc { group, seg } => self.may_take_back(lane, group, seg),
            Act::Miss { count } => self.may_miss(count),
            Act::Shut => self.loaded && self.worker.is_some(),
            Act::Collect { group } => is_next(group, self.collected),
            Act::Settle { group } => { is_next(group, self.settled) && group.0 <= self.collected.0 }
            Act::Load => !self.loaded,
            Act::Unload => self.takes_requests() && self.is_settled(),
            Act::Disable { worker } => self.takes_requests() && worker == lane,
            Act::Work { worker, seg, .. } => self.may_work(lane, worker, seg),
            Act::Enable { worker } => self.worker == Some(worker) && worker == lane,
        }
    }

    /// Makes this the last act on each unit of a segment.
    fn put(&mut self, seg: Seg, last: Last)
        requires within { IsWithin (length self.old.lasts.items) seg }
        requires most { length self.old.lasts.items ≤ MAX_UNITS }
        ensures len { length self.new.lasts.items ≡ length self.old.lasts.items }
        ensures acts { (u : ℕ) → act_at self.new.lasts.items u ≡ (if covers seg u then act_of last else act_at self.old.lasts.items u) }
        ensures stays { self.new ≡ record self.old { lasts = self.new.lasts } }
    {
        for unit in seg.start..seg.start + seg.count {
            self.lasts[unit as usize] = last;
        }
    }

    /// The same, for a change of a group.
    fn change(&mut self, group: Group, seg: Seg, last: Last)
        requires within { IsWithin (length self.old.lasts.items) seg }
        requires most { length self.old.lasts.items ≤ MAX_UNITS }
        ensures len { length self.new.lasts.items ≡ length self.old.lasts.items }
        ensures acts { (u : ℕ) → act_at self.new.lasts.items u ≡ (if covers seg u then act_of last else act_at self.old.lasts.items u) }
        ensures changed { self.new.changed.0 ≡ max self.old.changed.0 group.0 }
        ensures stays { self.new ≡ record self.old { lasts = self.new.lasts; changed = self.new.changed } }
    {
        self.put(seg, last);
        self.changed = Group(self.changed.0.max(group.0));
    }

    /// Takes in a note that may follow.
    pub(crate) fn take_in(&mut self, note: &Noted)
        requires within { LiesWithin (length self.old.lasts.items) note.now.act }
        requires most { length self.old.lasts.items ≤ MAX_UNITS }
        ensures { TakesIn self.old self.new note.now.lane note.now.act }
    {
        match note.act {
            Act::Grant { group, seg } => {
                let lane = Some(note.lane);
                self.change(group, seg, Last::Granted { lane, group });
                self.cursors[cursor_place(seg.count)] = seg.start + seg.count;
            }
            Act::Free { group, seg } => self.change(group, seg, Last::Freed { group }),
            Act::Unalloc { group, seg } => self.change(group, seg, Last::TakenBack),
            Act::Collect { group } => self.collected = group,
            Act::Settle { group } => self.settled = group,
            Act::Load => {
                self.loaded = true;
                self.cursors = [0; CURSORS];
            }
            Act::Unload => self.loaded = false,
            Act::Disable { worker } => self.worker = Some(worker),
            Act::Enable { .. } => self.worker = None,
            Act::Miss { .. } | Act::Shut | Act::Work { .. } => {}
        }
    }

    /// What there is before the first note.
    fn new(
        alloc: Global,
        base: &[Seg],
        units: u32,
        ashift: u8,
        opened: Group,
    ) -> Result<Checker, AllocError>
        requires units { units ≤ MAX_UNITS }
        requires shift { IsShift ashift }
        requires base { AreSegs units base.now }
        ensures { IfOk result (Reflects (origin_from base.now units ashift opened.0) []) }
    {
        let mut checker = Checker {
            ashift,
            lasts: vec![in alloc; Last::Untouched; units as usize]?,
            settled: opened,
            collected: opened,
            loaded: false,
            worker: None,
            cursors: [0; CURSORS],
            changed: Group(0),
        };
        for seg in base {
            let last = Last::Granted {
                lane: None,
                group: opened,
            };
            checker.put(*seg, last);
        }
        Ok(checker)
    }
}

/// The place, from 1, of the first note of a metaslab's journal that may not follow those before it, `None` where the
/// journal is a legal history. Then no unit that was handed out or that a worker took was live or deferred, or held by a
/// group from which the pool may still be opened. `base` is what the group that was opened holds of its units, which have `2^ashift` bytes.
///
/// It looks each note up in a table of the units, and rests on no part of the metaslab. Costs the units for each grant,
/// miss and worker's segment, and beside it what the notes cover.
pub fn legal(
    alloc: Global,
    base: &[Seg],
    units: u32,
    ashift: u8,
    opened: Group,
    notes: &[Noted],
) -> Result<Option<u64>, AllocError>
    requires units { IsUnitCount units }
    requires shift { IsShift ashift }
    requires base { AreSegs units base.now }
    ensures legal { IfOk result (λ found. IfNone found (IsLegal (origin_from base.now units ashift opened.0) notes.now)) }
    ensures free { IfOk result (λ found. IfNone found (TakesFreeUnits (origin_from base.now units ashift opened.0) notes.now)) }
    ensures complete { IsLegal (origin_from base.now units ashift opened.0) notes.now → IfOk result (λ found. found ≡ None) }
    ensures first { IfOk result (λ found. IfSome found (IsFirstIllegal (origin_from base.now units ashift opened.0) notes.now)) }
{
    let mut checker = Checker::new(alloc, base, units, ashift, opened)?;
    for (index, note) in notes.iter().enumerate() {
        if !checker.allows(note) {
            return Ok(Some(index as u64 + 1));
        }
        checker.take_in(note);
    }
    Ok(None)
}
