ghost use Rattle.std.specs.Prelude.{◌≡◌, ℕ, ◌+◌, ◌*◌, ◌^◌, ◌<◌, ◌≤◌, ◌==◌, ◌↔◌, if◌then◌else◌, slice_index, true, false, [], Some, IsTrue, OnOk, OnErr, IfOk, IfErr, IfSome, IfNone, IsOk};
ghost use Rattle.zms_units.specs.Limits.{IsLane, IsPoolGroup, IsShift, IsUnitCount};
ghost use Rattle.std.specs.Vec.{vec_len, vec_capacity};
ghost use Rattle.zms_units.specs.Cursors.{cursor_of};
ghost use Rattle.zms_units.specs.Segments.{end_of, covered, Covers, AreSegs};
ghost use Rattle.zms_units.specs.Runs.{units_in, run_count, AreMaximalRuns};
ghost use Rattle.zms_units.specs.Weights.{IsHistogramOf};
ghost use Rattle.seg_trees.specs.Sets.{AllStay, AreDisjoint, TakesNone};
ghost use Rattle.ms_model.specs.Units.{granted, held as holds, is_loaded, last_act};
ghost use Rattle.ms_model.specs.Spaces.{is_vacant};
ghost use Rattle.ms_model.specs.Counts.{live_units, deferred_units, vacant_units};
ghost use Rattle.ms_model.specs.Gains.{is_gained, is_given};
ghost use Rattle.ms_model.specs.Legal.{IsLegal, IsWithin, IsOpenGroup, IsGrantedBy, MayGrant, MayMiss, MayFree, MayTakeBack, IsLowestLacking};
ghost use Rattle.ms_model.specs.Laws.{IsFreeOfAll};
ghost use Rattle.ms_model.specs.declared.notes.Act.TheVariants.{Grant, Free, Unalloc, Miss, Collect, Settle, Load};
ghost use Rattle.ms_core.specs.State.{origin_of, settled_of, collected_of, noted, AreOfLanes, StaysButNotes, StaysButRoom, HasMore};
ghost use Rattle.ms_core.specs.Buffers.{run_room, changed_runs};
ghost use Rattle.ms_core.specs.Differences.{DiffersFirst};
ghost use Rattle.ms_core.specs.Kept.{waiting_nodes, IsNotedIn, IsRoomier, MovesCursor};
ghost use Rattle.ms_core.specs.Mirrors.{Settles, deferred_of, is_changed, tree_of};
ghost use Rattle.ms_core.specs.Weights.{IsWeightOfSet, as_one_run};

use crate::free_space::FreeSpace;
use crate::holding::differs_at;
use crate::looking::{first_foreign, lower, lowest_in};
use crate::tree::{Change, Tree};
use crate::walking::{add_gaps, one_run, push_runs};
use crate::{Counts, MsFault, RunBuf, stepping};
use fit_rule::fit;
use ms_model::{Act, MsJournal, Noted};
use ms_weight::weight_of;
use seg_trees::SegTrees;
use std::alloc::{AllocError, Global};
use std::marker::Model;
use zms_units::{
    CURSORS, Group, Histogram, Items, MAX_UNITS, MsId, Seg, VdevRow, cursor_place, unit_count,
};

/// The notes for which a new metaslab takes memory.
const FIRST_NOTES: usize = 16;

/// A metaslab, after `metaslab_t`: a range of a vdev, its journal, and what makes each action on it quick.
///
/// Its trees are its vacant units, while it is loaded; what each of four groups above the collected one gained; what each
/// of four above the settled one gave back; and what is vacant from each of the next two settles on.
#[derive(Debug, Drop)]
pub struct Metaslab<R: SegTrees> {
    id: MsId,
    units: u32,
    ashift: u8,
    opened: Group,
    base: Vec<Seg>,
    notes: Vec<Noted>,
    loaded: bool,
    trees: R,
    // While it is loaded, where the last grant ended whose count has its lowest set bit at this place: `ms_lbas`.
    cursors: [u32; CURSORS],
    collected: Group,
    settled: Group,
    // How many units the base holds, and how many are handed out, and freed but not vacant yet.
    held: u32,
    live: u32,
    deferred: u32,
}

impl<R: SegTrees> Model for Metaslab<R> {
    ghost use Rattle.ms_core.specs.State.{MsState};

    ghost Value = { MsState };

    ghost use Rattle.ms_core.specs.Kept.{state_in, HoldsTogether};

    ghost view = { state_in R.set R.spare };

    ghost invariant = { HoldsTogether R.set R.spare };
}

/// Adds a lane's act to a journal that has room for it.
fn push_note(notes: &mut Vec<Noted>, lane: u8, act: Act)
    requires { vec_len notes.old < vec_capacity notes.old }
    ensures { IsNotedIn notes.old notes.new lane act }
{
    notes.push_reserved(Noted { lane, act });
}

/// Sets the cursor of a segment's count to the segment's end.
fn move_cursor(cursors: &mut [u32; CURSORS], seg: Seg)
    requires count { (1 ≤ seg.count) × (seg.count ≤ MAX_UNITS) }
    requires within { end_of seg ≤ MAX_UNITS }
    ensures { MovesCursor cursors.old cursors.new seg }
{
    cursors[cursor_place(seg.count)] = seg.start + seg.count;
}

/// How many nodes the trees have of what is given back and not vacant yet.
fn waiting_nodes<R: SegTrees>(trees: &R) -> u32
    ensures nodes { result ≡ waiting_nodes (R.set trees.now) }
    ensures few { result ≤ 6 * MAX_UNITS }
{
    stepping::nodes(trees, Tree::Freeing(Group(0)))
        + stepping::nodes(trees, Tree::Freeing(Group(1)))
        + stepping::nodes(trees, Tree::Freeing(Group(2)))
        + stepping::nodes(trees, Tree::Freeing(Group(3)))
        + stepping::nodes(trees, Tree::Deferred(Group(0)))
        + stepping::nodes(trees, Tree::Deferred(Group(1)))
}

/// Takes the memory for so many further notes, and for so many nodes beside those that wait for a settle.
fn reserve<R: SegTrees>(
    notes: &mut Vec<Noted>,
    trees: &mut R,
    further: usize,
    nodes: u32,
) -> Result<(), AllocError>
    requires { nodes ≤ MAX_UNITS + 2 }
    ensures enough { OnOk result ((vec_len notes.new + further ≤ vec_capacity notes.new) × (waiting_nodes (R.set trees.new) + nodes ≤ R.spare trees.new)) }
    ensures roomier { IsRoomier notes.old notes.new (R.set trees.old) (R.set trees.new) (R.spare trees.old) (R.spare trees.new) }
{
    notes.reserve(further)?;
    let waiting = waiting_nodes(trees);
    trees.reserve(waiting + nodes)
}

/// What a settle does to the trees: what was deferred until now is vacant, or let go where free space is not in memory,
/// and what the group gave back is deferred.
fn settle_trees<R: SegTrees>(trees: &mut R, group: Group, loaded: bool)
    requires { AreDisjoint (R.set trees.old (deferred_of group.0)) (R.set trees.old 0) }
    ensures moves { Settles loaded (R.set trees.old) (R.set trees.new) group.0 }
    ensures spare { R.spare trees.old ≤ R.spare trees.new }
    ensures memory { TakesNone (R.spare trees.old) (R.set trees.old) (R.spare trees.new) (R.set trees.new) }
{
    if loaded {
        stepping::vacate(trees, Tree::Deferred(group), Tree::Allocatable);
    } else {
        stepping::clear(trees, Tree::Deferred(group));
    }
    stepping::vacate(trees, Tree::Freeing(group), Tree::Deferred(group));
}

impl<R: SegTrees> Metaslab<R> {
    /// A metaslab as its pool opens it: `base` is what the opened group holds of it, and its free space is not in memory.
    ///
    /// Where there is no memory the base is handed back. Costs the length of the base.
    pub fn new(
        alloc: Global,
        id: MsId,
        row: &VdevRow,
        opened: Group,
        base: Vec<Seg>,
    ) -> Result<Self, Vec<Seg>>
        requires units { IsUnitCount row.now.units }
        requires ashift { IsShift row.now.ashift }
        requires opened { IsPoolGroup opened.0 }
        requires base { AreSegs row.now.units base.items }
        ensures id { IfOk result (λ metaslab. metaslab.id ≡ id) }
        ensures units { IfOk result (λ metaslab. metaslab.units ≡ row.now.units) }
        ensures ashift { IfOk result (λ metaslab. metaslab.ashift ≡ row.now.ashift) }
        ensures opened { IfOk result (λ metaslab. metaslab.opened ≡ opened.0) }
        ensures base { IfOk result (λ metaslab. metaslab.base ≡ base.items) }
        ensures notes { IfOk result (λ metaslab. metaslab.notes ≡ []) }
        ensures err { IfErr result (λ back. back.items ≡ base.items) }
    {
        let Ok(notes) = Vec::with_capacity(alloc, FIRST_NOTES) else {
            return Err(base);
        };
        let held = unit_count(&base);
        Ok(Metaslab {
            id,
            units: row.units,
            ashift: row.ashift,
            opened,
            base,
            notes,
            loaded: false,
            trees: R::new(alloc),
            cursors: [0; CURSORS],
            collected: opened,
            settled: opened,
            held,
            live: held,
            deferred: 0,
        })
    }

    /// Takes the memory for one action and its note; before a collect, for the note of its settle too. In the trees it takes
    /// a node for each of the two runs that an action may add, and one for each run that was freed and waits for a settle, so
    /// that `settle` takes none. Costs the nodes taken.
    pub fn ready(&mut self) -> Result<(), AllocError>
        ensures ok { OnOk result (0 < self.new.room) }
        ensures room { self.old.room ≤ self.new.room }
        ensures memory { HasMore self.old self.new }
        ensures stays { StaysButRoom self.old self.new }
    {
        let unsettled = (self.collected.0 - self.settled.0) as usize;
        reserve(&mut self.notes, &mut self.trees, unsettled + 2, 2)
    }

    /// Does it take changes of this group? `Late` where the group was collected, else `NotLoaded`.
    fn admit(&self, group: Group) -> Result<(), MsFault>
        ensures late { group.0 ≤ collected_of self.now → result ≡ Err (MsFault.Late group (record { 0 = collected_of self.now })) }
        ensures not_loaded { collected_of self.now < group.0 → is_loaded self.now.notes ≡ false → result ≡ Err MsFault.NotLoaded }
        ensures taken { collected_of self.now < group.0 → is_loaded self.now.notes ≡ true → IsOk result }
        ensures above { OnOk result (collected_of self.now < group.0) }
        ensures loaded { OnOk result (is_loaded self.now.notes ≡ true) }
    {
        if group.0 <= self.collected.0 {
            return Err(MsFault::Late {
                group,
                collected: self.collected,
            });
        }
        if !self.loaded {
            return Err(MsFault::NotLoaded);
        }
        Ok(())
    }

    /// The units that a grant of this group would take.
    fn fitting(&self, group: Group, count: u32) -> Option<Seg>
        requires loaded { is_loaded self.now.notes ≡ true }
        requires group { IsOpenGroup (origin_of self.now) self.now.notes group.0 }
        requires count { (1 ≤ count) × (count ≤ MAX_UNITS) }
        ensures count { IfSome result (λ seg. seg.count ≡ count) }
        ensures may { IfSome result (MayGrant (origin_of self.now) self.now.notes group.0) }
        ensures free { IfSome result (λ seg. (u : ℕ) → Covers seg u → IsFreeOfAll (origin_of self.now) self.now.notes u) }
        ensures none { IfNone result (MayMiss (origin_of self.now) self.now.notes count) }
    {
        let free = FreeSpace::new(&self.trees, self.units);
        fit(&free, self.ashift, &self.cursors, count)
    }

    /// Hands out units that a grant may take.
    fn hand_out(&mut self, lane: u8, group: Group, seg: Seg)
        requires lane { IsLane lane }
        requires may { MayGrant (origin_of self.old) self.old.notes group.0 seg }
        requires room { 0 < self.old.room }
        ensures note { self.new.notes ≡ noted self.old.notes lane (Grant group seg) }
        ensures stays { StaysButNotes self.old self.new }
        ensures room { self.old.room ≤ self.new.room + 1 }
        ensures memory { self.new.memory ≡ self.old.memory }
    {
        stepping::move_seg(
            &mut self.trees,
            Tree::Allocatable,
            Tree::Allocating(group),
            seg,
        );
        move_cursor(&mut self.cursors, seg);
        self.live += seg.count;
        push_note(&mut self.notes, lane, Act::Grant { group, seg });
    }

    /// Notes that so many units in a row are not to be had.
    fn miss(&mut self, lane: u8, count: u32)
        requires lane { IsLane lane }
        requires may { MayMiss (origin_of self.old) self.old.notes count }
        requires room { 0 < self.old.room }
        ensures note { self.new.notes ≡ noted self.old.notes lane (Miss count) }
        ensures stays { StaysButNotes self.old self.new }
        ensures room { self.old.room ≤ self.new.room + 1 }
        ensures memory { self.new.memory ≡ self.old.memory }
    {
        push_note(&mut self.notes, lane, Act::Miss { count });
    }

    /// Hands out `count` units in a row, in this group, as `metaslab_block_alloc` does with `metaslab_df_alloc`: the first
    /// units of a maximal vacant run that is long enough. `None` where no so many vacant units stand in a row; both are
    /// noted.
    ///
    /// Where space is ample, which is where some vacant run has 131,072 bytes and one unit in 25 is vacant, the run is the
    /// next one from the cursor on, and else from the start: the cursor is the end of the last grant since the load whose
    /// count has the same lowest set bit. Where space is scarce it is the shortest, and of these the lowest.
    ///
    /// `Late` where the group was collected, else `NotLoaded` where free space is not in memory. Takes no memory. Costs
    /// at most seven calls on the trees.
    pub fn grant(&mut self, lane: u8, group: Group, count: u32) -> Result<Option<Seg>, MsFault>
        requires lane { IsLane lane }
        requires group { group.0 ≤ settled_of self.old + 3 }
        requires count { (1 ≤ count) × (count ≤ MAX_UNITS) }
        requires room { 0 < self.old.room }

        // Which answer comes, and when.
        ensures late { group.0 ≤ collected_of self.old → result ≡ Err (MsFault.Late group (record { 0 = collected_of self.old })) }
        ensures not_loaded { collected_of self.old < group.0 → is_loaded self.old.notes ≡ false → result ≡ Err MsFault.NotLoaded }
        ensures taken { collected_of self.old < group.0 → is_loaded self.old.notes ≡ true → IsOk result }

        // What was handed out.
        ensures count { IfOk result (λ answer. IfSome answer (λ seg. seg.count ≡ count)) }
        ensures granted { IfOk result (λ answer. IfSome answer (λ seg. MayGrant (origin_of self.old) self.old.notes group.0 seg)) }
        ensures free { IfOk result (λ answer. IfSome answer (λ seg. (u : ℕ) → Covers seg u → IsFreeOfAll (origin_of self.old) self.old.notes u)) }
        ensures missed { IfOk result (λ answer. IfNone answer (MayMiss (origin_of self.old) self.old.notes count)) }

        // What is noted, and what stays.
        ensures grant_note { IfOk result (λ answer. IfSome answer (λ seg. self.new.notes ≡ noted self.old.notes lane (Grant group seg))) }
        ensures miss_note { IfOk result (λ answer. IfNone answer (self.new.notes ≡ noted self.old.notes lane (Miss count))) }
        ensures stays { StaysButNotes self.old self.new }
        ensures room { self.old.room ≤ self.new.room + 1 }
        ensures memory { self.new.memory ≡ self.old.memory }
        ensures err { OnErr result (self.new ≡ self.old) }
    {
        self.admit(group)?;
        let Some(seg) = self.fitting(group, count) else {
            self.miss(lane, count);
            return Ok(None);
        };
        self.hand_out(lane, group, seg);
        Ok(Some(seg))
    }

    /// The lowest unit of a segment that is not handed out in a group of at most this one.
    fn first_not_live(&self, group: Group, seg: Seg) -> Option<u32>
        requires loaded { is_loaded self.now.notes ≡ true }
        requires group { IsOpenGroup (origin_of self.now) self.now.notes group.0 }
        requires segment { IsWithin self.now.units seg }
        ensures found { IfSome result (IsLowestLacking (λ u. IsGrantedBy group.0 (last_act (origin_of self.now) self.now.notes u)) seg) }
        ensures none { IfNone result ((u : ℕ) → Covers seg u → IsGrantedBy group.0 (last_act (origin_of self.now) self.now.notes u)) }
    {
        // Vacant, freed or deferred.
        let not_handed_out = [
            Tree::Allocatable,
            Tree::Freeing(Group(0)),
            Tree::Freeing(Group(1)),
            Tree::Freeing(Group(2)),
            Tree::Freeing(Group(3)),
            Tree::Deferred(Group(0)),
            Tree::Deferred(Group(1)),
        ];
        // Handed out in a later group, of which so many are open.
        let later = [
            Tree::Allocating(Group(group.0 % 4 + 1)),
            Tree::Allocating(Group(group.0 % 4 + 2)),
            Tree::Allocating(Group(group.0 % 4 + 3)),
        ];
        let open = 4 - (group.0 - self.collected.0) as usize;
        let given = lowest_in(&self.trees, &not_handed_out, seg);
        let later = lowest_in(&self.trees, &later[..open], seg);
        lower(given, later, seg)
    }

    /// Frees units that may be freed: they are deferred.
    fn defer(&mut self, lane: u8, group: Group, seg: Seg)
        requires lane { IsLane lane }
        requires may { MayFree (origin_of self.old) self.old.notes group.0 seg }
        requires room { 0 < self.old.room }
        ensures note { self.new.notes ≡ noted self.old.notes lane (Free group seg) }
        ensures stays { StaysButNotes self.old self.new }
        ensures room { self.old.room ≤ self.new.room + 1 }
        ensures memory { self.new.memory ≡ self.old.memory }
    {
        stepping::add(&mut self.trees, Tree::Freeing(group), seg);
        self.live -= seg.count;
        self.deferred += seg.count;
        push_note(&mut self.notes, lane, Act::Free { group, seg });
    }

    /// Frees a segment in this group, as `metaslab_free_concrete` does: it is deferred, and vacant again from the second
    /// settle after the group's own.
    ///
    /// `Late` where the group was collected, else `NotLoaded` where free space is not in memory, else `NotLive` with the
    /// lowest unit that is not handed out in a group of at most this one. Takes no memory. Costs at most eleven calls on
    /// the trees.
    pub fn free(&mut self, lane: u8, group: Group, seg: Seg) -> Result<(), MsFault>
        requires lane { IsLane lane }
        requires group { group.0 ≤ settled_of self.old + 3 }
        requires segment { IsWithin self.old.units seg }
        requires room { 0 < self.old.room }

        // Which answer comes, and when.
        ensures late { group.0 ≤ collected_of self.old → result ≡ Err (MsFault.Late group (record { 0 = collected_of self.old })) }
        ensures not_loaded { collected_of self.old < group.0 → is_loaded self.old.notes ≡ false → result ≡ Err MsFault.NotLoaded }
        ensures not_live { (unit : ℕ) → collected_of self.old < group.0 → is_loaded self.old.notes ≡ true → IsLowestLacking (λ u. IsGrantedBy group.0 (last_act (origin_of self.old) self.old.notes u)) seg unit → result ≡ Err (MsFault.NotLive unit) }
        ensures taken { collected_of self.old < group.0 → is_loaded self.old.notes ≡ true → ((u : ℕ) → Covers seg u → IsGrantedBy group.0 (last_act (origin_of self.old) self.old.notes u)) → IsOk result }

        // What is noted, and what stays.
        ensures freed { OnOk result (MayFree (origin_of self.old) self.old.notes group.0 seg) }
        ensures note { OnOk result (self.new.notes ≡ noted self.old.notes lane (Free group seg)) }
        ensures stays { StaysButNotes self.old self.new }
        ensures room { self.old.room ≤ self.new.room + 1 }
        ensures memory { self.new.memory ≡ self.old.memory }
        ensures err { OnErr result (self.new ≡ self.old) }
    {
        self.admit(group)?;
        if let Some(unit) = self.first_not_live(group, seg) {
            return Err(MsFault::NotLive { unit });
        }
        self.defer(lane, group, seg);
        Ok(())
    }

    /// The lowest unit of a segment whose last act is not a grant of this group by this lane.
    fn first_not_own(&self, lane: u8, group: Group, seg: Seg) -> Option<u32>
        requires { IsWithin self.now.units seg }
        ensures found { IfSome result (IsLowestLacking (λ u. last_act (origin_of self.now) self.now.notes u ≡ granted (Some lane) group.0) seg) }
        ensures none { IfNone result ((u : ℕ) → Covers seg u → last_act (origin_of self.now) self.now.notes u ≡ granted (Some lane) group.0) }
    {
        first_foreign(&self.notes, lane, group, seg)
    }

    /// Takes units back that may be taken back: they are vacant.
    fn take_back(&mut self, lane: u8, group: Group, seg: Seg)
        requires lane { IsLane lane }
        requires may { MayTakeBack (origin_of self.old) self.old.notes lane group.0 seg }
        requires room { 0 < self.old.room }
        ensures note { self.new.notes ≡ noted self.old.notes lane (Unalloc group seg) }
        ensures stays { StaysButNotes self.old self.new }
        ensures room { self.old.room ≤ self.new.room + 1 }
        ensures memory { self.new.memory ≡ self.old.memory }
    {
        stepping::move_seg(
            &mut self.trees,
            Tree::Allocating(group),
            Tree::Allocatable,
            seg,
        );
        self.live -= seg.count;
        push_note(&mut self.notes, lane, Act::Unalloc { group, seg });
    }

    /// Takes back what this lane was handed out in this group, as `metaslab_unalloc_dva` does: it is vacant at once.
    ///
    /// `Late` where the group was collected, else `NotLoaded` where free space is not in memory, else `NotLive` with the
    /// lowest unit whose last act is not a grant of exactly this group by this lane. Takes no memory. Costs two calls on
    /// the trees and, for each piece of the segment that was granted at once, a look back through the notes up to the
    /// settle of the group three before this one.
    pub fn unalloc(&mut self, lane: u8, group: Group, seg: Seg) -> Result<(), MsFault>
        requires lane { IsLane lane }
        requires group { group.0 ≤ settled_of self.old + 3 }
        requires segment { IsWithin self.old.units seg }
        requires room { 0 < self.old.room }

        // Which answer comes, and when.
        ensures late { group.0 ≤ collected_of self.old → result ≡ Err (MsFault.Late group (record { 0 = collected_of self.old })) }
        ensures not_loaded { collected_of self.old < group.0 → is_loaded self.old.notes ≡ false → result ≡ Err MsFault.NotLoaded }
        ensures not_live { (unit : ℕ) → collected_of self.old < group.0 → is_loaded self.old.notes ≡ true → IsLowestLacking (λ u. last_act (origin_of self.old) self.old.notes u ≡ granted (Some lane) group.0) seg unit → result ≡ Err (MsFault.NotLive unit) }
        ensures taken { collected_of self.old < group.0 → is_loaded self.old.notes ≡ true → ((u : ℕ) → Covers seg u → last_act (origin_of self.old) self.old.notes u ≡ granted (Some lane) group.0) → IsOk result }

        // What is noted, and what stays.
        ensures taken_back { OnOk result (MayTakeBack (origin_of self.old) self.old.notes lane group.0 seg) }
        ensures note { OnOk result (self.new.notes ≡ noted self.old.notes lane (Unalloc group seg)) }
        ensures stays { StaysButNotes self.old self.new }
        ensures room { self.old.room ≤ self.new.room + 1 }
        ensures memory { self.new.memory ≡ self.old.memory }
        ensures err { OnErr result (self.new ≡ self.old) }
    {
        self.admit(group)?;
        if let Some(unit) = self.first_not_own(lane, group, seg) {
            return Err(MsFault::NotLive { unit });
        }
        self.take_back(lane, group, seg);
        Ok(())
    }

    /// The tree of what a group changed; no group gave anything back that is more than three above the settled one.
    fn tree_of(&self, change: Change, group: Group) -> Option<Tree>
        ensures { result ≡ tree_of change group (settled_of self.now) }
    {
        match change {
            Change::Gained => Some(Tree::Allocating(group)),
            Change::Given if group.0.saturating_sub(3) <= self.settled.0 => {
                Some(Tree::Freeing(group))
            }
            Change::Given => None,
        }
    }

    /// How many runs the next group changed.
    fn run_count(&self, change: Change, group: Group) -> u64
        requires { group.0 ≡ collected_of self.now + 1 }
        ensures runs { result ≡ run_count (is_changed change group.0 self.now.notes) self.now.units }
        ensures bound { result < 2 ^ 32 }
    {
        match self.tree_of(change, group) {
            Some(tree) => stepping::nodes(&self.trees, tree) as u64,
            None => 0,
        }
    }

    /// Writes the runs that the next group changed into an empty list, which has room for them.
    fn push_changed(&self, change: Change, group: Group, out: &mut Vec<Seg>)
        requires group { group.0 ≡ collected_of self.now + 1 }
        requires empty { out.old.items ≡ [] }
        requires room { run_count (is_changed change group.0 self.now.notes) self.now.units ≤ vec_capacity out.old }
        ensures runs { AreMaximalRuns (is_changed change group.0 self.now.notes) self.now.units out.new.items }
        ensures capacity { vec_capacity out.new ≡ vec_capacity out.old }
    {
        if let Some(tree) = self.tree_of(change, group) {
            push_runs(&self.trees, tree, self.units, out);
        }
    }

    /// Gathers what the next group changed, as maximal runs, into an empty buffer, for the group's commit. Afterwards the
    /// group takes no more actions.
    ///
    /// `Short`, and nothing changes, where the buffer has less room than there are runs. Takes no memory. Costs a call on
    /// the trees for each run.
    pub fn collect(&mut self, lane: u8, group: Group, buf: &mut RunBuf) -> Result<(), MsFault>
        requires lane { IsLane lane }
        requires group { group.0 ≡ collected_of self.old + 1 }
        requires room { 0 < self.old.room }
        requires empty { (buf.old.allocs.items ≡ []) × (buf.old.frees.items ≡ []) }
        ensures short { run_room buf.old < changed_runs self.old.notes self.old.units group.0 → result ≡ Err (MsFault.Short (changed_runs self.old.notes self.old.units group.0)) }
        ensures fits { changed_runs self.old.notes self.old.units group.0 ≤ run_room buf.old → IsOk result }
        ensures allocs { OnOk result (AreMaximalRuns (is_gained group.0 self.old.notes) self.old.units buf.new.allocs.items) }
        ensures frees { OnOk result (AreMaximalRuns (is_given group.0 self.old.notes) self.old.units buf.new.frees.items) }
        ensures note { OnOk result (self.new.notes ≡ noted self.old.notes lane (Collect group)) }
        ensures stays { StaysButNotes self.old self.new }
        ensures room { self.old.room ≤ self.new.room + 1 }
        ensures memory { self.new.memory ≡ self.old.memory }
        ensures err { OnErr result ((self.new ≡ self.old) × ((buf.new.allocs.items ≡ []) × (buf.new.frees.items ≡ []))) }

        // The buffer keeps its memory.
        ensures buffer { (vec_capacity buf.new.allocs ≡ vec_capacity buf.old.allocs) × (vec_capacity buf.new.frees ≡ vec_capacity buf.old.frees) }
    {
        let need = self.run_count(Change::Gained, group) + self.run_count(Change::Given, group);
        if need > buf.room() {
            return Err(MsFault::Short { need });
        }
        self.push_changed(Change::Gained, group, &mut buf.allocs);
        self.push_changed(Change::Given, group, &mut buf.frees);
        stepping::clear(&mut self.trees, Tree::Allocating(group));
        self.collected = group;
        push_note(&mut self.notes, lane, Act::Collect { group });
        Ok(())
    }

    /// The next group is lasting: its commit is done. What was freed two groups before it is vacant from now on, and what
    /// was freed in it is deferred, as in `metaslab_sync_done`. Takes no memory, and none of the room that `ready` took.
    /// Costs the runs of the trees of what is vacant, freed and deferred.
    pub fn settle(&mut self, lane: u8, group: Group)
        requires lane { IsLane lane }
        requires group { group.0 ≡ settled_of self.old + 1 }
        requires collected { group.0 ≤ collected_of self.old }
        ensures note { self.new.notes ≡ noted self.old.notes lane (Settle group) }
        ensures stays { StaysButNotes self.old self.new }
        ensures room { self.old.room ≤ self.new.room }
        ensures memory { self.new.memory ≡ self.old.memory }
    {
        self.deferred -= stepping::units(&self.trees, Tree::Deferred(group));
        settle_trees(&mut self.trees, group, self.loaded);
        self.settled = group;
        push_note(&mut self.notes, lane, Act::Settle { group });
    }

    /// Brings free space into memory, as `metaslab_load` does: `held` is what the settled groups hold. Answers false, and
    /// changes nothing, where it is there already. Needs no `ready`, and may use up what one took. Costs a call on the trees
    /// for each segment of `held`, and one more.
    pub fn load(&mut self, lane: u8, held: &[Seg]) -> Result<bool, AllocError>
        requires lane { IsLane lane }
        requires segs { AreSegs self.old.units held.now }
        requires held { (u : ℕ) → u < self.old.units → covered held.now u ≡ holds (origin_of self.old) self.old.notes (settled_of self.old) u }
        ensures already { is_loaded self.old.notes ≡ true → result ≡ Ok false }
        ensures loads { is_loaded self.old.notes ≡ false → IfOk result (λ loads. loads ≡ true) }
        ensures note { result ≡ Ok true → self.new.notes ≡ noted self.old.notes lane Load }
        ensures same { result ≡ Ok false → self.new ≡ self.old }
        ensures memory { HasMore self.old self.new }
        ensures stays { StaysButNotes self.old self.new }
        ensures err { OnErr result (self.new.notes ≡ self.old.notes) }
    {
        if self.loaded {
            return Ok(false);
        }
        let unsettled = (self.collected.0 - self.settled.0) as usize;
        let nodes = held.len() as u32 + 1;
        reserve(&mut self.notes, &mut self.trees, unsettled + 1, nodes)?;
        add_gaps(&mut self.trees, held, self.units);
        self.cursors = [0; CURSORS];
        self.loaded = true;
        push_note(&mut self.notes, lane, Act::Load);
        Ok(true)
    }

    /// The lowest unit at which these segments and what the settled groups hold differ, by the base and the journal: what
    /// `load` needs of them is that there is none. Costs the units, and those of each segment of the journal.
    pub fn differs(&self, held: &[Seg]) -> Result<Option<u32>, AllocError>
        requires { AreSegs self.now.units held.now }
        ensures { IfOk result (DiffersFirst (covered held.now) (holds (origin_of self.now) self.now.notes (settled_of self.now)) self.now.units) }
    {
        let alloc = *self.notes.allocator();
        differs_at(
            alloc,
            &self.base,
            &self.notes,
            self.settled,
            self.units,
            held,
        )
    }

    /// How many units are vacant.
    fn vacant(&self) -> u32
        ensures { result ≡ vacant_units (origin_of self.now) self.now.notes }
    {
        self.units - self.live - self.deferred
    }

    /// How many units are handed out, deferred and vacant, at constant cost.
    pub fn counts(&self) -> Counts
        ensures live { result.live ≡ live_units (origin_of self.now) self.now.notes }
        ensures deferred { result.deferred ≡ deferred_units (origin_of self.now) self.now.notes }
        ensures vacant { result.vacant ≡ vacant_units (origin_of self.now) self.now.notes }
    {
        Counts {
            live: self.live,
            deferred: self.deferred,
            vacant: self.vacant(),
        }
    }

    /// The histogram of the vacant runs or, while it is not loaded, of one run of as many units.
    fn vacant_runs(&self) -> Histogram
        ensures loaded { is_loaded self.now.notes ≡ true → IsHistogramOf (is_vacant (origin_of self.now) self.now.notes) self.now.units self.now.ashift result }
        ensures unloaded { is_loaded self.now.notes ≡ false → IsHistogramOf (as_one_run (origin_of self.now) self.now.notes) self.now.units self.now.ashift result }
    {
        if self.loaded {
            return stepping::histogram(&self.trees, Tree::Allocatable, self.ashift);
        }
        one_run(self.vacant(), self.ashift, self.units)
    }

    /// Its weight, by which metaslabs are compared: that of its vacant runs and, while it is not loaded, of as many vacant
    /// units in one run, so 0 where none is vacant. Costs a histogram of the trees. After `metaslab_segment_weight`
    /// and `metaslab_weight_from_spacemap`.
    pub fn weight(&self) -> u64
        ensures loaded { is_loaded self.now.notes ≡ true → IsWeightOfSet (is_vacant (origin_of self.now) self.now.notes) self.now.units self.now.ashift result }
        ensures unloaded { is_loaded self.now.notes ≡ false → IsWeightOfSet (as_one_run (origin_of self.now) self.now.notes) self.now.units self.now.ashift result }
    {
        weight_of(&self.vacant_runs())
    }

    /// The group that was settled last, or the opened one. The journal so far is legal, and each note of it is of a lane
    /// from 1 to 16.
    pub fn settled(&self) -> Group
        ensures group { result.0 ≡ settled_of self.now }
        ensures lanes { AreOfLanes self.now.notes }
        ensures legal { IsLegal (origin_of self.now) self.now.notes }
    {
        self.settled
    }

    /// The group that was collected last, or the opened one.
    pub fn collected(&self) -> Group
        ensures { result.0 ≡ collected_of self.now }
    {
        self.collected
    }

    /// How many units it has.
    pub fn units(&self) -> u32
        ensures { result ≡ self.now.units }
    {
        self.units
    }

    /// Is its free space in memory?
    pub fn loaded(&self) -> bool
        ensures { result ≡ is_loaded self.now.notes }
    {
        self.loaded
    }
}

impl<R: SegTrees + Drop> Metaslab<R> {
    /// The journal, with the metaslab's name, its units and their shift, and how many units the base holds. Each note is of
    /// a lane from 1 to 16. Takes no memory.
    pub fn into_journal(self) -> MsJournal
        ensures id { result.id ≡ self.id }
        ensures units { result.units ≡ self.units }
        ensures ashift { result.ashift ≡ self.ashift }
        ensures held { result.held ≡ units_in (covered self.base) self.units }
        ensures notes { result.notes ≡ self.notes }
        ensures lanes { AreOfLanes self.notes }
        ensures legal { IsLegal (origin_of self) self.notes }
    {
        MsJournal {
            id: self.id,
            units: self.units,
            ashift: self.ashift,
            held: self.held,
            notes: Items::from_vec(self.notes),
        }
    }
}
