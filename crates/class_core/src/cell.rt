//! A class and its calls.
ghost use Rattle.std.specs.Prelude.{◌≡◌, ℕ, ◌*◌, ◌+◌, ◌<◌, [], map, length, OnOk, OnErr, IfOk, IfSome};
ghost use Rattle.zms_units.specs.Limits.{IsLane};
ghost use Rattle.vdev_map.specs.Limits.{AreVdevs};
ghost use Rattle.vdev_map.specs.Numbers.{metaslabs_in};
ghost use Rattle.ms_model.specs.declared.notes.ClassNote.TheVariants.{Pick, Granted, Missed, Weigh};
ghost use Rattle.class_model.specs.Replay.{IsAmong, IsVdevOf, IsIn};
ghost use Rattle.class_model.specs.Legal.{IsClassLegal, allocator_of};
ghost use Rattle.class_core.specs.Groups.{kind_place, IsPlaceOf};
ghost use Rattle.class_core.specs.Classes.{noted, finds_active, got_of, IsBegin, IsPicked, IsOriginOf};

use crate::group::MetaslabGroup;
use crate::making::groups_of;
use crate::picked::Picked;
use crate::rotor::Rotor;
use ms_model::{ClassJournal, ClassNote, Got, Kind, Start};
use std::alloc::{AllocError, Global};
use std::marker::Model;
use std::snapshot::Snapshot;
use vdev_map::Layout;
use zms_units::{Class, Items, MsId};

/// Which metaslab an allocation of a class looks at next, after `metaslab_class_t`: the metaslabs of each of its vdevs,
/// by rising number, the rotor over the vdevs, and the journal of all calls.
#[derive(Drop)]
pub struct ClassCell {
    class: Class,
    first: Snapshot<Vec<MetaslabGroup>>,
    groups: Vec<MetaslabGroup>,
    rotor: Rotor,
    notes: Vec<(u8, ClassNote)>,
}

impl Model for ClassCell {
    ghost use Rattle.class_core.specs.Classes.{ClassState};

    ghost Value = { ClassState };

    ghost use Rattle.class_core.specs.ClassInside.{class_state, IsClass};

    ghost view = { class_state };

    ghost invariant = { IsClass };
}

/// Where a vdev stands among the groups. Linear in the vdevs, of which there are at most 16.
fn place_of(groups: &[MetaslabGroup], vdev: u8) -> usize
    requires { IsAmong (map (λ g. g.vdev) groups.now) vdev }
    ensures { IsPlaceOf groups.now vdev result }
{
    for (place, group) in groups.iter().enumerate() {
        if group.vdev() == vdev {
            return place;
        }
    }
    unreachable!()
}

/// The place of a lane's pair of allocator and kind.
fn pair_of(lane: u8, kind: Kind) -> usize
    requires { IsLane lane }
    ensures place { result ≡ 2 * allocator_of lane + kind_place kind }
    ensures below { result < 8 }
{
    2 * allocator(lane) as usize
        + match kind {
            Kind::Primary => 0,
            Kind::Secondary => 1,
        }
}

/// The allocator of a lane, one of four, as OpenZFS keeps for `spa_alloc_count`.
pub fn allocator(lane: u8) -> u8
    requires { IsLane lane }
    ensures value { result ≡ allocator_of lane }
    ensures below { result < 4 }
{
    (lane - 1) % 4
}

impl ClassCell {
    /// The class of a pool with this layout as its pool is opened: the metaslabs of its vdevs have these weights, which are
    /// in order of vdev and index, none is active, and the rotor is at its first vdev.
    ///
    /// The only error is want of memory. Costs the metaslabs times the logarithm of their number, to put them in order.
    pub fn new(
        alloc: Global,
        class: Class,
        layout: &Layout,
        weights: &[u64],
    ) -> Result<Self, AllocError>
        requires layout { AreVdevs layout.now.vdevs }
        requires weights { length weights.now ≡ metaslabs_in layout.now.vdevs }
        ensures origin { IfOk result (λ cell. IsOriginOf layout.now.vdevs class weights.now cell.origin) }
        ensures notes { IfOk result (λ cell. cell.notes ≡ []) }
    {
        let groups = groups_of(alloc, class, layout.vdevs.as_slice(), weights)?;
        Ok(ClassCell {
            class,
            first: Snapshot::of(&groups),
            groups,
            rotor: Rotor { place: 0, used: 0 },
            notes: Vec::new(alloc),
        })
    }

    /// The vdev from which allocations begin, the rotor's: None exactly where the class has no vdev.
    pub fn begin(&self) -> Option<u8>
        ensures { IsBegin self.now result }
    {
        if self.groups.is_empty() {
            return None;
        }
        Some(self.groups[self.rotor.place].vdev())
    }

    /// The metaslab of a vdev that a lane looks at next for copies of a kind. `Active` gives the active one of the lane's
    /// allocator and the kind; `Top`, and `Active` where there is none, the first inactive one that is not passed over by
    /// so many bytes; `After` the first behind the one that it names. What is given is the active one from now on, and the
    /// former becomes inactive.
    ///
    /// The only error is want of memory, and changes nothing. Costs the logarithm of the vdev's metaslabs.
    pub fn pick(
        &mut self,
        lane: u8,
        kind: Kind,
        vdev: u8,
        bytes: u64,
        start: Start,
    ) -> Result<Option<Picked>, AllocError>
        requires lane { IsLane lane }
        requires vdev { IsVdevOf self.old.origin vdev }
        ensures picked { IfOk result (IsPicked self.old lane kind vdev bytes start) }
        ensures noted { IfOk result (λ picked. self.new ≡ noted self.old lane (Pick (allocator_of lane) kind vdev bytes start (got_of picked))) }
        ensures err { OnErr result (self.new ≡ self.old) }
    {
        self.notes.reserve(1)?;
        let place = place_of(&self.groups, vdev);
        let group = &mut self.groups[place];
        let pair = pair_of(lane, kind);
        let was_active = finds_active(start, group.active(pair));
        let got = group.pick(pair, bytes, start)?;
        self.notes.push_reserved((
            lane,
            ClassNote::Pick {
                allocator: allocator(lane),
                kind,
                vdev,
                bytes,
                start,
                got,
            },
        ));
        Ok(picked_of(got, was_active))
    }

    /// So many bytes were granted in a metaslab, which weighs so much now: they count for the rotor.
    ///
    /// The only error is want of memory, and changes nothing. Costs the logarithm of the vdev's metaslabs.
    pub fn granted(&mut self, lane: u8, id: MsId, bytes: u64, weight: u64) -> Result<(), AllocError>
        requires lane { IsLane lane }
        requires id { IsIn self.old.origin id }
        ensures noted { OnOk result (self.new ≡ noted self.old lane (Granted id bytes weight)) }
        ensures err { OnErr result (self.new ≡ self.old) }
    {
        self.notes.reserve(1)?;
        let place = place_of(&self.groups, id.vdev);
        self.groups[place].weigh(id.index, weight)?;
        self.rotor = self.rotor.after(self.groups.len(), place, bytes);
        self.notes
            .push_reserved((lane, ClassNote::Granted { id, bytes, weight }));
        Ok(())
    }

    /// A metaslab that was looked at had no run long enough, and weighs so much: it is inactive from now on.
    ///
    /// The only error is want of memory, and changes nothing. Costs the logarithm of the vdev's metaslabs.
    pub fn missed(&mut self, lane: u8, id: MsId, weight: u64) -> Result<(), AllocError>
        requires lane { IsLane lane }
        requires id { IsIn self.old.origin id }
        ensures noted { OnOk result (self.new ≡ noted self.old lane (Missed id weight)) }
        ensures err { OnErr result (self.new ≡ self.old) }
    {
        self.notes.reserve(1)?;
        let place = place_of(&self.groups, id.vdev);
        self.groups[place].miss(id.index, weight)?;
        self.notes
            .push_reserved((lane, ClassNote::Missed { id, weight }));
        Ok(())
    }

    /// Posts the weight of a metaslab.
    ///
    /// The only error is want of memory, and changes nothing. Costs the logarithm of the vdev's metaslabs.
    pub fn weigh(&mut self, lane: u8, id: MsId, weight: u64) -> Result<(), AllocError>
        requires lane { IsLane lane }
        requires id { IsIn self.old.origin id }
        ensures noted { OnOk result (self.new ≡ noted self.old lane (Weigh id weight)) }
        ensures err { OnErr result (self.new ≡ self.old) }
    {
        self.notes.reserve(1)?;
        let place = place_of(&self.groups, id.vdev);
        self.groups[place].weigh(id.index, weight)?;
        self.notes
            .push_reserved((lane, ClassNote::Weigh { id, weight }));
        Ok(())
    }

    /// Gives the journal up. Takes no memory.
    pub fn into_journal(self) -> ClassJournal
        ensures class { result.class ≡ self.origin.class }
        ensures notes { result.notes ≡ self.notes }
        ensures legal { IsClassLegal self.origin self.notes }
    {
        ClassJournal {
            class: self.class,
            notes: Items::from_vec(self.notes),
        }
    }
}

/// Did a pick ask for the active metaslab, and is there one?
fn finds_active(start: Start, active: Option<u16>) -> bool
    ensures { result ≡ finds_active start active }
{
    match (start, active) {
        (Start::Active, Some(_)) => true,
        _ => false,
    }
}

fn picked_of(got: Option<Got>, was_active: bool) -> Option<Picked>
    ensures got { got_of result ≡ got }
    ensures was_active { IfSome result (λ p. p.was_active ≡ was_active) }
{
    let got = got?;
    Some(Picked {
        index: got.index,
        weight: got.weight,
        was_active,
    })
}
