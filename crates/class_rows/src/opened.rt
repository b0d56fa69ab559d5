//! A class that was opened, and which vdevs and metaslabs it has.
ghost use Rattle.std.specs.Prelude.{◌≡◌, ◌<◌, ◌≤◌, ◌↔◌, true, length, IsTrue, IfOk};
ghost use Rattle.zms_units.specs.Limits.{IsLane};
ghost use Rattle.vdev_map.specs.Limits.{AreVdevs};
ghost use Rattle.vdev_map.specs.Numbers.{metaslabs_in, row_at};
ghost use Rattle.class_model.specs.Replay.{IsVdevOf, IsIn};
ghost use Rattle.class_core.specs.Classes.{HasClass};

use class_core::{ClassCell, Picked};
use ms_model::{ClassJournal, Kind, Start};
use std::alloc::{AllocError, Global};
use std::marker::Model;
use vdev_map::{Layout, check};
use zms_units::{Class, MsId, VdevRow};

/// A class with the layout that it was opened with. Contracts see what the class was then.
#[derive(Drop)]
pub struct Opened {
    cell: ClassCell,
    layout: Layout,
    class: Class,
}

impl Model for Opened {
    ghost use Rattle.class_model.specs.declared.origin.ClassOrigin.{ClassOrigin};

    ghost Value = { ClassOrigin };

    ghost use Rattle.class_rows.specs.Fitting.{IsClassOf};

    ghost view = { λ o. o.cell.origin };

    ghost invariant = { λ o. IsClassOf o.layout.vdevs o.class o.cell.origin };
}

/// How many metaslabs there are in all.
pub fn total(vdevs: &[VdevRow]) -> usize
    requires { length vdevs.now ≤ 16 }
    ensures { result ≡ metaslabs_in vdevs.now }
{
    let mut metaslabs = 0;
    for row in vdevs {
        metaslabs += usize::from(row.metaslabs);
    }
    metaslabs
}

fn is_same(one: Class, other: Class) -> bool
    ensures { IsTrue result ↔ (one ≡ other) }
{
    one == other
}

/// Is this the number of a vdev of the class?
fn has_class(rows: &[VdevRow], class: Class, vdev: u8) -> bool
    ensures { result ≡ true → HasClass rows.now class vdev }
{
    (vdev as usize) < rows.len() && is_same(rows[vdev as usize].class, class)
}

/// Is this a metaslab of the class?
fn has_metaslab(rows: &[VdevRow], class: Class, id: MsId) -> bool
    ensures { result ≡ true → HasClass rows.now class id.vdev × (id.index < (row_at rows.now id.vdev).metaslabs) }
{
    has_class(rows, class, id.vdev) && id.index < rows[id.vdev as usize].metaslabs
}

pub fn is_lane(lane: u8) -> bool
    ensures { result ≡ true → IsLane lane }
{
    1 <= lane && lane <= 16
}

impl Opened {
    /// None where the layout is past a limit, or there is not one weight for each metaslab.
    pub fn new(
        alloc: Global,
        class: Class,
        layout: Layout,
        weights: &[u64],
    ) -> Result<Option<Opened>, AllocError> {
        if let Err(_) = check(&layout) {
            return Ok(None);
        }
        if total(layout.vdevs.as_slice()) != weights.len() {
            return Ok(None);
        }
        let cell = ClassCell::new(alloc, class, &layout, weights)?;
        Ok(Some(Opened {
            cell,
            layout,
            class,
        }))
    }

    fn has_vdev(&self, vdev: u8) -> bool
        ensures { result ≡ true → IsVdevOf self.now vdev }
    {
        has_class(self.layout.vdevs.as_slice(), self.class, vdev)
    }

    fn has(&self, id: MsId) -> bool
        ensures { result ≡ true → IsIn self.now id }
    {
        has_metaslab(self.layout.vdevs.as_slice(), self.class, id)
    }

    pub fn begin(&self) -> Option<u8> {
        self.cell.begin()
    }

    /// None where that is no call of the class; so in what follows.
    pub fn pick(
        &mut self,
        lane: u8,
        kind: Kind,
        vdev: u8,
        bytes: u64,
        start: Start,
    ) -> Result<Option<Option<Picked>>, AllocError> {
        if !is_lane(lane) || !self.has_vdev(vdev) {
            return Ok(None);
        }
        let picked = self.cell.pick(lane, kind, vdev, bytes, start)?;
        Ok(Some(picked))
    }

    pub fn granted(
        &mut self,
        lane: u8,
        id: MsId,
        bytes: u64,
        weight: u64,
    ) -> Result<bool, AllocError> {
        if !is_lane(lane) || !self.has(id) {
            return Ok(false);
        }
        self.cell.granted(lane, id, bytes, weight)?;
        Ok(true)
    }

    pub fn missed(&mut self, lane: u8, id: MsId, weight: u64) -> Result<bool, AllocError> {
        if !is_lane(lane) || !self.has(id) {
            return Ok(false);
        }
        self.cell.missed(lane, id, weight)?;
        Ok(true)
    }

    pub fn weigh(&mut self, lane: u8, id: MsId, weight: u64) -> Result<bool, AllocError> {
        if !is_lane(lane) || !self.has(id) {
            return Ok(false);
        }
        self.cell.weigh(lane, id, weight)?;
        Ok(true)
    }

    pub fn into_journal(self) -> ClassJournal {
        self.cell.into_journal()
    }
}
