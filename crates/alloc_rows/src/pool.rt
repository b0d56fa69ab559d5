//! A pool that one lane uses, and what may be asked of it.
ghost use Rattle.std.specs.Prelude.{◌≡◌, ◌≤◌, [], length, IfOk};
ghost use Rattle.std.specs.List.{All};
ghost use Rattle.vdev_map.specs.Numbers.{metaslabs_in};

use crate::loading::RowLoader;
use crate::meanwhile::{Meanwhile, OTHER};
use class_group::{ClassPasses, Classes, close_classes, join_classes, make_classes, next_classes};
use lane_passes::LanePasses;
use ms_cell::{CellPasses, Cells, LoadFault, close_cells, join_cells, make_cells, next_cells};
use ms_core::Metaslab;
use ms_model::ClassJournal;
use pool_alloc::{AllocFault, FreeFault, alloc, free_block, free_seg};
use range_tree::RangeTrees;
use std::alloc::{AllocError, Global};
use std::marker::Model;
use std::sync::Wait;
use vdev_map::{Layout, check};
use zms_units::{Block, Class, Group, Items, Seg, VdevRow};

/// The group at which the pool was opened.
const OPENED: Group = Group(4);

/// The cells and classes, what the lane has of them, its loader, and the rest of the passes, which no holder has.
#[derive(Drop)]
pub struct Pool {
    cells: Cells<RangeTrees>,
    classes: Classes,
    loader: RowLoader,
    passes: LanePasses<RangeTrees>,
    rest: CellPasses<RangeTrees>,
    class_rest: ClassPasses,
}

impl Model for Pool {
    ghost use Rattle.ms_cell.specs.Turns.{Turns};
    ghost use Rattle.alloc_rows.specs.Resting.{AreAtRest};

    ghost Value = { Turns };

    ghost view = { λ p. p.cells };

    ghost invariant = { λ p. AreAtRest p.cells p.classes p.loader.keeper p.loader.other p.loader.collected p.passes p.rest p.class_rest };
}

/// How many metaslabs there are in all.
fn total(vdevs: &[VdevRow]) -> usize
    requires { length vdevs.now ≤ 16 }
    ensures { result ≡ metaslabs_in vdevs.now }
{
    let mut metaslabs = 0;
    for row in vdevs {
        metaslabs += usize::from(row.metaslabs);
    }
    metaslabs
}

/// No runs for each of so many metaslabs.
fn no_bases(alloc: Global, count: usize) -> Result<Vec<Items<Seg>>, AllocError>
    ensures count { IfOk result (λ bases. length bases.items ≡ count) }
    ensures empty { IfOk result (λ bases. All (λ base. base ≡ []) bases.items) }
{
    let mut bases = Vec::with_capacity(alloc, count)?;
    for _ in 0..count {
        bases.push_reserved(Items::new(alloc));
    }
    Ok(bases)
}

impl Pool {
    /// Opens a pool of these vdevs, whose metaslabs hold nothing and are posted to the classes with these weights. None where
    /// the layout is past a limit, or there is not one weight for each metaslab.
    pub fn new(
        alloc: Global,
        vdevs: Vec<VdevRow>,
        weights: Vec<u64>,
    ) -> Result<Option<Pool>, AllocError> {
        let layout = Layout {
            flush: 2,
            log: 64,
            vdevs: Items::from_vec(vdevs),
        };
        if check(&layout).is_err() || total(layout.vdevs.as_slice()) != weights.len() {
            return Ok(None);
        }
        let bases = no_bases(alloc, weights.len())?;
        let (classes, mut class_rest) = make_classes(alloc, &layout, &Items::from_vec(weights))?;
        let (cells, mut rest) = make_cells(alloc, layout, OPENED, bases)?;
        let keeper = next_cells(alloc, &cells, &mut rest, 0)?;
        let _none = next_classes(alloc, &classes, &mut class_rest, 0)?;
        let passes = LanePasses {
            lane: 1,
            cells: next_cells(alloc, &cells, &mut rest, 1)?,
            classes: next_classes(alloc, &classes, &mut class_rest, 1)?,
        };
        let other = next_cells(alloc, &cells, &mut rest, OTHER)?;
        Ok(Some(Pool {
            cells,
            classes,
            loader: RowLoader::new(alloc, keeper, other),
            passes,
            rest,
            class_rest,
        }))
    }

    /// From these runs metaslabs are loaded from now on.
    pub fn hold(&mut self, held: Vec<Seg>) {
        self.loader.held = held;
    }

    /// Each load is refused so from now on, if at all.
    pub fn refuse(&mut self, refusal: Option<LoadFault>) {
        self.loader.refusal = refusal;
    }

    /// This is done before the next load.
    pub fn meanwhile(&mut self, meanwhile: Meanwhile) {
        self.loader.meanwhile = Some(meanwhile);
    }

    pub fn alloc<W: Wait>(
        &mut self,
        rt: &W,
        memory: Global,
        size: u64,
        class: Class,
        copies: u8,
    ) -> Result<Block, AllocFault> {
        alloc(
            rt,
            memory,
            &self.cells,
            &self.classes,
            &mut self.loader,
            &mut self.passes,
            size,
            class,
            copies,
        )
    }

    /// A block has at most three copies.
    pub fn free_block<W: Wait>(&mut self, rt: &W, block: &Block) -> Result<Group, FreeFault>
        requires { length block.now.copies ≤ 3 }
    {
        free_block(rt, &self.cells, &mut self.loader, &mut self.passes, block)
    }

    pub fn free_seg<W: Wait>(
        &mut self,
        rt: &W,
        vdev: u8,
        offset: u64,
        size: u64,
    ) -> Result<Group, FreeFault> {
        free_seg(
            rt,
            &self.cells,
            &mut self.loader,
            &mut self.passes,
            vdev,
            offset,
            size,
        )
    }

    /// Ends every turn, and gives the metaslabs and the journals of the classes.
    pub fn end<W: Wait>(
        self,
        rt: &W,
        alloc: Global,
    ) -> Result<(Vec<Metaslab<RangeTrees>>, Vec<ClassJournal>), AllocError> {
        let Pool {
            cells,
            classes,
            loader,
            passes,
            mut rest,
            mut class_rest,
        } = self;
        let room = Vec::with_capacity(alloc, cells.metaslabs.len())?;
        let class_room = Vec::with_capacity(alloc, 4)?;
        join_cells(&cells, &mut rest, loader.keeper);
        join_cells(&cells, &mut rest, loader.other);
        join_cells(&cells, &mut rest, passes.cells);
        join_classes(&classes, &mut class_rest, passes.classes);
        let (_, metaslabs) = close_cells(rt, cells, rest, room);
        let journals = close_classes(rt, classes, class_rest, class_room);
        Ok((metaslabs, journals))
    }
}
