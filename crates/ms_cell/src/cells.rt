ghost use Rattle.std.specs.Prelude.{◌≡◌, ℕ, ◌<◌, length};
ghost use Rattle.zms_units.specs.declared.places.MsId.{MsId};
ghost use Rattle.vdev_map.specs.Numbers.{IsIn, number_of};

use ms_core::Metaslab;
use seg_trees::SegTrees;
use std::marker::Model;
use turn_cell::{Pass, Turn};
use txg_gate::Gate;
use vdev_map::{Layout, number_of};
use zms_units::{Group, MsId};

/// A metaslab under its turn.
pub type MsCell<R> = Turn<Metaslab<R>>;

/// The cells of a pool: the gate, and the metaslabs in order of vdev and index. Lanes share them.
#[derive(Drop)]
pub struct Cells<R: SegTrees> {
    pub layout: Layout,
    pub opened: Group,
    pub gate: Turn<Gate>,
    pub metaslabs: Vec<MsCell<R>>,
}

impl<R: SegTrees> Model for Cells<R> {
    ghost use Rattle.ms_cell.specs.Turns.{Turns, turns_in, AreCellsInside};

    ghost Value = { Turns };

    ghost view = { turns_in };

    ghost invariant = { AreCellsInside };
}

/// What one holder knows of the cells, one pass a cell.
#[derive(Drop)]
pub struct CellPasses<R: SegTrees> {
    pub gate: Pass<Gate>,
    pub metaslabs: Vec<Pass<Metaslab<R>>>,
}

impl<R: SegTrees> Model for CellPasses<R> {
    ghost use Rattle.ms_cell.specs.Passes.{Passes};

    ghost Value = { Passes };

    ghost view = { λ p. record { gate = p.gate; metaslabs = p.metaslabs.items } };
}

impl<R: SegTrees> Cells<R> {
    /// The place of a metaslab among the cells. Linear in the vdevs, of which there are at most 16.
    pub fn place_of(&self, id: MsId) -> usize
        requires { IsIn self.now.vdevs id }
        ensures place { result ≡ number_of self.now.vdevs id }
        ensures within { result < length self.now.metaslabs }
        ensures one_to_one { (other : MsId) → IsIn self.now.vdevs other → number_of self.now.vdevs other ≡ result → other ≡ id }
    {
        number_of(self.layout.vdevs.as_slice(), id) as usize
    }
}
