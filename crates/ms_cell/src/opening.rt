//! The cells of a layout, made when its pool is opened.
ghost use Rattle.std.specs.Prelude.{◌≡◌, ℕ, ◌<◌, IfOk, length};
ghost use Rattle.zms_units.specs.Limits.{IsPoolGroup};
ghost use Rattle.zms_units.specs.Segments.{AreSegs};
ghost use Rattle.zms_units.specs.declared.places.MsId.{MsId};
ghost use Rattle.turn_passes.specs.Parts.{IsRest};
ghost use Rattle.turn_passes.specs.Pairs.{Each};
ghost use Rattle.vdev_map.specs.Limits.{AreVdevs, IsLayout};
ghost use Rattle.vdev_map.specs.Numbers.{IsIn, number_of, row_at, metaslabs_in};
ghost use Rattle.ms_cell.specs.Passes.{AreRests};
ghost use Rattle.ms_cell.specs.Closed.{AreBases, BasesStand, StandsBy};

use crate::cells::{CellPasses, Cells, MsCell};
use ms_core::Metaslab;
use seg_trees::SegTrees;
use std::alloc::{AllocError, Global};
use turn_cell::Pass;
use turn_passes::new_turn;
use txg_gate::Gate;
use vdev_map::{Layout, id_of};
use zms_units::{Group, Items, Seg, VdevRow};

/// The cells of a layout at a group that was opened, where `bases` are the runs that this group holds of each metaslab, in
/// order; and the rest of their rights, which is all of them. Costs the bases.
pub fn make_cells<R: SegTrees + Drop>(
    alloc: Global,
    layout: Layout,
    opened: Group,
    bases: Vec<Items<Seg>>,
) -> Result<(Cells<R>, CellPasses<R>), AllocError>
    requires layout { IsLayout layout }
    requires opened { IsPoolGroup opened.0 }
    requires bases { AreBases layout.vdevs bases.items }
    ensures vdevs { IfOk result (λ r. r.0.vdevs ≡ layout.vdevs) }
    ensures opened { IfOk result (λ r. r.0.opened ≡ opened.0) }
    ensures rests { IfOk result (λ r. AreRests 0 r.0 r.1) }
    ensures bases { IfOk result (λ r. BasesStand bases.items r.1) }
{
    let (metaslabs, rests) = make_metaslabs(alloc, layout.vdevs.as_slice(), opened, bases)?;
    let Ok((gate, rest)) = new_turn(alloc, Gate::new(alloc, opened)) else {
        return Err(AllocError);
    };
    let cells = Cells {
        layout,
        opened,
        gate,
        metaslabs,
    };
    let passes = CellPasses {
        gate: rest,
        metaslabs: rests,
    };
    Ok((cells, passes))
}

// The metaslabs in order, each under a new turn, and the rest of the rights of each.
fn make_metaslabs<R: SegTrees + Drop>(
    alloc: Global,
    vdevs: &[VdevRow],
    opened: Group,
    bases: Vec<Items<Seg>>,
) -> Result<(Vec<MsCell<R>>, Vec<Pass<Metaslab<R>>>), AllocError>
    requires vdevs { AreVdevs vdevs.now }
    requires opened { IsPoolGroup opened.0 }
    requires bases { AreBases vdevs.now bases.items }
    ensures counts { IfOk result (λ r. (length r.0.items ≡ length bases.items) × (length r.1.items ≡ length bases.items)) }
    ensures rests { IfOk result (λ r. Each (λ k t p. IsRest 0 t p) r.0.items r.1.items) }
    ensures stand { IfOk result (λ r. Each (λ k base c. StandsBy vdevs.now opened.0 k base c) bases.items r.1.items) }
{
    let mut metaslabs = Vec::with_capacity(alloc, bases.len())?;
    let mut rests = Vec::with_capacity(alloc, bases.len())?;
    let mut bases = bases.into_iter();
    while let Some(base) = bases.next() {
        let number = metaslabs.len() as u32;
        let (turn, rest) = make_cell(alloc, vdevs, opened, number, base.into_vec())?;
        metaslabs.push_reserved(turn);
        rests.push_reserved(rest);
    }
    Ok((metaslabs, rests))
}

// The metaslab of a number under a new turn, and the rest of its rights.
fn make_cell<R: SegTrees + Drop>(
    alloc: Global,
    vdevs: &[VdevRow],
    opened: Group,
    number: u32,
    base: Vec<Seg>,
) -> Result<(MsCell<R>, Pass<Metaslab<R>>), AllocError>
    requires vdevs { AreVdevs vdevs.now }
    requires opened { IsPoolGroup opened.0 }
    requires number { number < metaslabs_in vdevs.now }
    requires base { (id : MsId) → IsIn vdevs.now id → number_of vdevs.now id ≡ number → AreSegs (row_at vdevs.now id.vdev).units base.items }
    ensures rest { IfOk result (λ r. IsRest 0 r.0 r.1) }
    ensures stands { IfOk result (λ r. StandsBy vdevs.now opened.0 number base.items r.1) }
{
    let id = id_of(vdevs, number);
    let row = &vdevs[id.vdev as usize];
    let Ok(metaslab) = Metaslab::new(alloc, id, row, opened, base) else {
        return Err(AllocError);
    };
    let Ok(cell) = new_turn(alloc, metaslab) else {
        return Err(AllocError);
    };
    Ok(cell)
}
