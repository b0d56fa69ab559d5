//! The classes of a layout, made when its pool is opened.
ghost use Rattle.std.specs.Prelude.{◌≡◌, ◌+◌, IfOk, OnOk, length};
ghost use Rattle.turn_passes.specs.Parts.{IsRest};
ghost use Rattle.vdev_map.specs.Limits.{IsLayout, AreVdevs};
ghost use Rattle.vdev_map.specs.Numbers.{metaslabs_in};
ghost use Rattle.class_group.specs.Turns.{place_of};
ghost use Rattle.class_group.specs.Passes.{AreRests, KnowsAt};
ghost use Rattle.class_group.specs.Opening.{AreFirst};

use crate::classes::{ClassPasses, Classes};
use class_core::ClassCell;
use std::alloc::{AllocError, Global};
use std::snapshot::Snapshot;
use turn_cell::{Pass, Turn};
use turn_passes::new_turn;
use vdev_map::Layout;
use zms_units::{Class, Items};

/// The four classes of a layout as its pool is opened: the metaslabs weigh so much, in order of vdev and index, and none is
/// active; and the rest of their rights, which is all of them.
///
/// The only error is want of memory. Costs the metaslabs times the logarithm of their number.
pub fn make_classes(
    alloc: Global,
    layout: &Layout,
    weights: &Items<u64>,
) -> Result<(Classes, ClassPasses), AllocError>
    requires layout { IsLayout layout.now }
    requires weights { length weights.now ≡ metaslabs_in layout.now.vdevs }
    ensures vdevs { IfOk result (λ r. r.0.vdevs ≡ layout.now.vdevs) }
    ensures weights { IfOk result (λ r. r.0.weights ≡ weights.now) }
    ensures rests { IfOk result (λ r. AreRests 0 r.0 r.1) }
{
    let vdevs = Vec::from_slice(alloc, layout.vdevs.as_slice())?;
    let (cells, passes) = four_classes(alloc, layout, weights)?;
    let classes = Classes {
        vdevs: Items::from_vec(vdevs),
        weights: Snapshot::of(weights),
        cells,
    };
    Ok((classes, ClassPasses { cells: passes }))
}

// The four classes in order, each under a new turn, and the rest of the rights of each.
fn four_classes(
    alloc: Global,
    layout: &Layout,
    weights: &Items<u64>,
) -> Result<(Vec<Turn<ClassCell>>, Vec<Pass<ClassCell>>), AllocError>
    requires layout { AreVdevs layout.now.vdevs }
    requires weights { length weights.now ≡ metaslabs_in layout.now.vdevs }
    ensures { IfOk result (λ r. AreFirst layout.now.vdevs weights.now 4 r.0.items r.1.items) }
{
    let mut cells = Vec::with_capacity(alloc, 4)?;
    let mut passes = Vec::with_capacity(alloc, 4)?;
    add_class(
        alloc,
        &mut cells,
        &mut passes,
        Class::Normal,
        layout,
        weights,
    )?;
    add_class(alloc, &mut cells, &mut passes, Class::Log, layout, weights)?;
    add_class(
        alloc,
        &mut cells,
        &mut passes,
        Class::Special,
        layout,
        weights,
    )?;
    add_class(
        alloc,
        &mut cells,
        &mut passes,
        Class::Dedup,
        layout,
        weights,
    )?;
    Ok((cells, passes))
}

// Adds the next class in order, under a new turn, and the rest of its rights.
fn add_class(
    alloc: Global,
    cells: &mut Vec<Turn<ClassCell>>,
    passes: &mut Vec<Pass<ClassCell>>,
    class: Class,
    layout: &Layout,
    weights: &Items<u64>,
) -> Result<(), AllocError>
    requires layout { AreVdevs layout.now.vdevs }
    requires weights { length weights.now ≡ metaslabs_in layout.now.vdevs }
    requires so_far { AreFirst layout.now.vdevs weights.now (place_of class) cells.old.items passes.old.items }
    ensures { OnOk result (AreFirst layout.now.vdevs weights.now (place_of class + 1) cells.new.items passes.new.items) }
{
    let (cell, rest) = make_class(alloc, class, layout, weights)?;
    cells.push(cell)?;
    passes.push(rest)?;
    Ok(())
}

// A class under a new turn, and the rest of its rights.
fn make_class(
    alloc: Global,
    class: Class,
    layout: &Layout,
    weights: &Items<u64>,
) -> Result<(Turn<ClassCell>, Pass<ClassCell>), AllocError>
    requires layout { AreVdevs layout.now.vdevs }
    requires weights { length weights.now ≡ metaslabs_in layout.now.vdevs }
    ensures rest { IfOk result (λ r. IsRest 0 r.0 r.1) }
    ensures knows { IfOk result (λ r. KnowsAt layout.now.vdevs weights.now (place_of class) r.1) }
{
    let cell = ClassCell::new(alloc, class, layout, weights.as_slice())?;
    let Ok(both) = new_turn(alloc, cell) else {
        return Err(AllocError);
    };
    Ok(both)
}
