//! What each atomic step tells. There are eight kinds of step: a compare-exchange of the lock (`Grab`, `Shut`), the
//! plain exchanges of the slot out and home, the count's `fetch_add`, which carries the note (`Add`), the swap of the
//! lock (`Release`), a load of the count (`Glance`, `Learn`), and the cut and the join of a pass (`Cut`, `Glue`).
ghost use Rattle.std.specs.Prelude.{ℕ, List, []};
ghost use Rattle.turn_cell.specs.Moves.{grabbed, closed, released, noted, saw, learned, left_of, part_of, joined, spent};

use crate::kept::Kept;
use crate::view::View;
use atomic_table::{Join, Play, Split};
use std::marker::{Brand, PhantomData};

pub struct Grab;

impl<T: Kept> Play<Option<T>, View<T::Note, T::Fixed>> for Grab {
    ghost then = { grabbed T.journal T.right T.stands };
}

pub struct Shut;

impl<T: Kept> Play<Option<T>, View<T::Note, T::Fixed>> for Shut {
    ghost then = { closed T.journal T.right T.stands };
}

pub struct Release;

impl<T: Kept> Play<Option<T>, View<T::Note, T::Fixed>> for Release {
    ghost then = { released T.journal T.right T.stands };
}

pub struct Glance;

impl<T: Kept> Play<Option<T>, View<T::Note, T::Fixed>> for Glance {
    ghost then = { saw T.right };
}

pub struct Learn;

impl<T: Kept> Play<Option<T>, View<T::Note, T::Fixed>> for Learn {
    ghost then = { learned T.right };
}

/// The note that a step adds. Each call picks it.
pub trait Says<N> {
    ghost notes: { List N };
}

impl<N> Says<N> for Brand {
    ghost notes = { [] };
}

pub struct Add<W> {
    says: PhantomData<W>,
}

impl<T: Kept, W: Says<T::Note>> Play<Option<T>, View<T::Note, T::Fixed>> for Add<W> {
    ghost then = { noted T.right W.notes };
}

/// The rights that a new pass is given. Each call picks them.
pub trait Parts {
    ghost rights: { List ℕ };
}

impl Parts for Brand {
    ghost rights = { [] };
}

pub struct Cut<W> {
    parts: PhantomData<W>,
}

impl<N, F, W: Parts> Split<View<N, F>> for Cut<W> {
    ghost left = { left_of W.rights };

    ghost right = { part_of W.rights };
}

pub struct Glue;

impl<N, F> Join<View<N, F>> for Glue {
    ghost both = { joined };

    ghost spent = { spent };
}
