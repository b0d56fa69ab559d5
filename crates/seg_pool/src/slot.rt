//! One place of a pool.
ghost use Rattle.std.specs.Prelude.{◌≡◌, Some, IsSome};
ghost use Rattle.std.specs.Borrow.{Lends, sem};
ghost use Rattle.seg_pool.specs.Slots.{node_of};

/// A vacant place, with the next one of the list, or a node.
#[derive(Debug, Drop)]
pub(crate) enum Slot<N> {
    Vacant(u32),
    Used(N),
}

impl<N> Slot<N> {
    ghost use Rattle.seg_pool.specs.contracts.slot.Slot.{the_row};

    /// The node of a place in use, for writing.
    pub(crate) fn node_mut(&mut self) -> &mut N
        requires { IsSome (node_of self.old) }
        ensures* lends { sem 𝓛 (Lends (the_row N.row) N.row self.entry result Slot.Used) }
        ensures node { node_of self.old ≡ Some result.now }
    {
        match self {
            Slot::Used(node) => node,
            Slot::Vacant(_) => unreachable!(),
        }
    }
}
