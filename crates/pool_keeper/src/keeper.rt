ghost use Rattle.std.specs.Prelude.{◌≡◌, ℕ, [], ◌++◌};
ghost use Rattle.ms_cell.specs.Turns.{Turns};
ghost use Rattle.pool_keeper.specs.Keeper.{MayBegin, IsSound};

use meta_store::MetaStore;
use ms_cell::CellPasses;
use ms_model::KeeperNote;
use seg_trees::SegTrees;
use std::alloc::Global;
use std::snapshot::Snapshot;
use vdev_map::Batch;
use zms_dev::Disk;
use zms_units::First;

/// What a keeper began with. It has no bytes.
#[derive(Drop)]
pub struct Start<D, R: SegTrees> {
    pub store: Snapshot<MetaStore<D>>,
    pub passes: Snapshot<CellPasses<R>>,
}

/// What makes groups durable: the store of a pool, and the passes of its cells with right 0.
pub struct Keeper<D, R: SegTrees> {
    pub(crate) start: Start<D, R>,
    pub(crate) store: MetaStore<D>,
    pub(crate) passes: CellPasses<R>,
    // The first fault of the device, or damage. From then on the device is written no more.
    pub(crate) first: Option<First>,
    pub(crate) notes: Vec<(u8, KeeperNote)>,
    // What the next group changed at the first metaslabs, which have collected it.
    pub(crate) gathered: Vec<Batch>,
}

impl<D: Disk, R: SegTrees> Keeper<D, R> {
    /// A keeper of a store and of the cells that were made for its group.
    pub fn new(alloc: Global, store: MetaStore<D>, passes: CellPasses<R>) -> Self
        requires { (t : Turns) × MayBegin t store passes }
        ensures store { result.start.store.value ≡ store }
        ensures passes { result.start.passes.value ≡ passes }
        ensures own { result.store ≡ store }
        ensures notes { result.notes.items ≡ [] }
        ensures sound { IsSound D.state D.faults result }
    {
        let start = Start {
            store: Snapshot::of(&store),
            passes: Snapshot::of(&passes),
        };
        Keeper {
            start,
            store,
            passes,
            first: None,
            notes: Vec::new(alloc),
            gathered: Vec::new(alloc),
        }
    }

    /// The store, the passes and the journal, whatever the keeper met.
    pub fn into_parts(self) -> (MetaStore<D>, CellPasses<R>, Vec<(u8, KeeperNote)>)
        ensures store { result.0 ≡ self.store }
        ensures passes { result.1 ≡ self.passes }
        ensures notes { result.2 ≡ self.notes }
    {
        let Keeper {
            store,
            passes,
            notes,
            start: _,
            first: _,
            gathered: _,
        } = self;
        (store, passes, notes)
    }
}
