//! A pool as a run keeps it beside its store: one metaslab and the gate.

use ms_core::Metaslab;
use seg_trees::PlainTrees;
use txg_gate::Gate;
use zms_units::{First, MsId, Seg};

/// The shift of the one vdev's units: 4096 bytes.
pub(crate) const ASHIFT: u8 = 12;

/// The one metaslab of a pool.
pub(crate) const FIRST_METASLAB: MsId = MsId { vdev: 0, index: 0 };

/// What a run keeps of its pool between two commands.
#[derive(Drop)]
pub(crate) struct Pool {
    pub(crate) metaslab: Metaslab<PlainTrees>,
    pub(crate) gate: Gate,
    // What the opened group holds, from which the metaslab is loaded.
    pub(crate) base: Vec<Seg>,
    // The first fault of the device or damage, after which it is written no more.
    pub(crate) first: Option<First>,
}
