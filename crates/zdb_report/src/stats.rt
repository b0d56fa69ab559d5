//! What the report tells of one metaslab.

use vdev_map::MsRow;
use zms_units::{Class, Histogram, MsId};

/// A metaslab's name, its class and shift, its row in the table, how many of its units are held and how many are vacant, and
/// the histogram and the weight of its vacant runs.
#[derive(Clone, Copy)]
pub struct MetaslabStats {
    pub id: MsId,
    pub class: Class,
    pub ashift: u8,
    pub row: MsRow,
    pub live: u64,
    pub vacant: u64,
    pub hist: Histogram,
    pub weight: u64,
}
