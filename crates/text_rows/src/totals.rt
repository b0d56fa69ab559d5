//! What was counted, with the totals that are wanted.

use ms_core::Counts;
use std::alloc::{AllocError, Global};
use zms_units::{Class, VdevRow};

/// The vdevs of a pool, what was counted on their metaslabs, the last group, and the totals that are wanted.
#[derive(Drop)]
pub struct TotalsRow {
    pub vdevs: Vec<VdevRow>,
    pub counts: Vec<Counts>,
    pub group: u64,
    pub wanted: &'static str,
}

fn vdev(class: Class, ashift: u8, units: u32, metaslabs: u16) -> VdevRow {
    VdevRow {
        class,
        ashift,
        units,
        metaslabs,
    }
}

fn counts(live: u32, deferred: u32, vacant: u32) -> Counts {
    Counts {
        live,
        deferred,
        vacant,
    }
}

const OF_FIVE_VDEVS: &str = "metaslab 0 0 live 1 deferred 0 vacant 255
metaslab 0 1 live 200 deferred 6 vacant 50
metaslab 1 0 live 64 deferred 0 vacant 0
metaslab 2 0 live 0 deferred 0 vacant 128
metaslab 3 0 live 10 deferred 20 vacant 34
metaslab 3 1 live 0 deferred 64 vacant 0
metaslab 4 0 live 3 deferred 7 vacant 90
class normal live 824832 deferred 28160 vacant 1295360
class log live 32768 deferred 0 vacant 0
class special live 0 deferred 0 vacant 131072
class dedup live 20480 deferred 172032 vacant 69632
pool live 878080 deferred 200192 vacant 1496064
group 9
";

/// Vdevs of all four classes, two of one class, some of more metaslabs than one.
pub fn five_vdevs(alloc: Global) -> Result<TotalsRow, AllocError> {
    Ok(TotalsRow {
        vdevs: Vec::from_slice(
            alloc,
            &[
                vdev(Class::Normal, 12, 256, 2),
                vdev(Class::Log, 9, 64, 1),
                vdev(Class::Special, 10, 128, 1),
                vdev(Class::Dedup, 11, 64, 2),
                vdev(Class::Normal, 9, 100, 1),
            ],
        )?,
        counts: Vec::from_slice(
            alloc,
            &[
                counts(1, 0, 255),
                counts(200, 6, 50),
                counts(64, 0, 0),
                counts(0, 0, 128),
                counts(10, 20, 34),
                counts(0, 64, 0),
                counts(3, 7, 90),
            ],
        )?,
        group: 9,
        wanted: OF_FIVE_VDEVS,
    })
}

/// The classes stand in their order, whatever the order of their vdevs, and one without a vdev has no line.
pub fn two_vdevs(alloc: Global) -> Result<TotalsRow, AllocError> {
    Ok(TotalsRow {
        vdevs: Vec::from_slice(
            alloc,
            &[
                vdev(Class::Dedup, 9, 64, 1),
                vdev(Class::Normal, 12, 256, 1),
            ],
        )?,
        counts: Vec::from_slice(alloc, &[counts(0, 64, 0), counts(1, 0, 255)])?,
        group: 4,
        wanted: "metaslab 0 0 live 0 deferred 64 vacant 0
metaslab 1 0 live 1 deferred 0 vacant 255
class normal live 4096 deferred 0 vacant 1044480
class dedup live 0 deferred 32768 vacant 0
pool live 4096 deferred 32768 vacant 1044480
group 4
",
    })
}

/// More than a metaslab has: what is counted is printed as it is, and summed up.
pub fn greatest_counts(alloc: Global) -> Result<TotalsRow, AllocError> {
    Ok(TotalsRow {
        vdevs: Vec::from_slice(alloc, &[vdev(Class::Normal, 12, 64, 2)])?,
        counts: Vec::from_slice(
            alloc,
            &[
                counts(4_294_967_295, 4_294_967_295, 4_294_967_295),
                counts(1, 2, 3),
            ],
        )?,
        group: 562_949_953_421_311,
        wanted: "metaslab 0 0 live 4294967295 deferred 4294967295 vacant 4294967295
metaslab 0 1 live 1 deferred 2 vacant 3
class normal live 17592186044416 deferred 17592186048512 vacant 17592186052608
pool live 17592186044416 deferred 17592186048512 vacant 17592186052608
group 562949953421311
",
    })
}
