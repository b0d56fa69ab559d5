//! The report of a pool.

ghost use Rattle.std.specs.Prelude.{◌≡◌};
ghost use Rattle.zms_dev.specs.Disk.{Tells};
ghost use Rattle.zms_dev.specs.Runs.{Untouched};
ghost use Rattle.zms_top.specs.PoolReports.{status_of_report, ReportEnds};

use crate::run::open_status;
use crate::status::{PoolCause, Status};
use meta_store::{At, OpenCause};
use std::alloc::Global;
use zdb_report::ReportFault;
use zms_dev::{Disk, Sink};

/// Why a report was not written.
fn report_status(fault: ReportFault) -> Status
    ensures { result ≡ status_of_report fault }
{
    match fault {
        ReportFault::Write => Status::WriteFault,
        ReportFault::Device => Status::DeviceFault,
        ReportFault::Damaged { id, damage } => Status::NotAPool {
            cause: PoolCause::Open(OpenCause::MapDamaged { id, damage }),
        },
        ReportFault::Memory => Status::Memory,
    }
}

/// Prints the report of the pool of a device at a group. The device is only read. Linear in the words that the group names
/// and in its units.
pub(crate) fn report<K: Sink, D: Disk>(alloc: Global, out: &mut K, disk: D, at: At) -> (Status, D)
    ensures ends { ReportEnds at (K.state out.old) (K.state out.new) (D.state disk) (D.faults disk) (D.faults result.1) result.0 }
    ensures rests { Tells (D.state disk) → Untouched (D.state disk) (D.state result.1) }
{
    let mut store = match meta_store::open(alloc, disk, at) {
        Ok(store) => store,
        Err((disk, fault)) => return (open_status(fault), disk),
    };
    match zdb_report::report(alloc, out, &mut store) {
        Ok(()) => (Status::Done, store.into_disk()),
        Err(fault) => (report_status(fault), store.into_disk()),
    }
}
