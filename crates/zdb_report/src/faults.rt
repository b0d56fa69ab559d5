ghost use Rattle.std.specs.Prelude.{◌≡◌};
ghost use Rattle.zdb_report.specs.Faults.{of_found};
ghost use Rattle.zdb_report.specs.declared.faults.ReportFault.TheVariants.{Write as WriteFailed};

use meta_store::FoundFault;
use zms_dev::Failed;
use zms_units::{Damage, MsId};

/// Why a report was not written to its end.
#[derive(Clone, Copy, Debug, PartialEq, Eq)]
pub enum ReportFault {
    /// The sink failed.
    Write,
    /// The device failed.
    Device,
    /// The words of a metaslab are damaged. Of the metaslabs in order it is the first.
    Damaged { id: MsId, damage: Damage },
    Memory,
}

impl From<Failed> for ReportFault {
    ghost from_gives = { λ _ e. e ≡ WriteFailed };

    fn from(_: Failed) -> Self {
        ReportFault::Write
    }
}

impl From<FoundFault> for ReportFault {
    ghost from_gives = { λ fault e. e ≡ of_found fault };

    fn from(fault: FoundFault) -> Self {
        match fault {
            FoundFault::Failed => ReportFault::Device,
            FoundFault::Memory => ReportFault::Memory,
            FoundFault::Damaged { id, damage } => ReportFault::Damaged { id, damage },
        }
    }
}
