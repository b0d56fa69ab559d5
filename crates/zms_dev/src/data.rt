// The device of one vdev.
ghost use Rattle.std.specs.Prelude.{◌≡◌, ℕ, IsSome};
ghost use Rattle.zms_dev.specs.Bytes.{DiffersOnlyIn};
ghost use Rattle.zms_dev.specs.Causes.{HasCause};
ghost use Rattle.zms_dev.specs.Data.{DataState, data_of, discards_of, TellsAlike, WroteData, Noted};

use crate::Failed;

/// The device of one vdev, which holds the data of its segments. Places and lengths are in bytes. Past its end it
/// reads as zeros, and discarded bytes read as anything. No call changes bytes outside its range.
pub trait Data {
    /// What the device means now.
    ghost state: { Self → DataState };

    /// How often it has failed.
    ghost faults: { Self → ℕ };

    /// Writes over what stands from `at` on, and past the end.
    fn write(&mut self, at: u64, bytes: &[u8]) -> Result<(), Failed>
        ensures wrote { IsSome (state self.old).contents → WroteData (state self.old) (state self.new) at bytes.now result }
        ensures discards { IsSome (state self.old).discards → discards_of (state self.new) ≡ discards_of (state self.old) }
        ensures kind { TellsAlike (state self.old) (state self.new) }
        ensures cause { HasCause (faults self.old) (faults self.new) result };

    /// Gives up the bytes of a range, as TRIM does. They may read as anything from then on.
    fn discard(&mut self, at: u64, len: u64) -> Result<(), Failed>
        ensures bytes { IsSome (state self.old).contents → DiffersOnlyIn at len (data_of (state self.old)) (data_of (state self.new)) }
        ensures discards { IsSome (state self.old).discards → Noted (state self.old) (state self.new) at len result }
        ensures kind { TellsAlike (state self.old) (state self.new) }
        ensures cause { HasCause (faults self.old) (faults self.new) result };

    /// How often it has failed. The count stands still at the greatest u64.
    fn faults(&self) -> u64
        ensures { result ≡ faults self.now };
}
