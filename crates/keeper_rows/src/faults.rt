//! The count of a device's failed calls.
ghost use Rattle.std.specs.Prelude.{◌≡◌, IfOk, is_ok, if◌then◌else◌};
ghost use Rattle.zms_dev.specs.Causes.{HasCause, one_more};

use zms_dev::Failed;

/// How often a device has failed. The count stands still at the greatest u64.
#[derive(Clone, Copy, Debug, PartialEq, Eq)]
pub struct Faults {
    pub count: u64,
}

impl Faults {
    /// Nothing has failed yet.
    pub const NONE: Faults = Faults { count: 0 };

    /// The answer of a call, whose error is counted.
    pub fn noted<T, E: Drop>(&mut self, answer: Result<T, E>) -> Result<T, Failed>
        ensures kept { IfOk result (λ x. answer ≡ Ok x) }
        ensures variant { is_ok result ≡ is_ok answer }
        ensures count { self.new.count ≡ (if is_ok answer then self.old.count else one_more self.old.count) }
        ensures cause { HasCause self.old.count self.new.count result }
    {
        match answer {
            Ok(value) => Ok(value),
            Err(_) => {
                self.count = self.count.saturating_add(1);
                Err(Failed)
            }
        }
    }
}
