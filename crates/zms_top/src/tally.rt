//! What the totals need of a metaslab.

ghost use Rattle.std.specs.Prelude.{◌≤◌};

use zms_units::{Class, MsId};

/// A metaslab's name, its class and shift, and its counts in units.
#[derive(Clone, Copy)]
pub struct Tally {
    pub id: MsId,
    pub class: Class,
    pub ashift: u8,
    pub live: u32,
    pub deferred: u32,
    pub vacant: u32,
    ghost shift: { ashift ≤ 12 },
}
