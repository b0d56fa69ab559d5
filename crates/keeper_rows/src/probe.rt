//! A lane inside the device: it takes a grant while the keeper waits for the device.
ghost use Rattle.zms_units.specs.Limits.{IsLane};
ghost use Rattle.ms_cell.specs.Passes.{AreFresh};

use crate::pool::{Passes, Pool, count_of, id_at};
use ms_cell::{Look, try_grant_at};
use std::marker::Model;
use zms_units::Group;

/// The passes of a lane that did nothing yet.
#[derive(Drop)]
pub struct Probe<'c> {
    cells: &'c Pool,
    passes: Passes,
    lane: u8,
}

impl<'c> Model for Probe<'c> {
    ghost use Rattle.std.specs.Prelude.{ℕ};
    ghost use Rattle.zms_units.specs.Limits.{IsLane};
    ghost use Rattle.ms_cell.specs.Passes.{AreFresh};

    ghost Value = { ℕ };

    ghost view = { λ p. p.lane };

    ghost invariant = { λ p. IsLane p.lane × AreFresh p.lane p.cells.now p.passes };
}

impl<'c> Probe<'c> {
    pub fn new(cells: &'c Pool, passes: Passes, lane: u8) -> Self
        requires lane { IsLane lane }
        requires fresh { AreFresh lane cells.now passes }
    {
        Probe {
            cells,
            passes,
            lane,
        }
    }

    /// Tries to take a unit of the first metaslab in the second group of the pool, and whether it was granted.
    pub fn is_granted(self) -> bool {
        let Probe {
            cells,
            mut passes,
            lane,
        } = self;
        let opened = cells.opened.0;
        if count_of(cells) == 0 || opened > 1_000_000 {
            return false;
        }
        let id = id_at(cells, 0);
        let group = Group(opened + 2);
        let look = try_grant_at(cells, &mut passes, lane, id, group, 1);
        matches!(look, Ok(Look::Granted(_)))
    }
}
