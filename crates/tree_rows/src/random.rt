//! Numbers that look random, and are the same in each run.

ghost use Rattle.std.specs.Prelude.{◌<◌};

use seg_trees::TREES;
use zms_units::Seg;

/// Below this unit all segments lie, so that they often meet.
const UNITS: u32 = 2_048;

/// A generator that multiplies and adds, of which the high bits are taken.
#[derive(Debug, Clone, Copy)]
pub struct Random {
    state: u64,
}

impl Random {
    pub fn new(seed: u32) -> Self {
        Random {
            state: u64::from(seed),
        }
    }

    /// A number below `most`.
    pub fn below(&mut self, most: u32) -> u32
        requires { 0 < most }
        ensures { result < most }
    {
        self.state = self
            .state
            .wrapping_mul(6_364_136_223_846_793_005)
            .wrapping_add(1_442_695_040_888_963_407);
        let high = self.state / 8_589_934_592;
        (high % u64::from(most)) as u32
    }

    pub fn tree(&mut self) -> u8
        ensures { result < TREES }
    {
        self.below(u32::from(TREES)) as u8
    }

    pub fn seg(&mut self) -> Seg {
        Seg {
            start: self.below(UNITS),
            count: 1 + self.below(12),
        }
    }
}
