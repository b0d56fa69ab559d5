ghost use Rattle.std.specs.Prelude.{◌≡◌, ℕ, ◌+◌, ◌*◌, ◌^◌, ◌<◌, ◌≤◌, ◌⊎◌, ◌↔◌, IsErr, IfOk, Some, ◌++◌, codes, decimal};
ghost use Rattle.zms_units.specs.Limits.{IsShift};
ghost use Rattle.zms_units.specs.Rounding.{AreUnitsOf};

use crate::{MAX_ASHIFT, MAX_BLOCK_SIZE};
use std::fmt;

/// A size of no bytes, or of more than `MAX_BLOCK_SIZE`.
#[derive(Clone, Copy, Debug, PartialEq, Eq)]
pub struct BadSize;

impl fmt::Display for BadSize {
    ghost use Rattle.zms_units.specs.declared.limits.TheConstants.{MAX_BLOCK_SIZE};

    ghost output = { λ _. Some (codes "size is not 1 to " ++ (decimal MAX_BLOCK_SIZE ++ codes " bytes")) };

    fn fmt<W: fmt::Write>(&self, f: &mut fmt::Formatter<W>) -> fmt::Result {
        write!(f, "size is not 1 to {MAX_BLOCK_SIZE} bytes")
    }
}

/// The units of `2^ashift` bytes that `size` bytes take: the least number that is large enough, as
/// `vdev_psize_to_asize` rounds on a vdev without redundancy.
pub fn units_of(size: u64, ashift: u8) -> Result<u32, BadSize>
    requires shift { IsShift ashift }
    ensures units { IfOk result (λ count. AreUnitsOf size ashift count) }
    ensures bad { IsErr result ↔ ((size ≡ 0) ⊎ (MAX_BLOCK_SIZE < size)) }
{
    if size == 0 || size > MAX_BLOCK_SIZE {
        return Err(BadSize);
    }
    let unit = 1u64 << ashift;
    Ok(size.div_ceil(unit) as u32)
}

/// The bytes of so many units of `2^ashift` bytes.
pub fn bytes_of(units: u32, ashift: u8) -> u64
    requires shift { ashift ≤ MAX_ASHIFT }
    ensures { result ≡ units * 2 ^ ashift }
{
    u64::from(units) << ashift
}
