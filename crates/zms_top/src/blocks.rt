//! Where a lane's blocks lie, by their names.

ghost use Rattle.std.specs.Prelude.{◌≡◌, ℕ, List, if◌then◌else◌, Some, OnOk};
ghost use Rattle.std.specs.Str.{bytes_eq};
ghost use Rattle.zms_top.specs.Names.{seg_named};

use std::alloc::AllocError;
use std::collections::HashMap;
use zms_units::Seg;

/// The segment of the block of this name, if the lane has one.
pub(crate) fn find_block(blocks: &HashMap<&str, Seg>, name: &str) -> Option<Seg>
    ensures { result ≡ seg_named blocks.now name.now }
{
    blocks.get(name).copied()
}

/// Makes a block known by its name.
pub(crate) fn add_block<'a>(
    blocks: &mut HashMap<&'a str, Seg>,
    name: &'a str,
    seg: Seg,
) -> Result<(), AllocError>
    ensures { OnOk result ((other : List ℕ) → seg_named blocks.new other ≡ (if bytes_eq name.now other then Some seg else seg_named blocks.old other)) }
{
    blocks.insert(name, seg)?;
    Ok(())
}
