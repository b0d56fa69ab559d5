//! A lane's blocks, by their names.
ghost use Rattle.std.specs.Prelude.{◌≡◌, ℕ, ◌<◌, ◌≤◌, List, if◌then◌else◌, Some, None, IfSome, IfNone, OnOk, length};
ghost use Rattle.std.specs.Str.{bytes_eq};
ghost use Rattle.lane_run.specs.Names.{block_named};

use std::alloc::{AllocError, Global};
use std::collections::HashMap;
use zms_units::{Block, Copies};

/// The block of this name, if the lane has one.
pub(crate) fn find_block<'b>(blocks: &'b HashMap<&str, Block>, name: &str) -> Option<&'b Block>
    ensures found { IfSome result (λ block. block_named blocks.now name.now ≡ Some block.now) }
    ensures none { IfNone result (block_named blocks.now name.now ≡ None) }
{
    blocks.get(name)
}

/// Makes a block known by its name.
pub(crate) fn add_block<'a>(
    blocks: &mut HashMap<&'a str, Block>,
    name: &'a str,
    block: Block,
) -> Result<(), AllocError>
    ensures { OnOk result ((other : List ℕ) → block_named blocks.new other ≡ (if bytes_eq name.now other then Some block else block_named blocks.old other)) }
{
    blocks.insert(name, block)?;
    Ok(())
}

/// The same copies once more.
pub(crate) fn copied(alloc: Global, copies: &Copies) -> Copies
    requires few { length copies.now ≤ 3 }
    ensures { result ≡ copies.now }
{
    let mut again = Copies::new(alloc);
    for dva in copies.as_slice() {
        again.push(*dva);
    }
    again
}
