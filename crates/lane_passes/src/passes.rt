use class_group::ClassPasses;
use ms_cell::CellPasses;
use seg_trees::SegTrees;

/// A lane's number, 1 to `MAX_LANES`, and its passes, which have that right.
#[derive(Drop)]
pub struct LanePasses<R: SegTrees> {
    pub lane: u8,
    pub cells: CellPasses<R>,
    pub classes: ClassPasses,
}
