//! One run as a node of the pool, and the two orders of such nodes.
ghost use Rattle.std.specs.Prelude.{◌≡◌};
ghost use Rattle.seg_order.specs.Trees.{IsPlace};
ghost use Rattle.range_tree.specs.Nodes.{packed, unpacked};

use seg_order::{Links, Order};
use seg_pool::NodeNo;
use zms_units::Seg;

/// A run with its links in both orders, in 32 bytes. What hangs on a side is kept by `packed`.
#[derive(Debug, Clone, Copy)]
pub(crate) struct RunNode {
    pub(crate) seg: Seg,
    place_left: u32,
    place_right: u32,
    // The greatest count of the subtree in the order by place; that by size keeps none.
    pub(crate) longest: u32,
    size_left: u32,
    size_right: u32,
    place_height: u8,
    size_height: u8,
}

/// A place or none in four bytes: 0 is none, and else a place is one less.
fn packed(place: Option<NodeNo>) -> u32
    requires { IsPlace place }
    ensures { result ≡ packed place }
{
    match place {
        Some(no) => no.0 + 1,
        None => 0,
    }
}

/// What was packed.
fn unpacked(link: u32) -> Option<NodeNo>
    ensures { result ≡ unpacked link }
{
    if link == 0 {
        return None;
    }
    Some(NodeNo(link - 1))
}

impl RunNode {
    /// A run that is in no order.
    pub(crate) fn new(seg: Seg) -> Self
        ensures { result.seg ≡ seg }
    {
        RunNode {
            seg,
            place_left: 0,
            place_right: 0,
            longest: 0,
            size_left: 0,
            size_right: 0,
            place_height: 0,
            size_height: 0,
        }
    }
}

/// Runs by their ends, which is by their starts too where they share no unit. Each subtree knows its longest run.
pub(crate) struct ByPlace;

/// Runs by their lengths, and those of one length by their starts.
pub(crate) struct BySize;

impl Order for ByPlace {
    type Node = RunNode;

    ghost use Rattle.range_tree.specs.Nodes.{place_rules, place_lawful};

    ghost rules = { place_rules };

    fn before(first: &RunNode, second: &RunNode) -> bool {
        let end = first.seg.start as u64 + first.seg.count as u64;
        end < second.seg.start as u64 + second.seg.count as u64
    }

    fn span(node: &RunNode) -> u32 {
        node.seg.count
    }

    fn links(node: &RunNode) -> Links {
        Links {
            left: unpacked(node.place_left),
            right: unpacked(node.place_right),
            height: node.place_height,
            greatest: node.longest,
        }
    }

    fn set_links(node: &mut RunNode, links: Links) {
        node.place_left = packed(links.left);
        node.place_right = packed(links.right);
        node.longest = links.greatest;
        node.place_height = links.height;
    }

    ghost lawful = { place_lawful };
}

impl Order for BySize {
    type Node = RunNode;

    ghost use Rattle.range_tree.specs.Nodes.{size_rules, size_lawful};

    ghost rules = { size_rules };

    fn before(first: &RunNode, second: &RunNode) -> bool {
        first.seg.count < second.seg.count
            || (first.seg.count == second.seg.count && first.seg.start < second.seg.start)
    }

    fn span(_node: &RunNode) -> u32 {
        0
    }

    fn links(node: &RunNode) -> Links {
        Links {
            left: unpacked(node.size_left),
            right: unpacked(node.size_right),
            height: node.size_height,
            greatest: 0,
        }
    }

    fn set_links(node: &mut RunNode, links: Links) {
        node.size_left = packed(links.left);
        node.size_right = packed(links.right);
        node.size_height = links.height;
    }

    ghost lawful = { size_lawful };
}
