//! One order over a pool.

use seg_order::{Links, Order, SegOrder};
use seg_pool::{NodeNo, SegPool};
use std::alloc::{AllocError, Global};

/// A number with its links.
#[derive(Debug, Clone, Copy)]
pub struct KeyNode {
    pub key: u32,
    pub links: Links,
}

/// Numbers by their size.
pub struct ByKey;

impl Order for ByKey {
    type Node = KeyNode;

    ghost use Rattle.tree_rows.specs.Keys.{key_rules, key_lawful};

    ghost rules = { key_rules };

    fn before(first: &KeyNode, second: &KeyNode) -> bool {
        first.key < second.key
    }

    fn span(_node: &KeyNode) -> u32 {
        0
    }

    fn links(node: &KeyNode) -> Links {
        node.links
    }

    fn set_links(node: &mut KeyNode, links: Links) {
        node.links = links;
    }

    ghost lawful = { key_lawful };
}

fn unlinked(key: u32) -> KeyNode {
    KeyNode {
        key,
        links: Links {
            left: None,
            right: None,
            height: 0,
            greatest: 0,
        },
    }
}

fn is_some(found: Option<NodeNo>) -> u32 {
    match found {
        Some(_) => 1,
        None => 0,
    }
}

/// `KEY ASKED`: an order of one node, and how many nodes are at the root, first of all and first from the number that is
/// asked for, each with its visits; and how many visits it takes to put it in and take it out.
pub fn in_order(alloc: Global, key: u32, asked: u32) -> Result<Option<String>, AllocError> {
    let mut pool = SegPool::new(alloc);
    pool.reserve(1)?;
    let mut order = SegOrder::<ByKey>::new();
    let no = pool.take(unlinked(key));
    let put = order.insert(&mut pool, no);
    let root = is_some(order.root());
    let (least, least_visits) = order.least(&pool);
    let (first, first_visits) = order.first_at_or_after(&pool, &unlinked(asked));
    let taken = order.remove(&mut pool, no);
    let rest = is_some(order.root());
    let least = is_some(least);
    let first = is_some(first);
    let answer = format!(in alloc;
        "root {root} {rest} least {least} first {first} visits {put} {least_visits} {first_visits} {taken}"
    )?;
    Ok(Some(answer))
}
