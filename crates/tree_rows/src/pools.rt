//! One pool of nodes.

use seg_pool::SegPool;
use std::alloc::{AllocError, Global};

/// The most that a row asks for.
const MOST: u32 = 1_000;

/// `ROOM NODE`: a node goes into a new pool with room, is one more there, and comes back.
pub fn take_and_give(alloc: Global, room: u32, node: u32) -> Result<Option<String>, AllocError> {
    if room == 0 || room > MOST || node > MOST {
        return Ok(None);
    }
    let mut pool = SegPool::new(alloc);
    let before = pool.spare();
    pool.reserve(room)?;
    let reserved = pool.spare();
    let no = pool.take(node);
    let seen = *pool.node(no);
    *pool.node_mut(no) = seen + 1;
    let left = pool.spare();
    let back = pool.give(no);
    let spare = pool.spare();
    let answer = format!(in alloc; "spare {before} {reserved} {left} {spare} node {seen} {back}")?;
    Ok(Some(answer))
}

/// `ROOM MORE`: room in a new pool and then for more, and how many nodes are spare at first, between and after. Where there
/// is no memory for more, none is spare that was not.
pub fn grow(alloc: Global, room: u32, more: u32) -> Result<Option<String>, AllocError> {
    if room > MOST || more > MOST {
        return Ok(None);
    }
    let mut pool = SegPool::<u32>::new(alloc);
    let before = pool.spare();
    pool.reserve(room)?;
    let between = pool.spare();
    let grown = pool.reserve(more).is_ok();
    let after = pool.spare();
    let answer = format!(in alloc; "spare {before} {between} {after} grown {grown}")?;
    Ok(Some(answer))
}
