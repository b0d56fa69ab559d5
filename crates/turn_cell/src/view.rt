//! What one pass knows. No value of these types is made.
use std::collections::LinkedList;

pub struct View<N, F> {
    // None once it was joined to another pass.
    pub fixed: Option<F>,
    pub seen: LinkedList<N>,
    pub own: LinkedList<(u8, LinkedList<N>)>,
    // What the passes had seen that were joined to this one since its last look at the count.
    pub heard: LinkedList<LinkedList<N>>,
    pub tried: LinkedList<u64>,
    pub counts: LinkedList<u64>,
    pub stage: Stage,
}

pub enum Stage {
    Idle,
    Holding,
    Closing,
}
