//! A node, as a lane reaches it.

use shared::{Room, Shared};
use std::alloc::Global;
use witness_pool::SigScheme;

/// A node, as a lane reaches it: the core that threads share, and the runtime in which its lock is waited for.
pub struct Node<'a, S: SigScheme, B: Room, R> {
    pub alloc: Global,
    pub rt: &'a R,
    pub shared: &'a Shared<S, B>,
}

impl<S: SigScheme, B: Room, R> Drop for Node<'_, S, B, R> {
    fn drop(self) {
        let Node {
            alloc: _,
            rt: _,
            shared: _,
        } = self;
    }
}
