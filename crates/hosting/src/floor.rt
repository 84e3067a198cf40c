//! What all threads of a node share.

use crate::news::News;
use shared::{Room, Shared};
use std::alloc::{AllocError, Global};
use std::sync::Arc;
use witness_pool::SigScheme;

/// What all threads of a node share: the core, and what they tell one another.
pub struct Floor<S: SigScheme, B: Room> {
    pub alloc: Global,
    pub shared: Arc<Shared<S, B>, Global>,
    pub news: Arc<News, Global>,
    /// Whether the node ends when nobody is left who could send or ask.
    pub until_closed: bool,
    /// By which its files are opened.
    pub system: HostRuntime,
}

impl<S: SigScheme, B: Room> Drop for Floor<S, B> {
    fn drop(self) {
        let Floor {
            alloc: _,
            shared: _,
            news: _,
            until_closed: _,
            system: _,
        } = self;
    }
}

impl<S: SigScheme, B: Room> Floor<S, B> {
    /// The same for another thread. Copies nothing.
    pub fn try_clone(&self) -> Result<Floor<S, B>, AllocError> {
        Ok(Floor {
            alloc: self.alloc,
            shared: Arc::try_clone(&self.shared)?,
            news: Arc::try_clone(&self.news)?,
            until_closed: self.until_closed,
            system: self.system,
        })
    }
}
