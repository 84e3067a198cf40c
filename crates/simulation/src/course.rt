//! How far the threads of a simulation are.

use inbox::PEERS;
use std::sync::atomic::{AtomicBool, AtomicU64, Ordering};

/// How far the threads of a simulation are, which all of them read.
#[derive(Drop)]
pub struct Course {
    ended: AtomicU64,
    stopped: AtomicBool,
}

impl Course {
    /// No peer has ended.
    pub fn new() -> Course {
        Course {
            ended: AtomicU64::new(0),
            stopped: AtomicBool::new(false),
        }
    }

    /// One more peer has sent all that it will.
    pub fn end_peer(&self) {
        self.ended.fetch_add(1, Ordering::SeqCst);
    }

    /// Each thread is to end.
    pub fn stop(&self) {
        self.stopped.store(true, Ordering::SeqCst);
    }

    /// Whether each thread is to end.
    pub fn is_stopped(&self) -> bool {
        self.stopped.load(Ordering::SeqCst)
    }

    /// Whether nothing more is sent.
    pub fn is_over(&self) -> bool {
        self.is_stopped() || self.ended.load(Ordering::SeqCst) >= PEERS as u64
    }
}
