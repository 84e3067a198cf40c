//! How much a store may hold.

/// How many live blocks a store may hold, and how many bytes these may have together; None where that isn't bounded.
#[derive(Clone, Copy, Debug, PartialEq, Eq)]
pub struct Capacity {
    /// How many blocks.
    pub blocks: u64,
    /// How many bytes, all texts together.
    pub bytes: Option<u64>,
}
