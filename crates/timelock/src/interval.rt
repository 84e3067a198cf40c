//! The slots in which a transaction holds.

/// From which slot on a transaction holds, and before which one; None where that side is open.
#[derive(Clone, Copy, Debug, PartialEq, Eq)]
pub struct Interval {
    /// The first slot, 0 to 2^64 - 1.
    pub start: Option<u64>,
    /// The slot after the last one, 0 to 2^64 - 1.
    pub end: Option<u64>,
}
