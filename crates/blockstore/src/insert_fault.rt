//! Why a block isn't taken into a store.

use thiserror::Error;

/// Why a block isn't taken into a store. The first that applies, in this order, is told.
#[derive(Clone, Copy, Debug, PartialEq, Eq, Error)]
pub enum InsertFault {
    /// A live block has the same text, so it is this block.
    #[error("the block is live already")]
    Known,
    /// A live block has the same hash and another text.
    #[error("another live block has this hash")]
    Clash,
    /// There are as many live blocks as may be.
    #[error("there are as many live blocks as may be")]
    VolatileFull,
    /// Memory ran out for a block that none of the others applies to.
    #[error("out of memory")]
    OutOfMemory,
}
