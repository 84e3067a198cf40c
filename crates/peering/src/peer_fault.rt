//! Why a stream is read no further.

use thiserror::Error;

/// Why a stream is read no further. What of it was lost is not known then.
#[derive(Clone, Copy, Debug, PartialEq, Eq, Error)]
pub enum PeerFault {
    /// The stream can't be read.
    #[error("the stream can't be read")]
    ReadFailed,
    /// Memory ran out.
    #[error("out of memory")]
    OutOfMemory,
}
