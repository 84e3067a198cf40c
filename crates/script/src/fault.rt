//! Why a line is not run.

use thiserror::Error;

/// Why a line is refused: the first of these that applies is told.
#[derive(Clone, Copy, Debug, PartialEq, Eq, Error)]
pub enum LineFault {
    /// The words are no line of a script, or none that may stand there; a byte is out of range; the script is too long;
    /// or, told at the end of the script in the line of its `tx`, a transaction has no `end`.
    #[error("BadLine")]
    BadLine,
    /// A name is not bound in the kind that is wanted, or not by a `block` or `forge` line where a block is wanted.
    #[error("UnknownName")]
    UnknownName,
    /// The name that the line would bind is bound already in its kind.
    #[error("NameTaken")]
    NameTaken,
    /// No key, native script, transaction or block has this content: a part stands there twice, or a number, a length
    /// or the nesting is out of range.
    #[error("NotBuilt")]
    NotBuilt,
}
