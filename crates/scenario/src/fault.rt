//! Why a script ends before its end.

use script::LineFault;
use thiserror::Error;

/// Why a script ends before its end.
#[derive(Clone, Copy, Debug, PartialEq, Eq, Error)]
pub enum ScenarioFault {
    /// A line is refused. Lines are counted from 1.
    #[error("line {number}: {fault}")]
    Line { number: u64, fault: LineFault },
    /// The reader failed.
    #[error("read failed")]
    ReadFailed,
    /// The writer failed.
    #[error("write failed")]
    WriteFailed,
    /// There is no memory for the outputs of the genesis, for the script's lines or names, for what a line prints or
    /// sends, or for a simulation; or a thread of one can't be started.
    #[error("out of memory")]
    OutOfMemory,
}
