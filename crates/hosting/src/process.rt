//! The process in which a node runs.

/// What is the process itself, or stands for it: a node's threads outlive the call that starts them, and open the
/// streams of the process.
pub trait Process {
    /// The runtime of the process.
    fn system(&self) -> HostRuntime;
}

impl Process for HostRuntime {
    fn system(&self) -> HostRuntime {
        *self
    }
}
