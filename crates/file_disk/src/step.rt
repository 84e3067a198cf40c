//! What was done to a file, as proofs read it: none of it takes memory.

use http_server::Log;

/// One call that changed a file, or made sure what it holds.
#[derive(Drop)]
pub enum Step {
    /// From this place on these bytes were written.
    Written(usize, Log<u8, ()>),
    /// It was cut to this length.
    Cut(usize),
    /// What it held was made sure.
    Synced,
}
