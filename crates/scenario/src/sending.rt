//! Bytes that a peer is to send.

/// Bytes that a peer is to send.
#[derive(Debug, Drop)]
pub struct Sending {
    /// The number of the peer, from 1 on.
    pub peer: u64,
    /// What it sends.
    pub bytes: Vec<u8>,
}
