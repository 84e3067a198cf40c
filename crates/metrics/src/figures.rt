//! What a node counts.

/// How much a node holds at one moment, and what it has counted a moment later, since its start.
#[derive(Clone, Copy, Debug, PartialEq, Eq)]
pub struct Figures {
    /// Blocks of the selected chain.
    pub height: u64,
    /// Slot of the selected chain's last block.
    pub slot: u64,
    /// Blocks of the selected chain that no rollback reaches.
    pub immutable: u64,
    /// Blocks that are durable on the log.
    pub durable: u64,
    /// Blocks that are kept: those that no rollback reaches, and the live ones.
    pub kept_blocks: u64,
    /// Blocks that may still come into a selected chain or be rolled back.
    pub live: u64,
    /// Transactions that wait in the mempool.
    pub transactions: u64,
    /// Bytes of the transactions that wait.
    pub transaction_bytes: u64,
    /// Unspent outputs of the selected chain.
    pub outputs: u64,
    /// Followers that are open.
    pub followers: u64,
    /// Lanes of clients that haven't ended.
    pub lanes: u64,
    /// Clients that wait for a block.
    pub waiting_lanes: u64,
    /// Streams of peers that haven't ended.
    pub peers: u64,
    /// Arrivals from peers that were kept.
    pub kept: u64,
    /// Arrivals from peers that were refused, by the number of the reason, which counts from 1 on: too large,
    /// malformed, body hash mismatch, too old, known, clash, volatile full.
    pub refused: [u64; 7],
    /// Blocks that were discarded to make places free.
    pub discarded: u64,
    /// Flushes onto the log that succeeded.
    pub flushes: u64,
    /// Flushes onto the log that failed.
    pub failed_flushes: u64,
    /// Time that flushes took together, in microseconds.
    pub flush_microseconds: u64,
    /// Time that the last flush took, in microseconds.
    pub last_flush_microseconds: u64,
    /// Times that the node went without memory that it asked for.
    pub memory_refusals: u64,
    /// Resident memory of the process, in bytes; `None` where the system doesn't tell.
    pub resident_bytes: Option<u64>,
}
