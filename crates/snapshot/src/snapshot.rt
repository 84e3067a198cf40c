//! The state of a ledger, as it is read, and the digest of its network.

use block::Tip;
use ident::Id;
use utxo_rules::Utxo;

/// The kind of the hashes of what a network agrees on.
pub struct GenesisKind;

/// The hash of what a network agrees on, which whoever writes or reads a state hands in: the SHA-256 digest (FIPS
/// 180-4) of the parameters of its genesis, say. Ordered as bytes.
pub type GenesisHash = Id<GenesisKind>;

/// The state of a ledger at the end of a chain.
#[derive(Drop)]
pub struct Snapshot {
    /// Where the chain ends.
    pub tip: Tip,
    /// The fees so far, in lovelace.
    pub fees: u64,
    /// Which network it is: the digest of what it agrees on.
    pub digest: GenesisHash,
    /// What is unspent.
    pub utxo: Utxo,
}
