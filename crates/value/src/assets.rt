//! The assets of a value or of what is minted: policies, and under each its names with their quantities.

use ident::ScriptHash;

/// The longest asset name, in bytes.
pub const MAX_NAME: usize = 32;

/// A quantity of what a policy has under a name.
#[derive(Debug, PartialEq, Eq, Drop)]
pub struct Token<Q> {
    /// The asset name, 0 to 32 bytes.
    pub name: Vec<u8>,
    pub quantity: Q,
}

/// What there is of one policy.
#[derive(Debug, PartialEq, Eq, Drop)]
pub struct Policy<Q> {
    /// The hash of the policy's script.
    pub id: ScriptHash,
    /// The names, in the order of their texts: shorter ones first, then by their bytes.
    pub tokens: Vec<Token<Q>>,
}
