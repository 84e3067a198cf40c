//! The keys of the entries of a body and of a witness set (Shelley-MA, transaction bodies and witness sets).

/// What is spent.
pub const INPUTS: u64 = 0;

/// What is left to be spent.
pub const OUTPUTS: u64 = 1;

/// The fee.
pub const FEE: u64 = 2;

/// The slot before which the transaction holds.
pub const END: u64 = 3;

/// The slot from which on the transaction holds.
pub const START: u64 = 8;

/// What is minted.
pub const MINT: u64 = 9;

/// Signatures, in a witness set.
pub const SIGNATURES: u64 = 0;

/// Scripts, in a witness set.
pub const SCRIPTS: u64 = 1;
