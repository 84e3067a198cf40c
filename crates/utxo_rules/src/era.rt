//! What is asked of transactions in one era and not in another.

/// When a second era begins, and what is new in it (this project's own).
#[derive(Clone, Copy, Debug, PartialEq, Eq)]
pub struct SecondEra {
    /// The first slot that is judged by it: in a genesis 1 to 2^63 - 1.
    pub first_slot: u64,
    /// How much more lovelace an output holds at least for each of its assets: in a genesis at most 1,000,000,000,000.
    pub per_asset: u64,
}

/// What one era asks of an output.
#[derive(Clone, Copy, Debug, PartialEq, Eq)]
pub struct Era {
    /// How much lovelace it holds at least, whatever else it holds.
    pub min_utxo: u64,
    /// How much more for each of its assets.
    pub per_asset: u64,
}
