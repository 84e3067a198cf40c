//! What a network asks of transactions.

ghost use Rattle.std.specs.Prelude.{◌≡◌};
ghost use Rattle.model.specs.Rules.{era_at};
ghost use Rattle.utxo_rules.specs.View.{params_of, era_of};

use crate::era::{Era, SecondEra};

/// What a network asks of each transaction, and of each block's body (Shelley, protocol parameters).
#[derive(Clone, Copy, Debug, PartialEq, Eq)]
pub struct Params {
    /// Which network this is, 0 to 15.
    pub network: u8,
    /// The least fee for each byte of a transaction, in lovelace.
    pub min_fee_a: u64,
    /// The least fee for a transaction, whatever its size, in lovelace.
    pub min_fee_b: u64,
    /// How much lovelace an output holds at least.
    pub min_utxo: u64,
    /// How many bytes a transaction has at most.
    pub max_tx_size: u32,
    /// How many bytes a block's body has at most.
    pub max_body_size: u32,
    /// None where the network has one era for ever.
    pub second_era: Option<SecondEra>,
}

impl Params {
    /// What is asked of a transaction that is judged at this slot.
    pub fn era_at(&self, slot: u64) -> Era
        ensures { era_of result ≡ era_at (params_of self.now) slot }
    {
        match self.second_era {
            Some(second) if second.first_slot <= slot => Era {
                min_utxo: self.min_utxo,
                per_asset: second.per_asset,
            },
            _ => Era {
                min_utxo: self.min_utxo,
                per_asset: 0,
            },
        }
    }
}
