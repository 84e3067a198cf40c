//! The genesis of a network.

ghost use Rattle.std.specs.Prelude.{◌≡◌, map, IfOk, IfSome, option_map};
ghost use Rattle.model.specs.Limits.{greatest_network, k_limit, tx_size_limit, body_size_limit};
ghost use Rattle.model.specs.Genesis as model;
ghost use Rattle.model.specs.Genesis.{supply_of, IsGenesis, IsSecondEra, IsWithin};
ghost use Rattle.genesis.specs.Steps.{Gives};
ghost use Rattle.genesis.specs.Judgement.{judged, genesis_of};
ghost use Rattle.genesis.specs.Meaning.{IsAnswer};
ghost use Rattle.genesis.specs.View.{grant_view, params_of, second_era_of, written_view};

use crate::document::Written;
use crate::genesis_document::GenesisDocument;
use crate::genesis_fault::GenesisFault;
use crate::grants::{self, Grant};
use crate::placing;
use crate::settings::Settings;
use std::alloc::{AllocError, Global};
use std::marker::Model;
use utxo_rules::{Params, SecondEra};

/// The most outputs of a genesis.
const MAX_OUTPUTS: usize = 10_000;

/// What a network agrees on before its first block. Each number is in its range, each output on the genesis network,
/// and the coins sum up to less than 2^63: `Genesis::from_toml` is the only way to one.
#[derive(Debug, Drop)]
pub struct Genesis {
    alloc: Global,
    settings: Settings,
    grants: Vec<Grant>,
    supply: u64,
}

impl Model for Genesis {
    ghost use Rattle.model.specs.Genesis.{Genesis};
    ghost use Rattle.model.specs.Codes.{coded_genesis};

    ghost Value = { Genesis };

    ghost coded = { coded_genesis };

    ghost use Rattle.genesis.specs.Held.{genesis_view, IsHeldGenesis};

    ghost view = { genesis_view };

    ghost invariant = { IsHeldGenesis };
}

impl Genesis {
    /// The genesis of what is written.
    #[tactic(auto, unfolding(crate::specs::Judgement::judged))]
    pub(crate) fn of_written(alloc: Global, written: &Written<'_>) -> Result<Genesis, GenesisFault>
        ensures { Gives (λ genesis. genesis) result (judged (written_view written.now)) }
    {
        let settings = Settings::of_numbers(&written.numbers).ok_or(GenesisFault::OutOfRange)?;
        let placed = placing::place(alloc, settings.params.network, &written.outputs)?;
        let (grants, supply) = grants::grant_all(alloc, &placed)?;
        if grants.is_empty() || grants.len() > MAX_OUTPUTS {
            return Err(GenesisFault::BadOutputs);
        }
        Ok(Genesis {
            alloc,
            settings,
            grants,
            supply,
        })
    }

    /// The genesis that a TOML document says: `network` (0 to 15), `k` (1 to 10,000), `min_fee_a` (at most
    /// 1,000,000), `min_fee_b` and `min_utxo` (at most 1,000,000,000,000), `max_tx_size` (1 to 65,536), `max_body_size`
    /// (1 to 1,048,000), `max_volatile` and `max_mempool` (1 to 100,000), `max_volatile_bytes` (1 to 2^40), which may
    /// be missing, both or none of `era2_slot` (1 to 2^63 - 1) and `per_asset` (at most 1,000,000,000,000), and
    /// `output`, an array of tables, each with `coin` and just one of `address` (66 hexadecimal digits) and `key` (64
    /// of them). `scheme` may stand there too, `"test"` or `"ed25519"`, and where it is missing the scheme is the
    /// tests': `GenesisDocument::from_toml` tells it. Err is the first of the faults that applies to the whole text, or
    /// OutOfMemory. Takes time and memory in proportion to the text.
    pub fn from_toml(alloc: Global, text: &str) -> Result<Genesis, GenesisFault>
        ensures exact { Gives (λ genesis. genesis) result (genesis_of text.now) }
        ensures least { IsAnswer text.now result }
    {
        let document = GenesisDocument::from_toml(alloc, text)?;
        Ok(document.genesis)
    }

    /// The network, 0 to 15.
    pub fn network(&self) -> u8
        ensures is { result ≡ self.now.params.network }
        ensures range { IsWithin 0 greatest_network result }
    {
        self.settings.params.network
    }

    /// What it asks of each transaction, and of each block's body: each number in the range that the method of its name
    /// tells.
    pub fn params(&self) -> &Params
        ensures { params_of result.now ≡ self.now.params }
    {
        &self.settings.params
    }

    /// How many blocks of the selected chain may be rolled back, 1 to 10,000.
    pub fn k(&self) -> u64
        ensures k { result ≡ self.now.k }
        ensures range { IsWithin 1 k_limit result }
    {
        self.settings.k
    }

    /// The least fee for each byte of a transaction, in lovelace, at most 1,000,000.
    pub fn min_fee_a(&self) -> u64
        ensures { result ≡ self.now.params.min_fee_a }
    {
        self.settings.params.min_fee_a
    }

    /// The least fee of a transaction, whatever its size, in lovelace, at most 1,000,000,000,000.
    pub fn min_fee_b(&self) -> u64
        ensures { result ≡ self.now.params.min_fee_b }
    {
        self.settings.params.min_fee_b
    }

    /// How much lovelace an output holds at least, whatever its assets, at most 1,000,000,000,000. Those of the genesis
    /// need not.
    pub fn min_utxo(&self) -> u64
        ensures { result ≡ self.now.params.min_utxo }
    {
        self.settings.params.min_utxo
    }

    /// How many bytes a transaction has at most, 1 to 65,536.
    pub fn max_tx_size(&self) -> u64
        ensures size { result ≡ self.now.params.max_tx_size }
        ensures range { IsWithin 1 tx_size_limit result }
    {
        u64::from(self.settings.params.max_tx_size)
    }

    /// How many bytes the body of a block has at most, 1 to 1,048,000.
    pub fn max_body_size(&self) -> u64
        ensures size { result ≡ self.now.params.max_body_size }
        ensures range { IsWithin 1 body_size_limit result }
    {
        u64::from(self.settings.params.max_body_size)
    }

    /// When outputs have to hold more for their assets, and how much: none where they never do.
    pub fn second_era(&self) -> Option<SecondEra>
        ensures is { option_map second_era_of result ≡ self.now.params.second_era }
        ensures ranges { IfSome result (λ era. IsSecondEra (second_era_of era)) }
    {
        self.settings.params.second_era
    }

    /// How many live blocks are kept at most, 1 to 100,000.
    pub fn max_volatile(&self) -> u64
        ensures { result ≡ self.now.max_volatile }
    {
        self.settings.max_volatile
    }

    /// How many bytes the live blocks have at most, all texts together, 1 to 2^40; None where that isn't bounded.
    pub fn max_volatile_bytes(&self) -> Option<u64>
        ensures { result ≡ self.now.max_volatile_bytes }
    {
        self.settings.max_volatile_bytes
    }

    /// How many transactions wait at most, 1 to 100,000.
    pub fn max_mempool(&self) -> u64
        ensures { result ≡ self.now.max_mempool }
    {
        self.settings.max_mempool
    }

    /// The outputs that the chain opens with, in the order of the file: 1 to 10,000.
    pub fn outputs(&self) -> &[Grant]
        ensures outputs { map grant_view result.now ≡ self.now.grants }
        ensures ranges { IsGenesis self.now }
    {
        &self.grants
    }

    /// The lovelace that there is from the start, below 2^63.
    pub fn supply(&self) -> u64
        ensures supply { result ≡ supply_of self.now }
        ensures ranges { IsGenesis self.now }
    {
        self.supply
    }

    /// The same genesis once more, in one allocation. Takes time in proportion to the outputs.
    pub fn try_clone(&self) -> Result<Genesis, AllocError>
        ensures { IfOk result (λ copy. copy ≡ self.now) }
    {
        Ok(Genesis {
            alloc: self.alloc,
            settings: self.settings,
            grants: Vec::from_slice(self.alloc, &self.grants)?,
            supply: self.supply,
        })
    }
}
