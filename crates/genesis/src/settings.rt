//! The numbers of a genesis, in their ranges.

ghost use Rattle.std.specs.Prelude.{◌≡◌, ◌≤◌, ◌<◌, IfSome, option_map};
ghost use Rattle.genesis.specs.Judgement.{within, within_if, era_of, era_if_written, settings_of};
ghost use Rattle.genesis.specs.View.{era_numbers_view, numbers_view, second_era_of, settings_view};

use crate::document::{EraNumbers, Numbers};
use utxo_rules::{Params, SecondEra};

/// The numbers of a genesis, in their ranges.
#[derive(Clone, Copy, Debug)]
pub struct Settings {
    pub params: Params,
    pub k: u64,
    pub max_volatile: u64,
    pub max_volatile_bytes: Option<u64>,
    pub max_mempool: u64,
}

/// The number, where it is at least the first and at most the second.
pub fn within(least: u64, most: u64, number: i64) -> Option<u64>
    ensures exact { result ≡ within least most number }
    ensures range { IfSome result (λ n. n ≤ most) }
{
    let number = u64::try_from(number).ok()?;
    if number < least || number > most {
        return None;
    }
    Some(number)
}

/// The same, where a number is written.
#[tactic(auto, unfolding(crate::specs::Judgement::within_if))]
fn within_if(least: u64, most: u64, number: Option<i64>) -> Option<Option<u64>>
    ensures { result ≡ within_if least most number }
{
    match number {
        None => Some(None),
        Some(number) => Some(Some(within(least, most, number)?)),
    }
}

/// The era of these numbers, where each is in its range.
#[tactic(auto, unfolding(crate::specs::Judgement::era_of))]
fn era_of(numbers: &EraNumbers) -> Option<SecondEra>
    ensures { option_map second_era_of result ≡ era_of (era_numbers_view numbers.now) }
{
    Some(SecondEra {
        first_slot: within(1, 9_223_372_036_854_775_807, numbers.first_slot)?,
        per_asset: within(0, 1_000_000_000_000, numbers.per_asset)?,
    })
}

/// The same, where numbers are written.
#[tactic(auto, unfolding(crate::specs::Judgement::era_if_written))]
fn era_if_written(numbers: &Option<EraNumbers>) -> Option<Option<SecondEra>>
    ensures { option_map (option_map second_era_of) result ≡
        era_if_written (option_map era_numbers_view numbers.now) }
{
    match numbers {
        None => Some(None),
        Some(numbers) => Some(Some(era_of(numbers)?)),
    }
}

impl Settings {
    /// The numbers that are written, where each is in its range.
    #[tactic(auto, unfolding(crate::specs::Judgement::settings_of))]
    pub fn of_numbers(numbers: &Numbers) -> Option<Settings>
        ensures { option_map settings_view result ≡ settings_of (numbers_view numbers.now) }
    {
        let network = within(0, 15, numbers.network)? as u8;
        let k = within(1, 10_000, numbers.k)?;
        let min_fee_a = within(0, 1_000_000, numbers.min_fee_a)?;
        let min_fee_b = within(0, 1_000_000_000_000, numbers.min_fee_b)?;
        let min_utxo = within(0, 1_000_000_000_000, numbers.min_utxo)?;
        let max_tx_size = within(1, 65_536, numbers.max_tx_size)? as u32;
        let max_body_size = within(1, 1_048_000, numbers.max_body_size)? as u32;
        let max_volatile = within(1, 100_000, numbers.max_volatile)?;
        let max_mempool = within(1, 100_000, numbers.max_mempool)?;
        let max_volatile_bytes = within_if(1, 1_099_511_627_776, numbers.max_volatile_bytes)?;
        let second_era = era_if_written(&numbers.second_era)?;
        let params = Params {
            network,
            min_fee_a,
            min_fee_b,
            min_utxo,
            max_tx_size,
            max_body_size,
            second_era,
        };
        Some(Settings {
            params,
            k,
            max_volatile,
            max_volatile_bytes,
            max_mempool,
        })
    }
}
