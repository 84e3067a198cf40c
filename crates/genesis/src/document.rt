//! What a genesis document writes, in any range.

ghost use Rattle.std.specs.Prelude.{◌≡◌, map, ok_or, option_map};
ghost use Rattle.toml.specs.View.{array_view, table_view, view};
ghost use Rattle.genesis.specs.declared.genesis_fault.GenesisFault.TheVariants.{BadShape};
ghost use Rattle.genesis.specs.Steps.{each, Gives};
ghost use Rattle.genesis.specs.Document.{era_in, numbers_in, lock_in, entry_in, entry_of, values_of, outputs_in};
ghost use Rattle.genesis.specs.Document.{scheme_in, written_in};
ghost use Rattle.genesis.specs.View.{era_numbers_view, numbers_view, lock_view, entry_view, entries_view, written_view};

use crate::genesis_fault::GenesisFault;
use crate::scheme::Scheme;
use crate::table::{has_only, number_at, number_if_at, value_at};
use std::alloc::{AllocError, Global};
use toml::value::Array;
use toml::{Table, Value};

/// The keys of a genesis.
pub const GENESIS_KEYS: [&str; 14] = [
    "network",
    "k",
    "min_fee_a",
    "min_fee_b",
    "min_utxo",
    "max_tx_size",
    "max_body_size",
    "max_volatile",
    "max_mempool",
    "max_volatile_bytes",
    "era2_slot",
    "per_asset",
    "output",
    "scheme",
];

/// The keys of an output.
pub const ENTRY_KEYS: [&str; 3] = ["address", "key", "coin"];

/// The two numbers of a second era, as they are written.
#[derive(Clone, Copy)]
pub struct EraNumbers {
    pub first_slot: i64,
    pub per_asset: i64,
}

impl EraNumbers {
    /// The numbers of a document, if both stand there, and none of them if neither does.
    #[tactic(auto, unfolding(crate::specs::Document::era_in))]
    pub fn of_table(table: &Table) -> Option<Option<EraNumbers>>
        ensures { option_map (option_map era_numbers_view) result ≡ era_in (table_view table.now) }
    {
        match (value_at(table, "era2_slot"), value_at(table, "per_asset")) {
            (None, None) => Some(None),
            (Some(slot), Some(coin)) => Some(Some(EraNumbers {
                first_slot: slot.as_integer()?,
                per_asset: coin.as_integer()?,
            })),
            _ => None,
        }
    }
}

/// The nine numbers that each genesis has, a bound of bytes, and those of a second era, as they are written.
#[derive(Clone, Copy)]
pub struct Numbers {
    pub network: i64,
    pub k: i64,
    pub min_fee_a: i64,
    pub min_fee_b: i64,
    pub min_utxo: i64,
    pub max_tx_size: i64,
    pub max_body_size: i64,
    pub max_volatile: i64,
    pub max_mempool: i64,
    pub max_volatile_bytes: Option<i64>,
    pub second_era: Option<EraNumbers>,
}

impl Numbers {
    /// The numbers of a document, if each of the nine stands there, and what stands for the others is a number.
    #[tactic(auto, unfolding(crate::specs::Document::numbers_in))]
    pub fn of_table(table: &Table) -> Option<Numbers>
        ensures { option_map numbers_view result ≡ numbers_in (table_view table.now) }
    {
        Some(Numbers {
            network: number_at(table, "network")?,
            k: number_at(table, "k")?,
            min_fee_a: number_at(table, "min_fee_a")?,
            min_fee_b: number_at(table, "min_fee_b")?,
            min_utxo: number_at(table, "min_utxo")?,
            max_tx_size: number_at(table, "max_tx_size")?,
            max_body_size: number_at(table, "max_body_size")?,
            max_volatile: number_at(table, "max_volatile")?,
            max_mempool: number_at(table, "max_mempool")?,
            max_volatile_bytes: number_if_at(table, "max_volatile_bytes")?,
            second_era: EraNumbers::of_table(table)?,
        })
    }
}

/// What unlocks an output, in hexadecimal digits as they are written.
#[derive(Clone, Copy)]
pub enum Lock<'a> {
    /// An address.
    Address(&'a str),
    /// The key whose hash the address has.
    Key(&'a str),
}

impl<'a> Lock<'a> {
    /// What unlocks the output of this table: just one of an address and a key, which is text.
    #[tactic(auto, unfolding(crate::specs::Document::lock_in))]
    pub fn of_table(table: &'a Table) -> Option<Lock<'a>>
        ensures { option_map lock_view result ≡ lock_in (table_view table.now) }
    {
        match (value_at(table, "address"), value_at(table, "key")) {
            (Some(address), None) => Some(Lock::Address(address.as_str()?)),
            (None, Some(key)) => Some(Lock::Key(key.as_str()?)),
            _ => None,
        }
    }
}

/// An output, as it is written.
#[derive(Clone, Copy)]
pub struct Entry<'a> {
    pub lock: Lock<'a>,
    pub coin: i64,
}

impl<'a> Entry<'a> {
    /// The output of this table, which has no other keys.
    #[tactic(auto, unfolding(crate::specs::Document::entry_in))]
    pub fn of_table(table: &'a Table) -> Option<Entry<'a>>
        ensures { option_map entry_view result ≡ entry_in (table_view table.now) }
    {
        if !has_only(table, &ENTRY_KEYS) {
            return None;
        }
        Some(Entry {
            lock: Lock::of_table(table)?,
            coin: number_at(table, "coin")?,
        })
    }

    /// The output, which is a table.
    pub fn of_value(value: &'a Value) -> Option<Entry<'a>>
        ensures { option_map entry_view result ≡ entry_of (view value.now) }
    {
        Entry::of_table(value.as_table()?)
    }
}

/// The outputs of an array, each of which is a table.
fn entries_of<'a>(alloc: Global, array: &'a Array) -> Result<Vec<Entry<'a>>, GenesisFault>
    ensures { Gives entries_view result (ok_or (each entry_of (values_of (array_view array.now))) BadShape) }
{
    let mut entries = Vec::with_capacity(alloc, array.len())?;
    for value in array {
        let entry = Entry::of_value(value).ok_or(GenesisFault::BadShape)?;
        entries.push(entry)?;
    }
    Ok(entries)
}

/// What a document of the right shape writes.
#[derive(Drop)]
pub struct Written<'a> {
    pub numbers: Numbers,
    pub scheme: Scheme,
    pub outputs: Vec<Entry<'a>>,
}

impl<'a> Written<'a> {
    /// The scheme that a document names, and the tests' where it names none.
    #[tactic(auto, unfolding(crate::specs::Document::scheme_in))]
    fn scheme(table: &Table) -> Option<Scheme>
        ensures { result ≡ scheme_in (table_view table.now) }
    {
        match value_at(table, "scheme") {
            None => Some(Scheme::Test),
            Some(value) => Scheme::of_name(value.as_str()?),
        }
    }

    /// The outputs of a document, which are an array of tables.
    #[tactic(auto, unfolding(crate::specs::Document::outputs_in))]
    fn outputs(alloc: Global, table: &'a Table) -> Result<Vec<Entry<'a>>, GenesisFault>
        ensures { Gives entries_view result (ok_or (outputs_in (table_view table.now)) BadShape) }
    {
        let output = value_at(table, "output").ok_or(GenesisFault::BadShape)?;
        let array = output.as_array().ok_or(GenesisFault::BadShape)?;
        entries_of(alloc, array)
    }

    /// What a document writes that has just the keys of a genesis, each with a value of its type.
    #[tactic(auto, unfolding(crate::specs::Document::written_in))]
    pub fn of_table(alloc: Global, table: &'a Table) -> Result<Written<'a>, GenesisFault>
        ensures { Gives written_view result (ok_or (written_in (table_view table.now)) BadShape) }
    {
        if !has_only(table, &GENESIS_KEYS) {
            return Err(GenesisFault::BadShape);
        }
        let numbers = Numbers::of_table(table).ok_or(GenesisFault::BadShape)?;
        let scheme = Written::scheme(table).ok_or(GenesisFault::BadShape)?;
        let outputs = Written::outputs(alloc, table)?;
        Ok(Written {
            numbers,
            scheme,
            outputs,
        })
    }
}
