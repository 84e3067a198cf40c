//! Which key of a genesis document a fault of it is about.

ghost use Rattle.std.specs.Prelude.{◌≡◌, ◌≤◌, ◌<◌, ◌+◌, None, IfOk, codes, map, option_map};
ghost use Rattle.toml.specs.Data.{get_member};
ghost use Rattle.toml.specs.View.{array_view, table_view, view};
ghost use Rattle.model.specs.Limits.{greatest_number, network_limit};
ghost use Rattle.genesis.specs.Document.{values_of};
ghost use Rattle.genesis.specs.Judgement.{within};
ghost use Rattle.genesis.specs.View.{entry_view, era_numbers_view, lock_view, numbers_view, texts_of, written_view};
ghost use Rattle.hints.specs.GenesisSpots.{in_document, in_output, number_trouble, lacking, optional_spot, unknown_in};
ghost use Rattle.hints.specs.GenesisSpots.{era_spot, bytes_bounds};
ghost use Rattle.hints.specs.GenesisSpots.{scheme_spot, lock_spot, table_spot, entry_spot, first_found, outputs_spot};
ghost use Rattle.hints.specs.GenesisSpots.{shape_spot, bounded, bound_spot, range_spot, number_bounds, era_bounds};
ghost use Rattle.hints.specs.GenesisSpots.{address_spot, addresses_spot, homeless_spot, coin_trouble, coin_spot};
ghost use Rattle.hints.specs.GenesisSpots.{or_zero, count_spot};
ghost use Rattle.hints.specs.GenesisSpots.{written_spot, document_spot, fault_or_genesis, TellsOf};
ghost use Rattle.hints.specs.SpotView.{spot_view, bounded_view};

use genesis::stages::{
    self, ENTRY_KEYS, Entry, EraNumbers, GENESIS_KEYS, Lock, Numbers, Placed, Written, value_at,
};
use genesis::{GenesisFault, Scheme};
use std::alloc::{AllocError, Global};
use thiserror::Error;
use toml::value::Array;
use toml::{Table, Value};

/// The most outputs of a genesis.
const MAX_OUTPUTS: usize = 10_000;

/// The largest sum of all coins.
const MAX_SUPPLY: u64 = (1 << 63) - 1;

/// The names of the schemes. (Between quotes in an attribute, the word would make `rt` look for tests here.)
const TESTS: &str = "test";

const ED25519: &str = "ed25519";

/// What is wrong at a key, in words that go on after it.
#[derive(Clone, Copy, Debug, Error)]
pub enum Trouble {
    /// No genesis, or no output, has this key.
    #[error("is no key that may stand there")]
    Unknown,
    /// The key isn't there.
    #[error("is missing")]
    Missing,
    /// One of the two keys of a second era is there without the other.
    #[error("stands there without the other number of a second era")]
    Alone,
    /// It is no whole number.
    #[error("is no whole number")]
    NotNumber,
    /// It is no text.
    #[error("is no text")]
    NotText,
    /// It is no scheme's name.
    #[error("is neither \"{}\" nor \"{}\"", TESTS, ED25519)]
    NoScheme,
    /// It is no array.
    #[error("is no array")]
    NotArray,
    /// The element at this place of it, from 0 on, is no table.
    #[error("has no table at place {0}")]
    NotTable(usize),
    /// An output has both an address and a key.
    #[error("stands beside a key")]
    BothLocks,
    /// It has neither.
    #[error("is missing, and no key stands in its stead")]
    NoLock,
    /// The number isn't from the first to the second.
    #[error("is not from {least} to {most}")]
    OutOfRange { least: u64, most: u64 },
    /// It isn't 66 hexadecimal digits of an address of the network.
    #[error("is not 66 hexadecimal digits of an address of the network")]
    NoAddress,
    /// It isn't 64 hexadecimal digits.
    #[error("is not 64 hexadecimal digits")]
    NoKey,
    /// It is below 1.
    #[error("is below 1")]
    NoCoin,
    /// The coins up to here are over 2^63 - 1.
    #[error("makes the coins up to there more than 9223372036854775807")]
    TooMuch,
    /// There is no output.
    #[error("has no table")]
    NoOutputs,
    /// There are over 10,000 outputs.
    #[error("has more than 10000 tables")]
    TooMany,
}

/// A key of a document, and what is wrong there.
#[derive(Clone, Copy)]
pub struct Spot<'a> {
    /// The output that has the key, counted from 0. None for a key of the document itself.
    pub output: Option<usize>,
    pub key: &'a str,
    pub trouble: Trouble,
}

impl<'a> Spot<'a> {
    /// At a key of the document itself.
    fn in_document(key: &'a str, trouble: Trouble) -> Spot<'a>
        ensures { spot_view result ≡ in_document key.entry.now trouble }
    {
        Spot {
            output: None,
            key,
            trouble,
        }
    }

    /// At a key of an output.
    fn in_output(output: usize, key: &'a str, trouble: Trouble) -> Spot<'a>
        ensures { spot_view result ≡ in_output output key.entry.now trouble }
    {
        Spot {
            output: Some(output),
            key,
            trouble,
        }
    }
}

/// The first key of a table that is none of these.
fn unknown_key<'a>(table: &'a Table, known: &[&str]) -> Option<&'a str>
    ensures { option_map (λ key. key.now) result ≡ unknown_in (texts_of known.now) (table_view table.now) }
{
    for key in table.keys() {
        if !(&*known).contains(&key.as_str()) {
            return Some(key.as_str());
        }
    }
    None
}

/// What is wrong where a whole number has to stand.
fn number_trouble(table: &Table, key: &str) -> Option<Trouble>
    ensures { result ≡ number_trouble (get_member key.now (table_view table.now)) }
{
    match value_at(table, key) {
        None => Some(Trouble::Missing),
        Some(value) => match value.as_integer() {
            Some(_) => None,
            None => Some(Trouble::NotNumber),
        },
    }
}

/// The first of these keys at which no whole number stands.
fn lacking(table: &Table, keys: &[&'static str]) -> Option<Spot<'static>>
    ensures { option_map spot_view result ≡ lacking (texts_of keys.now) (table_view table.now) }
{
    for key in keys {
        if let Some(trouble) = number_trouble(table, *key) {
            return Some(Spot::in_document(*key, trouble));
        }
    }
    None
}

/// What is wrong with the number at a key that may be missing.
fn optional_spot(table: &Table, key: &'static str) -> Option<Spot<'static>>
    ensures { option_map spot_view result ≡ optional_spot key.now (get_member key.now (table_view table.now)) }
{
    let value = value_at(table, key)?;
    match value.as_integer() {
        Some(_) => None,
        None => Some(Spot::in_document(key, Trouble::NotNumber)),
    }
}

/// What is wrong with the two numbers of a second era.
fn era_spot(table: &Table) -> Option<Spot<'static>>
    ensures { option_map spot_view result ≡ era_spot (get_member (codes "era2_slot") (table_view table.now))
        (get_member (codes "per_asset") (table_view table.now)) }
{
    match (value_at(table, "era2_slot"), value_at(table, "per_asset")) {
        (None, None) => None,
        (Some(_), None) => Some(Spot::in_document("era2_slot", Trouble::Alone)),
        (None, Some(_)) => Some(Spot::in_document("per_asset", Trouble::Alone)),
        (Some(slot), Some(coin)) => {
            if slot.as_integer().is_none() {
                return Some(Spot::in_document("era2_slot", Trouble::NotNumber));
            }
            if coin.as_integer().is_none() {
                return Some(Spot::in_document("per_asset", Trouble::NotNumber));
            }
            None
        }
    }
}

/// What is wrong with the scheme, where one is named.
fn scheme_spot(table: &Table) -> Option<Spot<'static>>
    ensures { option_map spot_view result ≡ scheme_spot (get_member (codes "scheme") (table_view table.now)) }
{
    match value_at(table, "scheme") {
        None => None,
        Some(value) => match value.as_str() {
            None => Some(Spot::in_document("scheme", Trouble::NotText)),
            Some(name) => match Scheme::of_name(name) {
                Some(_) => None,
                None => Some(Spot::in_document("scheme", Trouble::NoScheme)),
            },
        },
    }
}

/// What is wrong with what unlocks an output.
fn lock_spot(table: &Table, output: usize) -> Option<Spot<'static>>
    ensures { option_map spot_view result ≡ lock_spot output (get_member (codes "address") (table_view table.now))
        (get_member (codes "key") (table_view table.now)) }
{
    match (value_at(table, "address"), value_at(table, "key")) {
        (None, None) => Some(Spot::in_output(output, "address", Trouble::NoLock)),
        (Some(_), Some(_)) => Some(Spot::in_output(output, "address", Trouble::BothLocks)),
        (Some(address), None) => match address.as_str() {
            Some(_) => None,
            None => Some(Spot::in_output(output, "address", Trouble::NotText)),
        },
        (None, Some(key)) => match key.as_str() {
            Some(_) => None,
            None => Some(Spot::in_output(output, "key", Trouble::NotText)),
        },
    }
}

/// What is wrong with the shape of an output.
#[tactic(auto, unfolding(crate::specs::GenesisSpots::table_spot))]
fn table_spot<'a>(table: &'a Table, output: usize) -> Option<Spot<'a>>
    ensures { option_map spot_view result ≡ table_spot output (table_view table.now) }
{
    if let Some(key) = unknown_key(table, &ENTRY_KEYS) {
        return Some(Spot::in_output(output, key, Trouble::Unknown));
    }
    if let Some(spot) = lock_spot(table, output) {
        return Some(spot);
    }
    let trouble = number_trouble(table, "coin")?;
    Some(Spot::in_output(output, "coin", trouble))
}

/// The same, where it is a table.
fn entry_spot<'a>(value: &'a Value, output: usize) -> Option<Spot<'a>>
    ensures { option_map spot_view result ≡ entry_spot output (view value.now) }
{
    match value.as_table() {
        Some(table) => table_spot(table, output),
        None => Some(Spot::in_document("output", Trouble::NotTable(output))),
    }
}

/// What is wrong with the shape of the first output with which something is.
fn first_entry<'a>(array: &'a Array) -> Option<Spot<'a>>
    ensures { option_map spot_view result ≡ first_found entry_spot 0 (values_of (array_view array.now)) }
{
    for (output, value) in array.iter().enumerate() {
        if let Some(spot) = entry_spot(value, output) {
            return Some(spot);
        }
    }
    None
}

/// What is wrong with the shape of the outputs.
fn outputs_spot<'a>(table: &'a Table) -> Option<Spot<'a>>
    ensures { option_map spot_view result ≡ outputs_spot (get_member (codes "output") (table_view table.now)) }
{
    match value_at(table, "output") {
        None => Some(Spot::in_document("output", Trouble::Missing)),
        Some(value) => match value.as_array() {
            None => Some(Spot::in_document("output", Trouble::NotArray)),
            Some(array) => first_entry(array),
        },
    }
}

/// What is wrong with the shape of a document.
#[tactic(auto, unfolding(crate::specs::GenesisSpots::shape_spot))]
fn shape_spot<'a>(table: &'a Table) -> Option<Spot<'a>>
    ensures { option_map spot_view result ≡ shape_spot (table_view table.now) }
{
    if let Some(key) = unknown_key(table, &GENESIS_KEYS) {
        return Some(Spot::in_document(key, Trouble::Unknown));
    }
    if let Some(spot) = lacking(table, &GENESIS_KEYS[..9]) {
        return Some(spot);
    }
    if let Some(spot) = optional_spot(table, "max_volatile_bytes") {
        return Some(spot);
    }
    if let Some(spot) = era_spot(table) {
        return Some(spot);
    }
    if let Some(spot) = scheme_spot(table) {
        return Some(spot);
    }
    outputs_spot(table)
}

/// A number that is written at a key, and its range.
#[derive(Clone, Copy)]
struct Bounded {
    key: &'static str,
    least: u64,
    most: u64,
    number: i64,
}

impl Bounded {
    fn new(key: &'static str, least: u64, most: u64, number: i64) -> Bounded
        ensures { bounded_view result ≡ bounded key.entry.now least most number }
    {
        Bounded {
            key,
            least,
            most,
            number,
        }
    }

    /// The number, where it is out of its range.
    fn spot(&self) -> Option<Spot<'static>>
        ensures { option_map spot_view result ≡ bound_spot (bounded_view self.now) }
    {
        match stages::within(self.least, self.most, self.number) {
            Some(_) => None,
            None => Some(Spot::in_document(
                self.key,
                Trouble::OutOfRange {
                    least: self.least,
                    most: self.most,
                },
            )),
        }
    }
}

/// The first of the numbers that is out of its range.
fn first_outside(bounds: &[Bounded]) -> Option<Spot<'static>>
    ensures { option_map spot_view result ≡ range_spot (map bounded_view bounds.now) }
{
    for bounded in bounds {
        if let Some(spot) = bounded.spot() {
            return Some(spot);
        }
    }
    None
}

/// The first of the nine numbers that is out of its range.
fn numbers_spot(numbers: &Numbers) -> Option<Spot<'static>>
    ensures { option_map spot_view result ≡ range_spot (number_bounds (numbers_view numbers.now)) }
{
    let bounds = [
        Bounded::new("network", 0, 15, numbers.network),
        Bounded::new("k", 1, 10_000, numbers.k),
        Bounded::new("min_fee_a", 0, 1_000_000, numbers.min_fee_a),
        Bounded::new("min_fee_b", 0, 1_000_000_000_000, numbers.min_fee_b),
        Bounded::new("min_utxo", 0, 1_000_000_000_000, numbers.min_utxo),
        Bounded::new("max_tx_size", 1, 65_536, numbers.max_tx_size),
        Bounded::new("max_body_size", 1, 1_048_000, numbers.max_body_size),
        Bounded::new("max_volatile", 1, 100_000, numbers.max_volatile),
        Bounded::new("max_mempool", 1, 100_000, numbers.max_mempool),
    ];
    first_outside(&bounds)
}

/// The bound of bytes, where it is out of its range.
fn bytes_spot(bytes: Option<i64>) -> Option<Spot<'static>>
    ensures { option_map spot_view result ≡ range_spot (bytes_bounds bytes) }
{
    let bounds = [Bounded::new("max_volatile_bytes", 1, 1_099_511_627_776, bytes?)];
    first_outside(&bounds)
}

/// The first of the numbers of a second era that is out of its range.
fn second_era_spot(era: &Option<EraNumbers>) -> Option<Spot<'static>>
    ensures { option_map spot_view result ≡ range_spot (era_bounds (option_map era_numbers_view era.now)) }
{
    let Some(era) = era else {
        return None;
    };
    let bounds = [
        Bounded::new("era2_slot", 1, MAX_SUPPLY, era.first_slot),
        Bounded::new("per_asset", 0, 1_000_000_000_000, era.per_asset),
    ];
    first_outside(&bounds)
}

/// What unlocks an output, and names no address.
fn homeless_spot(output: usize, lock: &Lock<'_>) -> Spot<'static>
    ensures { spot_view result ≡ homeless_spot output (lock_view lock.now) }
{
    match lock {
        Lock::Address(_) => Spot::in_output(output, "address", Trouble::NoAddress),
        Lock::Key(_) => Spot::in_output(output, "key", Trouble::NoKey),
    }
}

/// The first output that names no address on the network.
fn first_homeless(network: u8, entries: &[Entry<'_>]) -> Option<Spot<'static>>
    requires { network < network_limit }
    ensures { option_map spot_view result ≡ first_found (address_spot network) 0 (map entry_view entries.now) }
{
    for (output, entry) in entries.iter().enumerate() {
        if Placed::of_entry(network, entry).is_none() {
            return Some(homeless_spot(output, &entry.lock));
        }
    }
    None
}

/// What is wrong with a coin after these. Adds it to them.
fn add_coin(sum: &mut u64, coin: i64) -> Option<Trouble>
    requires { sum.old ≤ greatest_number }
    ensures trouble { result ≡ coin_trouble sum.old (within 1 greatest_number coin) }
    ensures sum { result ≡ None → sum.new ≡ sum.old + or_zero (within 1 greatest_number coin) }
    ensures range { result ≡ None → sum.new ≤ greatest_number }
{
    let Some(coin) = stages::within(1, MAX_SUPPLY, coin) else {
        return Some(Trouble::NoCoin);
    };
    if coin > MAX_SUPPLY - *sum {
        return Some(Trouble::TooMuch);
    }
    *sum += coin;
    None
}

/// The first output that has nothing, or with which those up to it have too much.
fn first_miscounted(entries: &[Entry<'_>]) -> Option<Spot<'static>>
    ensures { option_map spot_view result ≡ coin_spot 0 0 (map entry_view entries.now) }
{
    let mut sum = 0;
    for (output, entry) in entries.iter().enumerate() {
        if let Some(trouble) = add_coin(&mut sum, entry.coin) {
            return Some(Spot::in_output(output, "coin", trouble));
        }
    }
    None
}

/// What is wrong with how many outputs there are.
fn count_spot(count: usize) -> Option<Spot<'static>>
    ensures { option_map spot_view result ≡ count_spot count }
{
    if count == 0 {
        return Some(Spot::in_document("output", Trouble::NoOutputs));
    }
    if count > MAX_OUTPUTS {
        return Some(Spot::in_document("output", Trouble::TooMany));
    }
    None
}

/// What is wrong with the addresses of the outputs, on a network that there is.
fn addresses_spot(network: i64, entries: &[Entry<'_>]) -> Option<Spot<'static>>
    ensures { option_map spot_view result ≡ addresses_spot network (map entry_view entries.now) }
{
    let network = stages::within(0, 15, network)?;
    first_homeless(network as u8, entries)
}

/// What is wrong with what a document of the right shape writes.
#[tactic(auto, unfolding(crate::specs::GenesisSpots::written_spot))]
fn written_spot(written: &Written<'_>) -> Option<Spot<'static>>
    ensures { option_map spot_view result ≡ written_spot (written_view written.now) }
{
    if let Some(spot) = numbers_spot(&written.numbers) {
        return Some(spot);
    }
    if let Some(spot) = bytes_spot(written.numbers.max_volatile_bytes) {
        return Some(spot);
    }
    if let Some(spot) = second_era_spot(&written.numbers.second_era) {
        return Some(spot);
    }
    if let Some(spot) = addresses_spot(written.numbers.network, &written.outputs) {
        return Some(spot);
    }
    if let Some(spot) = first_miscounted(&written.outputs) {
        return Some(spot);
    }
    count_spot(written.outputs.len())
}

/// The key that the first fault of a document is about, and what is wrong there. None where the document is a genesis.
/// Err where memory runs out. Takes time and memory in proportion to the document.
#[tactic(auto, unfolding(crate::specs::GenesisSpots::document_spot))]
pub fn document_spot<'a>(alloc: Global, table: &'a Table) -> Result<Option<Spot<'a>>, AllocError>
    ensures spot { IfOk result (λ spot. option_map spot_view spot ≡ document_spot (table_view table.now)) }
    // It is told just where there is a fault, and is of that one.
    ensures fault { IfOk result (λ spot.
        TellsOf (fault_or_genesis (table_view table.now)) (option_map spot_view spot)) }
{
    if let Some(spot) = shape_spot(table) {
        return Ok(Some(spot));
    }
    match Written::of_table(alloc, table) {
        Ok(written) => Ok(written_spot(&written)),
        Err(GenesisFault::OutOfMemory) => Err(AllocError),
        Err(_) => Ok(None),
    }
}
