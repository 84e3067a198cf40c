//! What a network agrees on before its first block.

ghost use Rattle.std.specs.Prelude.{◌≡◌, ◌++◌, IfOk, OnOk, map, option_map, string_bytes};
ghost use Rattle.genesis.specs.View.{grant_view, second_era_of};
ghost use Rattle.showing.specs.Geneses.{given_line, lines_of_era, lines_of_genesis, lines_of_grant, lines_of_grants};
ghost use Rattle.showing.specs.Geneses.{lines_of_limits, lines_of_params};

use crate::lines::{put_name, put_number};
use crate::transactions::put_address;
use genesis::{Genesis, GenesisDocument, Grant, SecondEra};
use std::alloc::{AllocError, Global};

/// Appends the line of a number, where one is given.
fn put_given(out: &mut String, word: &str, number: Option<u64>) -> Result<(), AllocError>
    ensures { OnOk result (string_bytes out.new ≡ string_bytes out.old ++ given_line word.now number) }
{
    match number {
        Some(number) => put_number(out, "", word, number),
        None => Ok(()),
    }
}

/// Appends the lines of a second era, where there is one.
fn put_era(out: &mut String, era: Option<SecondEra>) -> Result<(), AllocError>
    ensures { OnOk result (string_bytes out.new ≡ string_bytes out.old ++ lines_of_era (option_map second_era_of era)) }
{
    match era {
        Some(era) => {
            put_number(out, "", "era2_slot", era.first_slot)?;
            put_number(out, "", "per_asset", era.per_asset)
        }
        None => Ok(()),
    }
}

/// Appends what it asks of transactions and of bodies.
fn put_params(out: &mut String, genesis: &Genesis) -> Result<(), AllocError>
    ensures { OnOk result (string_bytes out.new ≡ string_bytes out.old ++ lines_of_params genesis.now.params) }
{
    put_number(out, "", "min_fee_a", genesis.min_fee_a())?;
    put_number(out, "", "min_fee_b", genesis.min_fee_b())?;
    put_number(out, "", "min_utxo", genesis.min_utxo())?;
    put_number(out, "", "max_tx_size", genesis.max_tx_size())?;
    put_number(out, "", "max_body_size", genesis.max_body_size())?;
    put_era(out, genesis.second_era())
}

/// Appends how much a node keeps.
fn put_limits(out: &mut String, genesis: &Genesis) -> Result<(), AllocError>
    ensures { OnOk result (string_bytes out.new ≡ string_bytes out.old ++ lines_of_limits genesis.now) }
{
    put_number(out, "", "k", genesis.k())?;
    put_number(out, "", "max_volatile", genesis.max_volatile())?;
    put_given(out, "max_volatile_bytes", genesis.max_volatile_bytes())?;
    put_number(out, "", "max_mempool", genesis.max_mempool())
}

/// Appends the lines of the output at this place.
fn put_grant(out: &mut String, place: u64, grant: &Grant) -> Result<(), AllocError>
    ensures { OnOk result (string_bytes out.new ≡ string_bytes out.old ++ lines_of_grant place (grant_view grant.now)) }
{
    put_number(out, "", "output", place)?;
    put_address(out, "  ", &grant.address)?;
    put_number(out, "  ", "coin", grant.coin)
}

/// Appends the lines of each of these outputs, whose places are counted from 0 on.
fn put_grants(out: &mut String, grants: &[Grant]) -> Result<(), AllocError>
    ensures { OnOk result (string_bytes out.new ≡ string_bytes out.old
        ++ lines_of_grants 0 (map grant_view grants.now)) }
{
    for (place, grant) in grants.iter().enumerate() {
        put_grant(out, place as u64, grant)?;
    }
    Ok(())
}

/// Appends the lines of a genesis.
fn put_genesis(out: &mut String, document: &GenesisDocument) -> Result<(), AllocError>
    ensures { OnOk result (string_bytes out.new
        ≡ string_bytes out.old ++ lines_of_genesis document.now.scheme document.now.genesis) }
{
    let genesis = &document.genesis;
    put_number(out, "", "network", genesis.network() as u64)?;
    put_name(out, "", "scheme", document.scheme.name())?;
    put_params(out, genesis)?;
    put_limits(out, genesis)?;
    put_number(out, "", "supply", genesis.supply())?;
    put_grants(out, genesis.outputs())
}

/// The lines of a genesis, by the names of its file's keys: `network N`, `scheme NAME`, what it asks of transactions
/// and of bodies, how much a node keeps, `supply N`, all lovelace that there is, and of each output `output I` with its
/// address and its coin. Keys of numbers that may be left out have a line just where they are given. Err where memory
/// runs out. Takes time and memory in proportion to the lines.
pub fn show_genesis(alloc: Global, document: &GenesisDocument) -> Result<String, AllocError>
    ensures { IfOk result (λ lines. string_bytes lines
        ≡ lines_of_genesis document.now.scheme document.now.genesis) }
{
    let mut lines = String::new(alloc);
    put_genesis(&mut lines, document)?;
    Ok(lines)
}
