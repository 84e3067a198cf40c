//! The addresses of the outputs.

ghost use Rattle.std.specs.Prelude.{◌≡◌, ◌<◌, map, ok_or, option_map};
ghost use Rattle.model.specs.Limits.{network_limit};
ghost use Rattle.tx.specs.View.{address_of};
ghost use Rattle.genesis.specs.declared.genesis_fault.GenesisFault.TheVariants.{BadAddress};
ghost use Rattle.genesis.specs.Steps.{each, Gives};
ghost use Rattle.genesis.specs.Document.{ByAddress, ByKey};
ghost use Rattle.genesis.specs.Judgement.{address_of_lock, placed_of};
ghost use Rattle.genesis.specs.View.{lock_view, entry_view, placed_view};

use crate::document::{Entry, Lock};
use crate::genesis_fault::GenesisFault;
use hex::FromHex;
use ident::KeyHash;
use std::alloc::Global;
use tx::{ADDRESS_SIZE, Address, Credential};

/// An output whose address is known.
#[derive(Clone, Copy)]
pub struct Placed {
    pub address: Address,
    pub coin: i64,
}

/// The address of these hexadecimal digits, where it is of this network.
#[tactic(auto, unfolding(crate::specs::Judgement::address_of_lock))]
fn address_of_text(network: u8, text: &str) -> Option<Address>
    ensures { option_map address_of result ≡ address_of_lock network (ByAddress text.now) }
{
    let bytes = <[u8; ADDRESS_SIZE]>::from_hex(text).ok()?;
    let address = Address::from_bytes(&bytes)?;
    if address.network() != network {
        return None;
    }
    Some(address)
}

/// The address on this network that the hash of a key unlocks.
#[tactic(auto, unfolding(crate::specs::Judgement::address_of_lock, model::specs::Transaction::key_hash_of))]
fn address_of_key(network: u8, text: &str) -> Option<Address>
    requires { network < network_limit }
    ensures { option_map address_of result ≡ address_of_lock network (ByKey text.now) }
{
    let key = <[u8; 32]>::from_hex(text).ok()?;
    Address::new(network, Credential::Key(KeyHash::of_key(&key)))
}

impl Placed {
    /// The output with its address on this network, where it has one.
    pub fn of_entry(network: u8, entry: &Entry<'_>) -> Option<Placed>
        requires { network < network_limit }
        ensures { option_map placed_view result ≡ placed_of network (entry_view entry.now) }
    {
        let address = match entry.lock {
            Lock::Address(text) => address_of_text(network, text)?,
            Lock::Key(text) => address_of_key(network, text)?,
        };
        Some(Placed {
            address,
            coin: entry.coin,
        })
    }
}

/// The outputs with their addresses, where each has one on this network.
pub fn place(alloc: Global, network: u8, entries: &[Entry<'_>]) -> Result<Vec<Placed>, GenesisFault>
    requires { network < network_limit }
    ensures { Gives (λ placed. map placed_view placed.items) result
        (ok_or (each (placed_of network) (map entry_view entries.now)) BadAddress) }
{
    let mut placed = Vec::with_capacity(alloc, entries.len())?;
    for entry in entries {
        let output = Placed::of_entry(network, entry).ok_or(GenesisFault::BadAddress)?;
        placed.push(output)?;
    }
    Ok(placed)
}
