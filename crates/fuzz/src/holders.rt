//! Who holds an asset, and what an index keeps of some addresses or policies: what an index of random outputs tells,
//! beside a walk through them.

use crate::random::Random;
use block::Tip;
use ident::{KeyHash, ScriptHash, TxId};
use std::alloc::Global;
use tx::{Address, Credential, Input, Output};
use utxo_rules::Utxo;
use value::{AssetQuantity, Value};
use watching::{Holder, Watch, Which};

/// How many outputs a set has.
const OUTPUTS: u16 = 30;

/// How many addresses they are of.
const ADDRESSES: usize = 5;

/// How many of these are of keys.
const KEYS: usize = 3;

/// How many policies their assets have.
const POLICIES: usize = 2;

/// The names of their assets.
const NAMES: [&[u8]; 3] = [b"", b"abc", b"ABD"];

/// Any but a known one.
fn policy(number: usize) -> ScriptHash {
    ScriptHash::from_bytes([(number % 256) as u8; 32])
}

/// Of two kinds, of which two have the same hashes; those of keys come first, as their bytes do.
fn address(number: usize) -> Option<Address> {
    let hash = [(number % KEYS) as u8; 32];
    if number < KEYS {
        Address::new(0, Credential::Key(KeyHash::from_bytes(hash)))
    } else {
        Address::new(0, Credential::Script(ScriptHash::from_bytes(hash)))
    }
}

/// A value with some of the assets.
fn random_value(alloc: Global, random: &mut Random) -> Option<Value> {
    let mut assets = Vec::new(alloc);
    for number in 0..POLICIES {
        for name in NAMES {
            let quantity = random.below(4) as u64;
            if quantity > 0 {
                let asset = AssetQuantity {
                    policy: policy(number),
                    name: Vec::from_slice(alloc, name).ok()?,
                    quantity,
                };
                assets.push(asset).ok()?;
            }
        }
    }
    Value::new(alloc, random.below(100) as u64, assets).ok()
}

/// Outputs of some of the addresses, which hold some of the assets.
fn random_outputs(alloc: Global, random: &mut Random) -> Option<Utxo> {
    let mut outputs = Utxo::new(alloc);
    for index in 0..OUTPUTS {
        let input = Input {
            transaction: TxId::from_bytes([7; 32]),
            index,
        };
        let output = Output {
            address: address(random.below(ADDRESSES))?,
            value: random_value(alloc, random)?,
        };
        outputs.insert(&input, output).ok()?;
    }
    Some(outputs)
}

/// How much of the asset a value has.
fn quantity_in(value: &Value, policy: &ScriptHash, name: &[u8]) -> u128 {
    let mut sum: u128 = 0;
    for held in value.assets() {
        for token in &held.tokens {
            if held.id == *policy && token.name.as_slice() == name {
                sum = sum.saturating_add(u128::from(token.quantity));
            }
        }
    }
    sum
}

/// How much of the asset a walk finds at the address.
fn walked(outputs: &Utxo, address: &Address, policy: &ScriptHash, name: &[u8]) -> u128 {
    let mut sum: u128 = 0;
    for (_, output) in outputs.of(address) {
        sum = sum.saturating_add(quantity_in(&output.value, policy, name));
    }
    sum
}

/// Whether the index tells of the asset what a walk finds.
fn is_told(watch: &Watch, policy: &ScriptHash, name: &[u8]) -> Option<bool> {
    let holders = watch.holders(policy, name).ok()?;
    let mut same = true;
    let mut found: usize = 0;
    for number in 0..ADDRESSES {
        let address = address(number)?;
        let amount = walked(watch.all(), &address, policy, name);
        if amount > 0 {
            same &= holders.get(found) == Some(&Holder { address, amount });
            found = found.saturating_add(1);
        }
    }
    Some(same && holders.len() == found)
}

/// Whether an output stands at the input just where it is meant to.
fn is_kept(kept: &Utxo, input: &Input, is_meant: bool) -> bool {
    kept.get(input).is_some() == is_meant
}

/// Whether an index of an address of a key and of one of a script keeps their outputs and no others, also none of the
/// addresses of the other kind with the same hashes.
fn keeps_addresses(alloc: Global, outputs: &Utxo) -> Option<bool> {
    let mine = [address(1)?, address(KEYS)?];
    let which = Which::addresses(alloc, &mine).ok()?;
    let watch = Watch::new(alloc, Tip::genesis(), outputs, 1, which).ok()?;
    let mut same = true;
    for (input, output) in outputs.iter() {
        let is_meant = output.address == mine[0] || output.address == mine[1];
        same &= is_kept(watch.all(), &input, is_meant);
    }
    Some(same)
}

/// Whether an index of a policy keeps the outputs that hold some of an asset of it and no others.
fn keeps_policy(alloc: Global, outputs: &Utxo) -> Option<bool> {
    let which = Which::policies(alloc, &[policy(0)]).ok()?;
    let watch = Watch::new(alloc, Tip::genesis(), outputs, 1, which).ok()?;
    let mut same = true;
    for (input, output) in outputs.iter() {
        let mut sum: u128 = 0;
        for name in NAMES {
            sum = sum.saturating_add(quantity_in(&output.value, &policy(0), name));
        }
        same &= is_kept(watch.all(), &input, sum > 0);
    }
    Some(same)
}

/// Whether the index of a random set of outputs tells of each asset what a walk finds, and whether indexes of some of
/// these outputs keep just those.
fn are_told(alloc: Global, random: &mut Random) -> Option<bool> {
    let outputs = random_outputs(alloc, random)?;
    let watch = Watch::new(alloc, Tip::genesis(), &outputs, 1, Which::all()).ok()?;
    let mut same = keeps_addresses(alloc, &outputs)? && keeps_policy(alloc, &outputs)?;
    for number in 0..=POLICIES {
        for name in NAMES {
            same &= is_told(&watch, &policy(number), name)?;
        }
    }
    Some(same)
}

/// Makes `sets` sets of outputs, and tells of how many an index told otherwise.
pub fn run(alloc: Global, sets: u64, random: &mut Random, out: &mut String) {
    let mut differing: u64 = 0;
    for _ in 0..sets {
        if are_told(alloc, random) != Some(true) {
            differing = differing.saturating_add(1);
        }
    }
    let _ = write!(
        out,
        "holders of assets: {sets} sets of {OUTPUTS} outputs, {differing} differ\n"
    );
}
