//! What the genesis grants.

ghost use Rattle.std.specs.Prelude.{◌≡◌, ◌<◌, map, ok_or, option_map, sum_by, if◌then◌else◌, nat_lt, Some, None, IfOk};
ghost use Rattle.model.specs.Limits.{number_limit};
ghost use Rattle.genesis.specs.declared.genesis_fault.GenesisFault.TheVariants.{BadCoin};
ghost use Rattle.genesis.specs.Steps.{each, Gives};
ghost use Rattle.genesis.specs.Judgement.{grant_of, grants_of};
ghost use Rattle.genesis.specs.View.{placed_view, grant_view};

use crate::genesis_fault::GenesisFault;
use crate::placing::Placed;
use crate::settings::within;
use std::alloc::Global;
use tx::Address;

/// The largest sum of all coins.
const MAX_SUPPLY: u64 = (1 << 63) - 1;

/// An amount of lovelace, which stands at an address from the start: 1 or more.
#[derive(Clone, Copy, Debug, PartialEq, Eq)]
pub struct Grant {
    pub address: Address,
    pub coin: u64,
}

impl Grant {
    /// What is granted, where it is something, and no more than there may be of all.
    fn of_placed(placed: &Placed) -> Option<Grant>
        ensures { option_map grant_view result ≡ grant_of (placed_view placed.now) }
    {
        Some(Grant {
            address: placed.address,
            coin: within(1, MAX_SUPPLY, placed.coin)?,
        })
    }
}

/// What all outputs grant, where each grants something.
fn each_grant(alloc: Global, placed: &[Placed]) -> Result<Vec<Grant>, GenesisFault>
    ensures { Gives (λ grants. map grant_view grants.items) result
        (ok_or (each grant_of (map placed_view placed.now)) BadCoin) }
{
    let mut grants = Vec::with_capacity(alloc, placed.len())?;
    for output in placed {
        let grant = Grant::of_placed(output).ok_or(GenesisFault::BadCoin)?;
        grants.push(grant)?;
    }
    Ok(grants)
}

/// The sum of all coins, where it is below 2^63.
fn supply_of(grants: &[Grant]) -> Option<u64>
    ensures { let total = sum_by (λ g. g.coin) (map grant_view grants.now) in
        result ≡ (if nat_lt total number_limit then Some total else None) }
{
    let mut supply: u64 = 0;
    for grant in grants {
        supply = supply.checked_add(grant.coin)?;
        if supply > MAX_SUPPLY {
            return None;
        }
    }
    Some(supply)
}

/// What all outputs grant, with the sum of it.
#[tactic(auto, unfolding(crate::specs::Judgement::grants_of))]
pub fn grant_all(alloc: Global, placed: &[Placed]) -> Result<(Vec<Grant>, u64), GenesisFault>
    ensures grants { Gives (λ x. map grant_view x.0.items) result
        (ok_or (grants_of (map placed_view placed.now)) BadCoin) }
    ensures supply { IfOk result (λ x. x.1 ≡ sum_by (λ g. g.coin) (map grant_view x.0.items)) }
{
    let grants = each_grant(alloc, placed)?;
    let supply = supply_of(&grants).ok_or(GenesisFault::BadCoin)?;
    Ok((grants, supply))
}
