//! Who holds an asset.

ghost use Rattle.std.specs.Prelude.{◌≡◌, IfOk, map, option_map};
ghost use Rattle.model.specs.Value.{Named};
ghost use Rattle.model.specs.Utxo.{outputs_of};
ghost use Rattle.watching.specs.HoldersTold.{holder_with, holders_among};
ghost use Rattle.watching.specs.View.{holder_of};

use crate::balance::balance;
use crate::owners::Owners;
use ident::ScriptHash;
use std::alloc::{AllocError, Global};
use std::fmt;
use tx::Address;
use utxo_rules::Utxo;

/// An address whose unspent outputs hold some of an asset.
#[derive(Clone, Copy, Debug, PartialEq, Eq)]
pub struct Holder {
    pub address: Address,
    /// How much of the asset its unspent outputs hold together, counted as their quantities are: at least 1, and below
    /// 2^126.
    pub amount: u128,
}

impl fmt::Display for Holder {
    ghost use Rattle.std.specs.Prelude.{Some, ◌++◌, codes, decimal};
    ghost use Rattle.tx.specs.View.{address_of};
    ghost use Rattle.tx.specs.AddressText.{address_text};

    ghost output = { λ holder. Some (address_text (address_of holder.address) ++ (codes " "
        ++ decimal holder.amount)) };

    /// Writes the address in 66 lower case hexadecimal digits, a space and the amount.
    fn fmt<W: fmt::Write>(&self, f: &mut fmt::Formatter<W>) -> fmt::Result {
        let address = self.address;
        let amount = self.amount;
        write!(f, "{address} {amount}")
    }
}

/// The holder that has these outputs, all of one address, if they hold some of the asset. Adds up all that they hold.
fn as_holder(
    alloc: Global,
    outputs: &Utxo,
    policy: &ScriptHash,
    name: &[u8],
) -> Result<Option<Holder>, AllocError>
    ensures { IfOk result (λ holder. option_map holder_of holder ≡
        holder_with (Named policy.now.bytes name.now) (outputs_of outputs.now)) }
{
    let Some((_, output)) = outputs.iter().next() else {
        return Ok(None);
    };
    // The sum is exact, and no quantity is below 0.
    let amount = balance(alloc, outputs)?.amount(policy, name).unsigned_abs();
    if amount == 0 {
        Ok(None)
    } else {
        Ok(Some(Holder {
            address: output.address,
            amount,
        }))
    }
}

/// Those owners that hold some of the asset, in the order of their bytes.
pub fn holders(
    alloc: Global,
    owners: &Owners,
    policy: &ScriptHash,
    name: &[u8],
) -> Result<Vec<Holder>, AllocError>
    ensures { IfOk result (λ holders. map holder_of holders.items ≡
        holders_among (Named policy.now.bytes name.now) owners.now) }
{
    let mut holders = Vec::new(alloc);
    for (_, outputs) in owners.iter() {
        if let Some(holder) = as_holder(alloc, outputs, policy, name)? {
            holders.push(holder)?;
        }
    }
    Ok(holders)
}
