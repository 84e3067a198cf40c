//! Which outputs an index keeps.

ghost use Rattle.std.specs.Prelude.{◌≡◌, map};
ghost use Rattle.std.specs.List.{list_any};
ghost use Rattle.std.specs.FinSet as set;
ghost use Rattle.watching.specs.Owned.{owner_cmp};

use crate::owner::Owner;
use ident::ScriptHash;
use std::alloc::{AllocError, Global};
use std::collections::BTreeSet;
use std::marker::Model;
use tx::{Address, Output};
use value::Value;

/// What is chosen.
#[derive(Drop)]
enum Kept {
    All,
    Addresses(BTreeSet<Owner>),
    Policies(BTreeSet<ScriptHash>),
}

/// Which outputs an index keeps: all, as an explorer does; those of some addresses, as a wallet does; or those that
/// hold some of an asset of some policies, as their issuer does.
///
/// ```text
/// let mine = Which::addresses(alloc, &[address])?;
/// let watch = Watch::new(alloc, Tip::genesis(), core.utxo(), k, mine)?;
/// ```
#[derive(Drop)]
pub struct Which {
    kept: Kept,
}

impl Model for Which {
    ghost use Rattle.watching.specs.Which as values;
    ghost use Rattle.watching.specs.Which.{coded_which};

    ghost Value = { values.Which };

    ghost coded = { coded_which };

    ghost use Rattle.watching.specs.WhichView.{which_of};

    ghost view = { λ w. which_of w.kept };
}

/// Whether the value holds some of an asset of one of these policies. A look-up for each policy of the value.
fn is_held(value: &Value, policies: &BTreeSet<ScriptHash>) -> bool
    ensures { result ≡
        list_any (λ p. set.contains (set.from_list {R = owner_cmp} (map (λ k. k.bytes) policies.now.keys)) p.id)
        value.now.assets }
{
    for policy in value.assets() {
        if policies.contains(&policy.id) {
            return true;
        }
    }
    false
}

impl Which {
    ghost use Rattle.std.specs.Prelude.{◌≡◌, IfOk, map};
    ghost use Rattle.std.specs.List.{list_any};
    ghost use Rattle.std.specs.FinSet as set;
    ghost use Rattle.tx.specs.View.{address_of, output_of};
    ghost use Rattle.model.specs.Transaction.{address_bytes};
    ghost use Rattle.watching.specs.Which as values;
    ghost use Rattle.watching.specs.Which.{is_all, is_watched};

    /// All outputs.
    pub fn all() -> Which
        ensures { result ≡ values.All }
    {
        Which { kept: Kept::All }
    }

    /// The outputs of these addresses. An address of another kind or network is another one, whatever its hash. Err
    /// where memory runs out. n log n comparisons of n addresses.
    pub fn addresses(alloc: Global, addresses: &[Address]) -> Result<Which, AllocError>
        ensures { IfOk result (λ which. which ≡
            values.Addresses (set.from_list (map (λ a. address_bytes (address_of a)) addresses.now))) }
    {
        let mut owners = BTreeSet::new(alloc);
        for address in addresses {
            owners.insert(Owner::of(address))?;
        }
        Ok(Which {
            kept: Kept::Addresses(owners),
        })
    }

    /// The outputs that hold some of an asset of one of these policies, whatever its name. Err where memory runs out.
    /// n log n comparisons of n policies.
    pub fn policies(alloc: Global, policies: &[ScriptHash]) -> Result<Which, AllocError>
        ensures { IfOk result (λ which. which ≡
            values.Policies (set.from_list (map (λ p. p.bytes) policies.now))) }
    {
        let mut hashes = BTreeSet::new(alloc);
        for policy in policies {
            hashes.insert(*policy)?;
        }
        Ok(Which {
            kept: Kept::Policies(hashes),
        })
    }

    /// Whether all outputs are kept.
    pub fn is_all(&self) -> bool
        ensures { result ≡ is_all self.now }
    {
        match self.kept {
            Kept::All => true,
            Kept::Addresses(_) => false,
            Kept::Policies(_) => false,
        }
    }

    /// Whether this output is kept. Takes a look-up, or one for each policy of the output.
    pub fn watches(&self, output: &Output) -> bool
        ensures { result ≡ is_watched self.now (output_of output.now) }
    {
        match &self.kept {
            Kept::All => true,
            Kept::Addresses(owners) => owners.contains(&Owner::of(&output.address)),
            Kept::Policies(policies) => is_held(&output.value, policies),
        }
    }

    /// Whether one of these outputs is kept. Takes what [`Which::watches`] takes, for each until one is.
    pub(crate) fn watches_some(&self, outputs: &[Output]) -> bool
        ensures { result ≡ list_any (is_watched self.now) (map output_of outputs.now) }
    {
        for output in outputs {
            if self.watches(output) {
                return true;
            }
        }
        false
    }
}
