//! Laws: a transaction is determined by its parts, and an address is read from what it is written as. A function here
//! has no body: its contract is the law.

ghost use Rattle.std.specs.Prelude.{◌≡◌, ℕ, List, Ok};
ghost use Rattle.model.specs.Transaction.{Transaction, SpellsTransaction};
ghost use Rattle.tx.specs.AddressText.{address_text, address_of_text, SpellsAddress};
ghost use Rattle.tx.specs.Parts.{Parts, IsTxOf};
ghost use Rattle.tx.specs.View.{address_of};

use crate::address::Address;

/// Of the same parts, in whatever order inputs, signatures and scripts are told, there is at most one transaction with
/// a text.
pub fn one_tx_of_parts()
    ensures { (a b : Transaction) (parts : Parts) (text other : List ℕ) → SpellsTransaction a text →
        SpellsTransaction b other → IsTxOf a parts → IsTxOf b parts → a ≡ b }
{}

/// What an address is written as spells it, and is read as it.
pub fn address_read_again(address: &Address)
    ensures spelled { SpellsAddress (address_of address.now) (address_text (address_of address.now)) }
    ensures read { address_of_text (address_text (address_of address.now)) ≡ Ok (address_of address.now) }
{}
