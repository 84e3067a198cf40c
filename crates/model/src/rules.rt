//! Laws of the rules of a transaction and of the unspent outputs.
ghost use Rattle.std.specs.Prelude.{◌≡◌, ℕ, ◌<◌, ◌↔◌, ◌+◌, ◌+ℤ◌, true, false, IsTrue, Some, None, List, ◌++◌};
ghost use Rattle.std.specs.Prelude.{Contains, slice_get};
ghost use Rattle.sha2.specs.Sha256.{sha256};
ghost use Rattle.model.specs.Value.{Asset, minted_amount};
ghost use Rattle.model.specs.Transaction.{Input, Output, Transaction, IsTransaction, transaction_id_of};
ghost use Rattle.model.specs.Signature.{Verifies, test_verifies};
ghost use Rattle.model.specs.Utxo.{Utxo, output_at, outputs_of, HaveSamePairs, spent_outputs, place, IsNewPlace};
ghost use Rattle.model.specs.Utxo.{utxo_after, sum_of, coin_of};
ghost use Rattle.model.specs.Balance.{PreservesValue, is_balanced, amount_of_fee};
ghost use Rattle.model.specs.Rules.{Params, Reason, reason_number, passes, has_free_places, reason_against};

/// The reason against a transaction is the first one whose condition fails.
pub fn first_reason()
    ensures told { (verifies : Verifies) (params : Params) (utxo : Utxo) (slot : ℕ) (t : Transaction) (r : Reason)
        → (reason_against verifies params utxo slot t ≡ Some r)
        ↔ ((passes verifies params utxo slot t r ≡ false)
        × ((other : Reason) → reason_number other < reason_number r
        → passes verifies params utxo slot t other ≡ true)) }
    // There is none exactly where every condition holds.
    ensures none { (verifies : Verifies) (params : Params) (utxo : Utxo) (slot : ℕ) (t : Transaction)
        → (reason_against verifies params utxo slot t ≡ None)
        ↔ ((r : Reason) → passes verifies params utxo slot t r ≡ true) }
{}

/// Only the pairs of a UTXO matter: where two have the same pairs, each transaction has the same reason against it.
pub fn same_reason()
    ensures { (verifies : Verifies) (params : Params) (a b : Utxo) (slot : ℕ) (t : Transaction) → HaveSamePairs a b
        → reason_against verifies params a slot t ≡ reason_against verifies params b slot t }
{}

/// A transaction spends just the outputs that its inputs name.
pub fn spent_pairs()
    ensures { (utxo : Utxo) (t : Transaction) (output : Output) → Contains (spent_outputs utxo t) output
        ↔ ((input : Input) × Contains t.inputs input × (output_at utxo input ≡ Some output)) }
{}

/// What stands at each input after a transaction.
pub fn pairs_after()
    // Its own outputs stand at its identifier and their index.
    ensures new { (utxo : Utxo) (t : Transaction) (index : ℕ) (output : Output)
        → slice_get t.outputs index ≡ Some output
        → output_at (utxo_after utxo t) (place (transaction_id_of t) index) ≡ Some output }
    // What it spent is gone.
    ensures spent { (utxo : Utxo) (t : Transaction) (input : Input) → Contains t.inputs input
        → (IsNewPlace t input → ⊥) → output_at (utxo_after utxo t) input ≡ None }
    // All else stands as before.
    ensures others { (utxo : Utxo) (t : Transaction) (input : Input) → (Contains t.inputs input → ⊥)
        → (IsNewPlace t input → ⊥) → output_at (utxo_after utxo t) input ≡ output_at utxo input }
{}

/// The test of a balance says that value is preserved, of ada and of each other asset: also of those that the
/// transaction names nowhere.
pub fn balanced_in_each_asset()
    ensures { (utxo : Utxo) (t : Transaction) → IsTrue (is_balanced utxo t) ↔ PreservesValue utxo t }
{}

/// What the unspent outputs hold after a transaction.
pub fn value_conserved()
    // Of each asset, what was spent is gone, and what its outputs hold is there.
    ensures change { (utxo : Utxo) (t : Transaction) (asset : Asset) → IsTransaction t → IsTrue (has_free_places utxo t)
        → sum_of asset (outputs_of (utxo_after utxo t)) +ℤ sum_of asset (spent_outputs utxo t)
        ≡ sum_of asset (outputs_of utxo) +ℤ sum_of asset t.outputs }
    // So where value is preserved each asset changes by what is minted, and ada by the fee.
    ensures assets { (utxo : Utxo) (t : Transaction) (asset : Asset) → IsTransaction t
        → IsTrue (has_free_places utxo t) → PreservesValue utxo t
        → sum_of asset (outputs_of (utxo_after utxo t)) +ℤ amount_of_fee asset t.fee
        ≡ sum_of asset (outputs_of utxo) +ℤ minted_amount asset t.mint }
    // No ada is made or lost: what the outputs hold and the fee are what they held.
    ensures ada { (utxo : Utxo) (t : Transaction) → IsTransaction t → IsTrue (has_free_places utxo t)
        → PreservesValue utxo t
        → coin_of (outputs_of (utxo_after utxo t)) + t.fee ≡ coin_of (outputs_of utxo) }
    // So it is with each transaction against which there is no reason.
    ensures accepted { (verifies : Verifies) (params : Params) (utxo : Utxo) (slot : ℕ) (t : Transaction)
        → IsTransaction t → reason_against verifies params utxo slot t ≡ None
        → coin_of (outputs_of (utxo_after utxo t)) + t.fee ≡ coin_of (outputs_of utxo) }
{}

/// Of the scheme for tests just one signature of a message is good for a key.
pub fn test_signatures()
    ensures { (key message signature : List ℕ) → IsTrue (test_verifies key message signature)
        ↔ (signature ≡ sha256 (key ++ message) ++ sha256 (key ++ message)) }
{}
