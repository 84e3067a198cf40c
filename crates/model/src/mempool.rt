//! Laws of the mempool: what a pass through it keeps, and what a forged block takes of it.
ghost use Rattle.std.specs.Prelude.{◌≡◌, ◌++◌, [], ◌∷◌, ℕ, List, Some, None, true, is_some, if◌then◌else◌};
ghost use Rattle.model.specs.Transaction.{Transaction};
ghost use Rattle.model.specs.Signature.{Verifies};
ghost use Rattle.model.specs.Utxo.{Utxo};
ghost use Rattle.model.specs.Rules.{Params, reason_against};
ghost use Rattle.model.specs.Ledger.{Ledger, ledger_after};
ghost use Rattle.model.specs.Mempool.{utxo_after_all, passed, picked, fits_in_a_block};

/// What stays in the mempool.
pub fn mempool_passes()
    // What stays where it is brought up to date stays again.
    ensures again { (verifies : Verifies) (params : Params) (slot : ℕ) (utxo : Utxo) (txs : List Transaction)
        → passed verifies params slot utxo (passed verifies params slot utxo txs)
        ≡ passed verifies params slot utxo txs }
    // Where nothing is dropped, a transaction put at the end stays just where there is no reason against it on what
    // those before it leave.
    ensures put { (verifies : Verifies) (params : Params) (slot : ℕ) (utxo : Utxo) (txs : List Transaction)
        (t : Transaction) → passed verifies params slot utxo txs ≡ txs
        → passed verifies params slot utxo (txs ++ t ∷ [])
        ≡ txs ++ (if is_some (reason_against verifies params (utxo_after_all utxo txs) slot t) then [] else t ∷ []) }
    // Where nothing is dropped, the fold of the rules over the transactions has a ledger, and the other way round.
    ensures folds { (verifies : Verifies) (params : Params) (slot : ℕ) (ledger : Ledger) (txs : List Transaction)
        → passed verifies params slot ledger.utxo txs ≡ txs
        → (after : Ledger) × (ledger_after verifies params slot ledger txs ≡ Some after)
        × (after.utxo ≡ utxo_after_all ledger.utxo txs) }
    ensures stays { (verifies : Verifies) (params : Params) (slot : ℕ) (ledger after : Ledger)
        (txs : List Transaction) → ledger_after verifies params slot ledger txs ≡ Some after
        → passed verifies params slot ledger.utxo txs ≡ txs }
{}

/// What a forged block takes of the mempool.
pub fn picked_transactions()
    // The fold of the rules over them at the block's slot has a ledger,
    ensures folds { (verifies : Verifies) (params : Params) (slot : ℕ) (ledger : Ledger) (txs : List Transaction)
        → (after : Ledger)
        × (ledger_after verifies params slot ledger (picked verifies params slot ledger.utxo [] txs) ≡ Some after) }
    // and they stand in a block.
    ensures fits { (verifies : Verifies) (params : Params) (slot : ℕ) (utxo : Utxo) (txs : List Transaction)
        → fits_in_a_block params [] ≡ true → fits_in_a_block params (picked verifies params slot utxo [] txs) ≡ true }
{}
