//! Laws of the unspent outputs before the first block.
ghost use Rattle.std.specs.Prelude.{◌≡◌, ℕ, ◌<◌, Some, None, length, slice_get};
ghost use Rattle.model.specs.Transaction.{Input};
ghost use Rattle.model.specs.Utxo.{output_at, outputs_of, place, coin_of};
ghost use Rattle.model.specs.Genesis.{Genesis, Grant, supply_of, opening_id, output_of_grant, opening_utxo};

/// What stands at each input before the first block.
pub fn opening_outputs()
    // Each grant stands at 32 zero bytes and its place in the genesis, counted from 0.
    ensures granted { (genesis : Genesis) (index : ℕ) (grant : Grant) → slice_get genesis.grants index ≡ Some grant
        → output_at (opening_utxo genesis) (place opening_id index) ≡ Some (output_of_grant grant) }
    // Nothing else stands anywhere.
    ensures others { (genesis : Genesis) (input : Input)
        → ((index : ℕ) → index < length genesis.grants → input ≡ place opening_id index → ⊥)
        → output_at (opening_utxo genesis) input ≡ None }
{}

/// The unspent outputs before the first block hold the supply.
pub fn opening_supply()
    ensures { (genesis : Genesis) → coin_of (outputs_of (opening_utxo genesis)) ≡ supply_of genesis }
{}
