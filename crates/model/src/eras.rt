//! Laws of the eras: what a second one changes, and what it leaves as it was.
ghost use Rattle.std.specs.Prelude.{◌≡◌, ℕ, ◌+◌, ◌*◌, ◌≤◌, ◌<◌, ◌↔◌, nat_le, IsTrue, List, Some, None, Contains};
ghost use Rattle.std.specs.Prelude.{slice_get};
ghost use Rattle.std.specs.List.{list_all, AllByRecursion};
ghost use Rattle.model.specs.Value.{Value, Asset, SpellsValue};
ghost use Rattle.model.specs.Transaction.{Output, Transaction};
ghost use Rattle.model.specs.Signature.{Verifies};
ghost use Rattle.model.specs.Utxo.{Utxo};
ghost use Rattle.model.specs.Balance.{assets_under};
ghost use Rattle.model.specs.Rules.{SecondEra, Params, in_one_era, era_at, asset_count};
ghost use Rattle.model.specs.Rules.{outputs_reach_minimum, reason_against};
ghost use Rattle.model.specs.Block.{Block};
ghost use Rattle.model.specs.Ledger.{Network, ledger_of, network_in_one_era};

/// Where there is no second era an output holds just `min_utxo` lovelace at least, whatever its assets are.
pub fn one_era()
    ensures { (params : Params) (slot : ℕ) (t : Transaction) → params.second_era ≡ None
        → outputs_reach_minimum (era_at params slot) t ≡ list_all (λ o. nat_le params.min_utxo o.value.coin) t.outputs }
{}

/// Before the second era begins all is as it is without one.
pub fn before_the_second_era()
    // Of a transaction,
    ensures reason { (verifies : Verifies) (params : Params) (second : SecondEra) (utxo : Utxo) (slot : ℕ)
        (t : Transaction) → params.second_era ≡ Some second → slot < second.first_slot
        → reason_against verifies params utxo slot t ≡ reason_against verifies (in_one_era params) utxo slot t }
    // and of a chain.
    ensures ledger { (network : Network) (second : SecondEra) (chain : List Block)
        → network.genesis.params.second_era ≡ Some second
        → AllByRecursion (λ b. b.header.slot < second.first_slot) chain
        → ledger_of network chain ≡ ledger_of (network_in_one_era network) chain }
{}

/// From its first slot on the second era asks each output for `per_asset` more for each of its assets.
pub fn in_the_second_era()
    ensures { (params : Params) (second : SecondEra) (slot : ℕ) (t : Transaction)
        → params.second_era ≡ Some second → second.first_slot ≤ slot
        → IsTrue (outputs_reach_minimum (era_at params slot) t)
        ↔ ((o : Output) → Contains t.outputs o
        → params.min_utxo + second.per_asset * asset_count o ≤ o.value.coin) }
{}

/// No asset of a value that has a text stands at two places among those that are counted.
pub fn assets_counted_once()
    ensures { (value : Value) (bytes : List ℕ) (asset : Asset) (i j : ℕ) → SpellsValue value bytes
        → slice_get (assets_under value.assets) i ≡ Some asset
        → slice_get (assets_under value.assets) j ≡ Some asset → i ≡ j }
{}
