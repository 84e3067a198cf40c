//! Laws of making: a value or a mint is determined by its parts. A function here has no body: its contract is the law.

ghost use Rattle.std.specs.Prelude.{◌≡◌, ℕ, ℤ, List};
ghost use Rattle.model.specs.Cbor.{HasText};
ghost use Rattle.model.specs.Value.{Value, Mint, IsValue, IsMint, item_of_value, item_of_number, item_of_assets};
ghost use Rattle.value.specs.Parts.{AssetQuantity, IsValueOf, IsMintOf};

/// Of the same coin and the same assets, in whatever order they are told, there is at most one value with a text.
pub fn one_value_of_parts()
    ensures { (a b : Value) (coin : ℕ) (assets : List (AssetQuantity ℕ)) → IsValue a → HasText (item_of_value a) →
        IsValue b → HasText (item_of_value b) → IsValueOf a coin assets → IsValueOf b coin assets → a ≡ b }
{}

/// Of the same assets, in whatever order they are told, there is at most one mint with a text.
pub fn one_mint_of_parts()
    ensures { (a b : Mint) (assets : List (AssetQuantity ℤ)) → IsMint a → HasText (item_of_assets item_of_number a) →
        IsMint b → HasText (item_of_assets item_of_number b) → IsMintOf a assets → IsMintOf b assets → a ≡ b }
{}
