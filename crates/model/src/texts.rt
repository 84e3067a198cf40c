//! Laws of texts: each value has one, and none begins another's.
ghost use Rattle.std.specs.Prelude.{◌≡◌, ℕ, List, ◌++◌};
ghost use Rattle.model.specs.Cbor.{Item, text_of, HasText, Spells};
ghost use Rattle.model.specs.Value.{Value, Mint, SpellsValue, SpellsMint};
ghost use Rattle.model.specs.Script.{Script, SpellsScript};
ghost use Rattle.model.specs.Transaction.{Transaction, SpellsTransaction};
ghost use Rattle.model.specs.Block.{Block, SpellsBlock};

/// Bytes are the text of at most one item, and no item's text begins another's.
pub fn one_text_of_items()
    ensures one { (a b : Item) (bytes : List ℕ) → Spells a bytes → Spells b bytes → a ≡ b }
    ensures apart { (a b : Item) (x y : List ℕ) → HasText a → HasText b → text_of a ++ x ≡ text_of b ++ y → (a ≡ b)
        × (x ≡ y) }
{}

/// Bytes are the text of at most one value, and no value's text begins another's.
pub fn one_text_of_values()
    ensures one { (a b : Value) (bytes : List ℕ) → SpellsValue a bytes → SpellsValue b bytes → a ≡ b }
    ensures apart { (a b : Value) (s t x y : List ℕ) → SpellsValue a s → SpellsValue b t → s ++ x ≡ t ++ y → (a ≡ b)
        × (x ≡ y) }
{}

/// Bytes are the text of at most one mint, and no mint's text begins another's.
pub fn one_text_of_mints()
    ensures one { (a b : Mint) (bytes : List ℕ) → SpellsMint a bytes → SpellsMint b bytes → a ≡ b }
    ensures apart { (a b : Mint) (s t x y : List ℕ) → SpellsMint a s → SpellsMint b t → s ++ x ≡ t ++ y → (a ≡ b)
        × (x ≡ y) }
{}

/// Bytes are the text of at most one script, and no script's text begins another's.
pub fn one_text_of_scripts()
    ensures one { (a b : Script) (bytes : List ℕ) → SpellsScript a bytes → SpellsScript b bytes → a ≡ b }
    ensures apart { (a b : Script) (s t x y : List ℕ) → SpellsScript a s → SpellsScript b t → s ++ x ≡ t ++ y → (a ≡ b)
        × (x ≡ y) }
{}

/// Bytes are the text of at most one transaction, and no transaction's text begins another's.
pub fn one_text_of_transactions()
    ensures one { (a b : Transaction) (bytes : List ℕ) → SpellsTransaction a bytes → SpellsTransaction b bytes → a ≡ b }
    ensures apart { (a b : Transaction) (s t x y : List ℕ) → SpellsTransaction a s → SpellsTransaction b t → s ++ x ≡ t
        ++ y → (a ≡ b) × (x ≡ y) }
{}

/// Bytes are the text of at most one block, and no block's text begins another's.
pub fn one_text_of_blocks()
    ensures one { (a b : Block) (bytes : List ℕ) → SpellsBlock a bytes → SpellsBlock b bytes → a ≡ b }
    ensures apart { (a b : Block) (s t x y : List ℕ) → SpellsBlock a s → SpellsBlock b t → s ++ x ≡ t ++ y → (a ≡ b)
        × (x ≡ y) }
{}
