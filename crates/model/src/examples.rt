//! Worked examples of texts, in hexadecimal bytes.
ghost use Rattle.std.specs.Prelude.{◌≡◌, ℕ, ◌<◌, List, [], ◌∷◌, ◌++◌, length, replicate, Some, None};
ghost use Rattle.std.specs.List.{AllByRecursion};
ghost use Rattle.model.specs.Cbor.{Item, Unsigned, Negative, Null, text_of, Spells};
ghost use Rattle.model.specs.Script.{Script, Scripts, RequireAllOf, RequireAnyOf, RequireMOf, RequireTimeStart};
ghost use Rattle.model.specs.Script.{RequireTimeExpire, NoScripts, SpellsScript, Holds};
ghost use Rattle.model.specs.Block.{item_of_header, block_text, SpellsBlock};
ghost use Rattle.model.specs.Examples.{small_map, nested, nested_script, nested_script_text, first_header};
ghost use Rattle.model.specs.Examples.{later_header, between};
ghost use Rattle.model.specs.Block.{empty_block};

/// Numbers and null.
pub fn texts_of_numbers()
    ensures zero { Spells (Unsigned 0) (0x00 ∷ []) }
    ensures one_byte_more { Spells (Unsigned 24) (0x18 ∷ 0x18 ∷ []) }
    ensures two_bytes_more { Spells (Unsigned 256) (0x19 ∷ 0x01 ∷ 0x00 ∷ []) }
    ensures minus_1000 { Spells (Negative 999) (0x39 ∷ 0x03 ∷ 0xe7 ∷ []) }
    ensures null { Spells Null (0xf6 ∷ []) }
{}

/// Bytes that are the text of no item: heads longer than they need be, an unknown simple value, no bytes.
pub fn no_texts()
    ensures long_23 { (item : Item) → Spells item (0x18 ∷ 0x17 ∷ []) → ⊥ }
    ensures long_255 { (item : Item) → Spells item (0x19 ∷ 0x00 ∷ 0xff ∷ []) → ⊥ }
    ensures undefined { (item : Item) → Spells item (0xf7 ∷ []) → ⊥ }
    ensures nothing { (item : Item) → Spells item [] → ⊥ }
{}

/// The keys of a map rise.
pub fn texts_of_maps()
    ensures rising { Spells (small_map 0 1 1 2) (0xa2 ∷ 0x00 ∷ 0x01 ∷ 0x01 ∷ 0x02 ∷ []) }
    ensures falling { (item : Item) → Spells item (0xa2 ∷ 0x01 ∷ 0x02 ∷ 0x00 ∷ 0x01 ∷ []) → ⊥ }
    ensures equal { (item : Item) → Spells item (0xa2 ∷ 0x00 ∷ 0x01 ∷ 0x00 ∷ 0x02 ∷ []) → ⊥ }
{}

/// Items nest 64 deep, and not 65.
pub fn texts_of_nested_items()
    ensures deepest { Spells (nested 63) (replicate 63 0x81 ++ 0x80 ∷ []) }
    ensures too_deep { (item : Item) → Spells item (replicate 64 0x81 ++ 0x80 ∷ []) → ⊥ }
{}

/// A script of a time, and scripts in scripts, whose items nest 64 deep, and not 66.
pub fn texts_of_scripts()
    ensures starts_at_24 { SpellsScript (RequireTimeStart 24) (0x82 ∷ 0x04 ∷ 0x18 ∷ 0x18 ∷ []) }
    ensures long_23 { (script : Script) → SpellsScript script (0x82 ∷ 0x04 ∷ 0x18 ∷ 0x17 ∷ []) → ⊥ }
    ensures deepest { SpellsScript (nested_script 31) (nested_script_text 31) }
    ensures too_deep { (script : Script) → SpellsScript script (nested_script_text 32) → ⊥ }
{}

/// With no signature, all and any number at least 0 of no scripts hold; one of none, and 1 of none, do not.
pub fn scripts_that_count()
    ensures all { Holds (RequireAllOf NoScripts) [] (between None None) }
    ensures any { Holds (RequireAnyOf NoScripts) [] (between None None) → ⊥ }
    ensures at_least_0 { Holds (RequireMOf 0 NoScripts) [] (between None None) }
    ensures at_least_1 { Holds (RequireMOf 1 NoScripts) [] (between None None) → ⊥ }
{}

/// Time locks ask the interval, and an interval that is open on their side does not hold.
pub fn scripts_of_times()
    ensures no_start { Holds (RequireTimeStart 5) [] (between None None) → ⊥ }
    ensures start_4 { Holds (RequireTimeStart 5) [] (between (Some 4) None) → ⊥ }
    ensures start_5 { Holds (RequireTimeStart 5) [] (between (Some 5) None) }
    ensures no_end { Holds (RequireTimeExpire 10) [] (between None None) → ⊥ }
    ensures end_10 { Holds (RequireTimeExpire 10) [] (between None (Some 10)) }
    ensures end_11 { Holds (RequireTimeExpire 10) [] (between None (Some 11)) → ⊥ }
{}

/// The header of a first block, and the block without transactions.
pub fn texts_of_first_blocks()
    ensures header { (hash : List ℕ) → length hash ≡ 32
        → text_of (item_of_header (first_header hash)) ≡ 0x84 ∷ 0x01 ∷ 0x01 ∷ 0xf6 ∷ 0x58 ∷ 0x20 ∷ hash }
    ensures block { (hash : List ℕ) → length hash ≡ 32 → AllByRecursion (λ b. b < 256) hash
        → SpellsBlock (empty_block (first_header hash)) (0x82 ∷ 0x84 ∷ 0x01 ∷ 0x01 ∷ 0xf6 ∷ 0x58 ∷ 0x20 ∷ (hash
        ++ 0x80 ∷ [])) }
    ensures bytes { (hash : List ℕ) → length hash ≡ 32 → length (block_text (empty_block (first_header hash))) ≡ 40 }
{}

/// How long a header is that names a block before it, and its block without transactions.
pub fn lengths_of_later_blocks()
    ensures header { (number slot : ℕ) (previous body_hash : List ℕ) → number < 24 → slot < 24 → length previous ≡ 32
        → length body_hash ≡ 32
        → length (text_of (item_of_header (later_header number slot previous body_hash))) ≡ 71 }
    ensures block { (number slot : ℕ) (previous body_hash : List ℕ) → number < 24 → slot < 24 → length previous ≡ 32
        → length body_hash ≡ 32
        → length (block_text (empty_block (later_header number slot previous body_hash))) ≡ 73 }
{}
