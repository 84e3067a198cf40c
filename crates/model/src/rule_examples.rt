//! Worked examples of the rules of a transaction, at slot 1 and for every key and every signature scheme.
ghost use Rattle.std.specs.Prelude.{◌≡◌, ◌≢◌, ℕ, false, IsTrue, IsFalse, List, [], ◌∷◌, length, Some, None};
ghost use Rattle.model.specs.Script.{script_hash_of};
ghost use Rattle.model.specs.Transaction.{KeyWitness, IsKeyWitness, transaction_id_of, size_of};
ghost use Rattle.model.specs.Signature.{Verifies};
ghost use Rattle.model.specs.Utxo.{outputs_of, utxo_after};
ghost use Rattle.model.specs.Rules.{FeeTooSmall, NotBalanced, BadSignature, MissingKeyWitness, MissingScript};
ghost use Rattle.model.specs.Rules.{ExtraScript, ScriptFails, is_in_interval, reason_against};
ghost use Rattle.model.specs.Examples.{between};
ghost use Rattle.model.specs.TransactionExamples.{small_params, coin_alone, output_to, first_utxo, payment};
ghost use Rattle.model.specs.TransactionExamples.{two_halves, always, never, minting, burning, IsFresh, Signs};

/// An interval has its start and not its end.
pub fn slots_of_intervals()
    ensures before_start { IsFalse (is_in_interval 4 (between (Some 5) None)) }
    ensures at_start { IsTrue (is_in_interval 5 (between (Some 5) None)) }
    ensures before_end { IsTrue (is_in_interval 6 (between None (Some 7))) }
    ensures at_end { IsFalse (is_in_interval 7 (between None (Some 7))) }
    ensures open { (slot : ℕ) → IsTrue (is_in_interval slot (between None None)) }
{}

/// 1,200 lovelace are spent: 910 go back to their owner, and 290 are the fee.
pub fn spend_and_fee()
    ensures size { (w : KeyWitness) → IsKeyWitness w → size_of (payment w.key 910 290 (w ∷ [])) ≡ 190 }
    ensures accepted { (verifies : Verifies) (w : KeyWitness) → IsKeyWitness w
        → IsFresh (payment w.key 910 290 (w ∷ [])) → Signs verifies w (payment w.key 910 290 (w ∷ []))
        → reason_against verifies small_params (first_utxo w.key) 1 (payment w.key 910 290 (w ∷ [])) ≡ None }
    // The 910 are then all that is unspent.
    ensures left { (w : KeyWitness)
        → outputs_of (utxo_after (first_utxo w.key) (payment w.key 910 290 (w ∷ [])))
        ≡ output_to w.key (coin_alone 910) ∷ [] }
    // 190 bytes cost 290.
    ensures one_less { (verifies : Verifies) (w : KeyWitness) → IsKeyWitness w
        → reason_against verifies small_params (first_utxo w.key) 1 (payment w.key 911 289 (w ∷ []))
        ≡ Some FeeTooSmall }
    ensures unsigned { (verifies : Verifies) (key : List ℕ) → IsFresh (payment key 910 290 [])
        → reason_against verifies small_params (first_utxo key) 1 (payment key 910 290 []) ≡ Some MissingKeyWitness }
    ensures badly_signed { (verifies : Verifies) (w : KeyWitness) → IsKeyWitness w
        → IsFresh (payment w.key 910 290 (w ∷ []))
        → verifies w.key (transaction_id_of (payment w.key 910 290 (w ∷ []))) w.signature ≡ false
        → reason_against verifies small_params (first_utxo w.key) 1 (payment w.key 910 290 (w ∷ []))
        ≡ Some BadSignature }
{}

/// Twice 2^63 of an asset is not nothing, as it would be in 64 bits.
pub fn asset_sum_past_64_bits()
    ensures { (verifies : Verifies) (w : KeyWitness) (policy : List ℕ) → IsKeyWitness w → length policy ≡ 32
        → reason_against verifies small_params (first_utxo w.key) 1 (two_halves w policy) ≡ Some NotBalanced }
{}

/// 5 of an asset are minted under a script that always holds, and taken away again.
pub fn mint_and_burn()
    ensures minted { (verifies : Verifies) (w : KeyWitness) → IsKeyWitness w → IsFresh (minting w always (always ∷ []))
        → Signs verifies w (minting w always (always ∷ []))
        → reason_against verifies small_params (first_utxo w.key) 1 (minting w always (always ∷ [])) ≡ None }
    // A script that nothing needs is told, and so is one that does not hold.
    ensures another { (verifies : Verifies) (w : KeyWitness) → IsKeyWitness w
        → IsFresh (minting w always (always ∷ never ∷ []))
        → Signs verifies w (minting w always (always ∷ never ∷ []))
        → script_hash_of always ≢ script_hash_of never
        → reason_against verifies small_params (first_utxo w.key) 1 (minting w always (always ∷ never ∷ []))
        ≡ Some ExtraScript }
    ensures fails { (verifies : Verifies) (w : KeyWitness) → IsKeyWitness w → IsFresh (minting w never (never ∷ []))
        → Signs verifies w (minting w never (never ∷ []))
        → reason_against verifies small_params (first_utxo w.key) 1 (minting w never (never ∷ [])) ≡ Some ScriptFails }
    ensures burnt { (verifies : Verifies) (w v : KeyWitness) → IsKeyWitness v → v.key ≡ w.key
        → transaction_id_of (burning (minting w always (always ∷ [])) v (always ∷ []))
        ≢ transaction_id_of (minting w always (always ∷ []))
        → Signs verifies v (burning (minting w always (always ∷ [])) v (always ∷ []))
        → reason_against verifies small_params (utxo_after (first_utxo w.key) (minting w always (always ∷ []))) 1
        (burning (minting w always (always ∷ [])) v (always ∷ [])) ≡ None }
    // What is taken away asks for its script, too.
    ensures without { (verifies : Verifies) (w v : KeyWitness) → IsKeyWitness v → v.key ≡ w.key
        → transaction_id_of (burning (minting w always (always ∷ [])) v [])
        ≢ transaction_id_of (minting w always (always ∷ []))
        → Signs verifies v (burning (minting w always (always ∷ [])) v [])
        → reason_against verifies small_params (utxo_after (first_utxo w.key) (minting w always (always ∷ []))) 1
        (burning (minting w always (always ∷ [])) v []) ≡ Some MissingScript }
{}
