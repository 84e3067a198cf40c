//! Laws of the definitions. A function here does nothing: its contract is the law. What it calls are the laws of which
//! that follows.

ghost use Rattle.std.specs.Prelude.{◌≡◌, IsTrue, ℕ, List};
ghost use Rattle.model.specs.Signature.{test_verifies};
ghost use Rattle.model.specs.Transaction.{Transaction, SpellsTransaction, transaction_id_of};
ghost use Rattle.draft.specs.Draft.{Draft, HasPartsOf, IsTxOfDraft, body_alone, signed_elsewhere};
ghost use Rattle.draft.specs.Signers.{good_signature};

use tx::one_tx_of_parts;
use value::{one_mint_of_parts, one_value_of_parts};

/// The test scheme finds the good signature of a message good, for whichever key.
pub fn good_signature_verifies()
    ensures { (key message : List ℕ) → IsTrue (test_verifies key message (good_signature key message)) }
{}

/// The transactions of a draft, whoever signed them and whatever scripts are supplied, differ in signatures and scripts
/// alone: it has one body, and so one identifier.
pub fn one_body_of_draft()
    ensures { (d : Draft) (a b : Transaction) → HasPartsOf d a → HasPartsOf d b → body_alone a ≡ body_alone b }
{
    one_value_of_parts();
    one_mint_of_parts();
}

/// A transaction that is signed by keys, and one to which the signatures are added that these keys make of its
/// identifier, have one text.
pub fn one_text_signed_elsewhere()
    ensures { (d : Draft) (a b : Transaction) (text other : List ℕ) → IsTxOfDraft d a → SpellsTransaction a text →
        IsTxOfDraft (signed_elsewhere (transaction_id_of a) d) b → SpellsTransaction b other → text ≡ other }
{
    one_body_of_draft();
    one_tx_of_parts();
}
