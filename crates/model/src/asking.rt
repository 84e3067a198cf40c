//! Laws of what is asked of a node.
#![tactic(auto)]

ghost use Rattle.std.specs.Prelude.{◌≡◌, ℕ, ◌≤◌, List, Contains};
ghost use Rattle.model.specs.Transaction.{Transaction};
ghost use Rattle.model.specs.Block.{Block};
ghost use Rattle.model.specs.Ledger.{Network};
ghost use Rattle.model.specs.Chain.{immutable_length, IsOpening};
ghost use Rattle.model.specs.History.{State, Entry, IsLegal, live_of};
ghost use Rattle.model.specs.Asked.{HangsOn};
ghost use Rattle.model.specs.Mempool.{SubmitReply, Submits, next_slot};
ghost use Rattle.model.specs.Evaluating.{Evaluation, reply_of, IsEvaluation};

/// No live block goes back to a block of the selected chain behind the immutable tip. So that one goes back too far
/// isn't among the reasons why a block isn't selected: such a block is no longer live, and unknown.
pub fn never_too_far_back()
    ensures { (network : Network) (history : List Entry) (s : State) (b : Block) (keep : ℕ) → IsOpening network
        → IsLegal network history s → Contains (live_of network s) b → HangsOn s keep b
        → immutable_length network s.chain ≤ keep }
{}

/// What is told of a submission beforehand is what it is answered: at the slot after the tip's, bytes that are submitted
/// get the reply that their evaluation has.
pub fn evaluated_as_answered()
    ensures { (network : Network) (s : State) (bytes : List ℕ) (evaluation : Evaluation) (reply : SubmitReply)
        (after : List Transaction) → IsEvaluation network s (next_slot s.chain) bytes evaluation
        → Submits network s.chain s.mempool bytes reply after → reply ≡ reply_of evaluation }
{}
