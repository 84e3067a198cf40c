//! What is told of transactions that are handed in, and of blocks that are forged.

ghost use Rattle.std.specs.Prelude.{◌≡◌, IfOk, MatchOption, OnErr, option_map};
ghost use Rattle.model.specs.Forging.{SlotNotAfterTip, OutOfRange};
ghost use Rattle.utxo_rules.specs.DetailView.{detail_of};
ghost use Rattle.mempool.specs.View.{reply_of};
ghost use Rattle.conversing.specs.RequestView.{id_view};
ghost use Rattle.shared.specs.Starts.{network_from};
ghost use Rattle.serving.specs.Lanes.{HasLooked};
ghost use Rattle.serving.specs.Replies.{Replies};
ghost use Rattle.serving.specs.Reasons.{words_of};
ghost use Rattle.serving.specs.Submitting.{malformed_words, known_words, full_words, forge_words};
ghost use Rattle.serving.specs.Submitting.{IsNoTransaction, HasId, IsAnswerTold, TellsSubmission, WasSubmitted};
ghost use Rattle.serving.specs.Submitting.{IsDetailTold, TellsEvaluation, WasEvaluated, TellsForging};

use crate::node::Node;
use crate::pending_reply::PendingReply;
use crate::reasons::told_reason;
use cbor::CborFault;
use chain_core::ForgeFault;
use conversing::{Found, Outcome, Reason, ToldBlock};
use ident::TxId;
use mempool::SubmitReply;
use shared::{Caller, Room};
use std::alloc::{AllocError, Global};
use std::sync::Wait;
use tx::Tx;
use utxo_rules::Detail;
use witness_pool::SigScheme;

/// What is told of bytes that are no transaction.
fn malformed() -> Reason<'static>
    ensures { words_of result ≡ malformed_words }
{
    Reason {
        number: 101,
        name: "Malformed",
        sentence: "the bytes are no transaction",
    }
}

/// What is told of a transaction that waits already.
fn known() -> Reason<'static>
    ensures { words_of result ≡ known_words }
{
    Reason {
        number: 102,
        name: "Known",
        sentence: "the transaction waits already",
    }
}

/// What is told where as many transactions wait as may.
fn full() -> Reason<'static>
    ensures { words_of result ≡ full_words }
{
    Reason {
        number: 103,
        name: "Full",
        sentence: "as many transactions wait as may",
    }
}

/// What is told where the slot comes too early for a block.
fn not_after_tip() -> Reason<'static>
    ensures { words_of result ≡ forge_words SlotNotAfterTip }
{
    Reason {
        number: 1,
        name: "SlotNotAfterTip",
        sentence: "the slot isn't after the tip's",
    }
}

/// What is told where a block could have no number or slot.
fn out_of_range() -> Reason<'static>
    ensures { words_of result ≡ forge_words OutOfRange }
{
    Reason {
        number: 2,
        name: "OutOfRange",
        sentence: "the slot or the block's number is 2^63 or more",
    }
}

/// The identifier of the transaction that these bytes are, None where they are none. Reads it, and hashes its body.
fn id_in(alloc: Global, bytes: &[u8]) -> Result<Option<TxId>, AllocError>
    ensures { IfOk result (λ id. MatchOption id (IsNoTransaction bytes.now) (λ id. HasId bytes.now id.bytes)) }
{
    match Tx::decode(alloc, bytes) {
        Ok(tx) => Ok(Some(tx.id())),
        Err(CborFault::Malformed) => Ok(None),
        Err(CborFault::OutOfMemory) => Err(AllocError),
    }
}

/// What tells the answer to a submission of the transaction of this identifier.
fn submitted(bytes: &[u8], id: TxId, answer: SubmitReply) -> Outcome<'static>
    requires { HasId bytes.now id.bytes }
    ensures { IsAnswerTold bytes.now (reply_of answer) result }
{
    match answer {
        SubmitReply::Added => Outcome::Accepted(id.bytes),
        SubmitReply::Malformed => Outcome::NotAccepted(malformed()),
        SubmitReply::Known => Outcome::NotAccepted(known()),
        SubmitReply::Refused(reason) => Outcome::NotAccepted(told_reason(reason)),
        SubmitReply::Full => Outcome::NotAccepted(full()),
    }
}

/// The reply to `evaluate` where a reason against the transaction was found.
fn tell_reason(alloc: Global, detail: &Detail, reply: PendingReply) -> Vec<u8>
    ensures { Replies (id_view reply.id) (IsDetailTold (Some (detail_of detail.now))) (Unit {0}) result.items }
{
    let reason = detail.reason();
    match detail.to_string(alloc) {
        Ok(sentence) => {
            let told = Reason {
                number: u64::from(reason.number()),
                name: reason.name(),
                sentence: sentence.as_str(),
            };
            reply.tell(&Outcome::Answered(Found::Unacceptable(told)))
        }
        Err(AllocError) => reply.fail(),
    }
}

/// The reply to `evaluate` where a reason against the transaction was found, or none.
fn tell_detail(alloc: Global, detail: Option<Detail>, reply: PendingReply) -> Vec<u8>
    ensures { Replies (id_view reply.id) (IsDetailTold (option_map detail_of detail)) (Unit {0}) result.items }
{
    match detail {
        Some(detail) => tell_reason(alloc, &detail, reply),
        None => reply.tell(&Outcome::Answered(Found::Acceptable)),
    }
}

impl<S: SigScheme, B: Room, R: Wait> Node<'_, S, B, R> {
    /// The reply to `submitTransaction`. What the reply needs is read before the call is made. Err where memory runs
    /// out before the transaction was taken or refused, and then nothing changes.
    pub fn tell_submission(
        &self,
        caller: &mut Caller<B>,
        bytes: &[u8],
        reply: PendingReply,
    ) -> Result<Vec<u8>, AllocError>
        ensures ok { IfOk result (λ line. let network = network_from B.start S.verifies in Replies (id_view reply.id)
            (TellsSubmission network bytes.now caller.old caller.new)
            (WasSubmitted network bytes.now caller.old caller.new) line.items) }
        ensures err { OnErr result (caller.new ≡ caller.old) }
    {
        let found = id_in(self.alloc, bytes)?;
        match found {
            Some(id) => {
                let answer = self.shared.submit(self.rt, caller, bytes)?;
                let outcome = submitted(bytes, id, answer);
                Ok(reply.tell(&outcome))
            }
            None => Ok(reply.tell(&Outcome::NotAccepted(malformed()))),
        }
    }

    /// The reply to `evaluate`. Err where memory runs out before it was known, and then nothing changes.
    pub fn tell_evaluation(
        &self,
        caller: &mut Caller<B>,
        bytes: &[u8],
        reply: PendingReply,
    ) -> Result<Vec<u8>, AllocError>
        ensures ok { IfOk result (λ line. let network = network_from B.start S.verifies in Replies (id_view reply.id)
            (TellsEvaluation network bytes.now caller.old caller.new) (WasEvaluated network caller.old caller.new)
            line.items) }
        ensures err { OnErr result (caller.new ≡ caller.old) }
    {
        let found = id_in(self.alloc, bytes)?;
        match found {
            Some(_id) => {
                let detail = self.shared.explain_submission(self.rt, caller, bytes)?;
                Ok(tell_detail(self.alloc, detail, reply))
            }
            None => Ok(reply.tell(&Outcome::Answered(Found::Unacceptable(malformed())))),
        }
    }

    /// The reply to `forge`.
    pub fn tell_forging(&self, caller: &mut Caller<B>, slot: u64, reply: PendingReply) -> Vec<u8>
        ensures { let network = network_from B.start S.verifies in Replies (id_view reply.id)
            (TellsForging network slot caller.old caller.new) (HasLooked network caller.old caller.new) result.items }
    {
        match self.shared.forge(self.rt, caller, slot) {
            Ok(forged) => {
                let hash = forged.point.hash.bytes;
                let told = ToldBlock {
                    number: forged.point.number,
                    slot,
                    hash,
                    bytes: &forged.bytes,
                };
                reply.tell(&Outcome::Forged(told))
            }
            Err(ForgeFault::SlotNotAfterTip) => reply.tell(&Outcome::NotForged(not_after_tip())),
            Err(ForgeFault::OutOfRange) => reply.tell(&Outcome::NotForged(out_of_range())),
            Err(ForgeFault::OutOfMemory) => reply.fail(),
        }
    }
}
