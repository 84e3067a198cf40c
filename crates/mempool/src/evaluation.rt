//! What a submission would be answered.

ghost use Rattle.std.specs.Prelude.{◌≡◌};
ghost use Rattle.model.specs.Evaluating as model;
ghost use Rattle.mempool.specs.View.{reply_of, evaluation_of};

use crate::reply::SubmitReply;
use utxo_rules::Detail;

/// What bytes would be answered if they were submitted, in the order in which it is looked for: a [`SubmitReply`], with
/// what the reason is about.
#[derive(Debug, PartialEq, Eq, Drop)]
pub enum Evaluation {
    /// The bytes are the text of no transaction.
    Malformed,
    /// The mempool has a transaction of this identifier, whatever signed it.
    Known,
    /// The first reason against it, after those that wait, and what that is about.
    Refused(Detail),
    /// As many transactions wait as may.
    Full,
    /// It would wait, after the others.
    Acceptable,
}

impl Evaluation {
    /// The reply alone.
    pub fn reply(&self) -> SubmitReply
        ensures { reply_of result ≡ model.reply_of (evaluation_of self.now) }
    {
        match self {
            Evaluation::Malformed => SubmitReply::Malformed,
            Evaluation::Known => SubmitReply::Known,
            Evaluation::Refused(detail) => SubmitReply::Refused(detail.reason()),
            Evaluation::Full => SubmitReply::Full,
            Evaluation::Acceptable => SubmitReply::Added,
        }
    }
}
