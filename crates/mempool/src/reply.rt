//! What is answered to a transaction that is submitted.

use std::fmt;
use utxo_rules::Reason;

/// What is answered to bytes that are submitted, in the order in which it is looked for.
#[derive(Clone, Copy, Debug, PartialEq, Eq)]
pub enum SubmitReply {
    /// The bytes are the text of no transaction.
    Malformed,
    /// The mempool has a transaction of this identifier, whatever signed it.
    Known,
    /// The first reason against it, after those that wait.
    Refused(Reason),
    /// As many transactions wait as may.
    Full,
    /// It waits, after the others.
    Added,
}

impl fmt::Display for SubmitReply {
    ghost use Rattle.std.specs.Prelude.{Some};
    ghost use Rattle.mempool.specs.View.{reply_of};
    ghost use Rattle.mempool.specs.Texts.{submit_reply_text};

    ghost output = { λ reply. Some (submit_reply_text (reply_of reply)) };

    /// Writes `malformed`, `known`, `refused N Name`, `full` or `added`.
    fn fmt<W: fmt::Write>(&self, f: &mut fmt::Formatter<W>) -> fmt::Result {
        match *self {
            SubmitReply::Malformed => f.write_str("malformed"),
            SubmitReply::Known => f.write_str("known"),
            SubmitReply::Refused(reason) => {
                let number = reason.number();
                let name = reason.name();
                write!(f, "refused {number} {name}")
            }
            SubmitReply::Full => f.write_str("full"),
            SubmitReply::Added => f.write_str("added"),
        }
    }
}
