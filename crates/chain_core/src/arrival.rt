//! What is answered to bytes that arrive.

use crate::refusal::Refusal;
use std::fmt;

/// What is answered to bytes that arrive.
#[derive(Clone, Copy, Debug, PartialEq, Eq)]
pub enum ArriveReply {
    /// The block is kept. Of the selected chain `back` blocks are rolled back and `added` are put on: 0 and 0
    /// where the chain stays.
    Kept { back: u64, added: u64 },
    /// The bytes are refused, and nothing changes.
    Refused(Refusal),
}

impl fmt::Display for ArriveReply {
    ghost use Rattle.std.specs.Prelude.{Some, Ok};
    ghost use Rattle.chain_core.specs.Views.{arrive_reply_of};
    ghost use Rattle.chain_core.specs.Texts.{arrive_reply_text};

    ghost output = { λ reply. Some (arrive_reply_text (arrive_reply_of (Ok reply))) };

    /// Writes `kept back N added N`, or `refused N Name`.
    fn fmt<W: fmt::Write>(&self, f: &mut fmt::Formatter<W>) -> fmt::Result {
        match *self {
            ArriveReply::Kept { back, added } => write!(f, "kept back {back} added {added}"),
            ArriveReply::Refused(refusal) => {
                let number = refusal.number();
                let name = refusal.name();
                write!(f, "refused {number} {name}")
            }
        }
    }
}
