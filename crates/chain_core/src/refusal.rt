//! Why bytes are refused.

ghost use Rattle.std.specs.Prelude.{◌≡◌};
ghost use Rattle.model.specs.History as history;
ghost use Rattle.chain_core.specs.Views.{refusal_of, bad_refusal};
ghost use Rattle.chain_core.specs.Texts as texts;

use block::BadBytes;
use std::fmt;

/// Why bytes are refused. The first reason that applies, in this order, is the one that is told.
#[derive(Clone, Copy, Debug, PartialEq, Eq)]
pub enum Refusal {
    /// There are more than 1,048,576 bytes.
    TooLarge,
    /// The bytes are the text of no block.
    Malformed,
    /// The header's body hash isn't that of the body.
    BodyHashMismatch,
    /// The block's number is at most that of the immutable tip.
    TooOld,
    /// A live block has the same bytes.
    Known,
    /// A live block or one of the selected chain has the same hash and other bytes.
    Clash,
    /// There are as many live blocks as are kept.
    VolatileFull,
}

impl Refusal {
    /// The number of the reason, 1 to 7, in the order in which reasons are looked for.
    pub fn number(self) -> u64
        ensures { result ≡ history.refusal_number (refusal_of self) }
    {
        match self {
            Refusal::TooLarge => 1,
            Refusal::Malformed => 2,
            Refusal::BodyHashMismatch => 3,
            Refusal::TooOld => 4,
            Refusal::Known => 5,
            Refusal::Clash => 6,
            Refusal::VolatileFull => 7,
        }
    }

    /// The name of the reason, as it stands here.
    pub fn name(self) -> &'static str
        ensures { result.now ≡ texts.refusal_name (refusal_of self) }
    {
        match self {
            Refusal::TooLarge => "TooLarge",
            Refusal::Malformed => "Malformed",
            Refusal::BodyHashMismatch => "BodyHashMismatch",
            Refusal::TooOld => "TooOld",
            Refusal::Known => "Known",
            Refusal::Clash => "Clash",
            Refusal::VolatileFull => "VolatileFull",
        }
    }
}

impl From<BadBytes> for Refusal {
    ghost from_gives = { λ bad refusal. refusal ≡ bad_refusal bad };

    fn from(bad: BadBytes) -> Refusal {
        match bad {
            BadBytes::TooLarge => Refusal::TooLarge,
            BadBytes::Malformed => Refusal::Malformed,
            BadBytes::BodyHashMismatch => Refusal::BodyHashMismatch,
        }
    }
}

impl fmt::Display for Refusal {
    ghost use Rattle.std.specs.Prelude.{Some};
    ghost use Rattle.chain_core.specs.Views.{refusal_of};
    ghost use Rattle.chain_core.specs.Texts.{refusal_name};

    ghost output = { λ refusal. Some (refusal_name (refusal_of refusal)) };

    /// Writes the name.
    fn fmt<W: fmt::Write>(&self, f: &mut fmt::Formatter<W>) -> fmt::Result {
        f.write_str(self.name())
    }
}
