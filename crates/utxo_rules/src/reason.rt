//! What may be said against a transaction.

ghost use Rattle.std.specs.Prelude.{◌≡◌};
ghost use Rattle.model.specs.Rules.{reason_number};
ghost use Rattle.utxo_rules.specs.View.{reason_of};
ghost use Rattle.utxo_rules.specs.Texts.{reason_name};

use thiserror::Error;

/// What may be said against a transaction, in the order in which it is looked for (Shelley and Shelley-MA, UTXO and
/// UTXOW; the order and `OutputExists` are this project's own).
#[derive(Clone, Copy, Debug, PartialEq, Eq, Error)]
pub enum Reason {
    /// The slot lies before the transaction's start, or not before its end.
    #[error("the slot is outside the transaction's interval")]
    OutsideInterval,
    /// It spends nothing.
    #[error("no inputs")]
    NoInputs,
    /// It has more bytes than a transaction may have.
    #[error("too many bytes")]
    TooBig,
    /// It pays less than the least fee for its size.
    #[error("the fee is too small")]
    FeeTooSmall,
    /// An input spends what isn't there.
    #[error("an input is not unspent")]
    MissingInput,
    /// An output holds less lovelace than it must.
    #[error("an output holds too little")]
    OutputTooSmall,
    /// An output's address is of another network.
    #[error("an output is of another network")]
    WrongNetwork,
    /// Of ada or of an asset not as much is consumed as is produced.
    #[error("not as much is consumed as is produced")]
    NotBalanced,
    /// An output stands already where one of its own would stand.
    #[error("an output stands where a new one would")]
    OutputExists,
    /// A signature isn't good for its key over the transaction's identifier.
    #[error("a signature is not good")]
    BadSignature,
    /// A key that locks an output spent did not sign.
    #[error("a key that has to sign did not")]
    MissingKeyWitness,
    /// A script that locks an output spent, or that governs what is minted, isn't supplied.
    #[error("a script that is needed is not supplied")]
    MissingScript,
    /// A script is supplied that nothing needs.
    #[error("a script is supplied that is not needed")]
    ExtraScript,
    /// A script that is supplied does not hold.
    #[error("a script does not hold")]
    ScriptFails,
}

impl Reason {
    /// The number of the reason, 1 to 14: its place in the order.
    pub fn number(self) -> u8
        ensures { result ≡ reason_number (reason_of self) }
    {
        match self {
            Reason::OutsideInterval => 1,
            Reason::NoInputs => 2,
            Reason::TooBig => 3,
            Reason::FeeTooSmall => 4,
            Reason::MissingInput => 5,
            Reason::OutputTooSmall => 6,
            Reason::WrongNetwork => 7,
            Reason::NotBalanced => 8,
            Reason::OutputExists => 9,
            Reason::BadSignature => 10,
            Reason::MissingKeyWitness => 11,
            Reason::MissingScript => 12,
            Reason::ExtraScript => 13,
            Reason::ScriptFails => 14,
        }
    }

    /// The name of the reason, as it stands here.
    pub fn name(self) -> &'static str
        ensures { result.now ≡ reason_name (reason_of self) }
    {
        match self {
            Reason::OutsideInterval => "OutsideInterval",
            Reason::NoInputs => "NoInputs",
            Reason::TooBig => "TooBig",
            Reason::FeeTooSmall => "FeeTooSmall",
            Reason::MissingInput => "MissingInput",
            Reason::OutputTooSmall => "OutputTooSmall",
            Reason::WrongNetwork => "WrongNetwork",
            Reason::NotBalanced => "NotBalanced",
            Reason::OutputExists => "OutputExists",
            Reason::BadSignature => "BadSignature",
            Reason::MissingKeyWitness => "MissingKeyWitness",
            Reason::MissingScript => "MissingScript",
            Reason::ExtraScript => "ExtraScript",
            Reason::ScriptFails => "ScriptFails",
        }
    }
}
