//! What a reason against a transaction is about.

ghost use Rattle.std.specs.Prelude.{◌≡◌};
ghost use Rattle.model.specs.Explaining.{reason_of_detail};
ghost use Rattle.utxo_rules.specs.View.{reason_of};
ghost use Rattle.utxo_rules.specs.DetailView.{detail_of};

use crate::reason::Reason;
use crate::showing::{Name, Span};
use ident::{Hex, KeyHash, ScriptHash};
use std::error::Error;
use std::fmt;
use tx::Input;

/// An asset other than ada.
#[derive(Debug, PartialEq, Eq, Drop)]
pub struct AssetId {
    /// The hash of the policy's script.
    pub policy: ScriptHash,
    /// The asset name, 0 to 32 bytes.
    pub name: Vec<u8>,
}

/// A reason against a transaction with the first thing that it is about, so that whoever made the transaction knows
/// what to change. Outputs are counted from 0 on.
#[derive(Debug, PartialEq, Eq, Drop)]
pub enum Detail {
    /// The slot lies before the transaction's start, or not before its end.
    OutsideInterval {
        slot: u64,
        start: Option<u64>,
        end: Option<u64>,
    },
    /// It spends nothing.
    NoInputs,
    /// It has more bytes than a transaction may have.
    TooBig {
        size: u64,
        most: u32,
    },
    /// It pays less than the least fee for its size, in lovelace.
    FeeTooSmall {
        fee: u64,
        least: u128,
    },
    /// The first input that spends what isn't there.
    MissingInput(Input),
    /// The first output that holds less lovelace than it must.
    OutputTooSmall {
        index: usize,
        coin: u64,
        least: u128,
    },
    /// The first output whose address is of another network.
    WrongNetwork {
        index: usize,
    },
    /// The first asset of which not as much is consumed as is produced: None for ada, which comes first. The others
    /// follow as in the text of a value, by policy, then shorter names first, then by their bytes.
    NotBalanced {
        asset: Option<AssetId>,
        consumed: i128,
        produced: i128,
    },
    /// The first output in whose place another one stands already.
    OutputExists {
        index: usize,
    },
    /// The key of the first signature that isn't good.
    BadSignature {
        key: [u8; 32],
    },
    /// The hash of the first key that locks an output spent and did not sign.
    MissingKeyWitness(KeyHash),
    /// The hash of the first script that is needed and isn't supplied.
    MissingScript(ScriptHash),
    /// The hash of the first script that is supplied and that nothing needs.
    ExtraScript(ScriptHash),
    /// The hash of the first script that is supplied and does not hold.
    ScriptFails(ScriptHash),
}

impl Detail {
    /// The reason alone.
    pub fn reason(&self) -> Reason
        ensures { reason_of result ≡ reason_of_detail (detail_of self.now) }
    {
        match self {
            Detail::OutsideInterval { .. } => Reason::OutsideInterval,
            Detail::NoInputs => Reason::NoInputs,
            Detail::TooBig { .. } => Reason::TooBig,
            Detail::FeeTooSmall { .. } => Reason::FeeTooSmall,
            Detail::MissingInput(_) => Reason::MissingInput,
            Detail::OutputTooSmall { .. } => Reason::OutputTooSmall,
            Detail::WrongNetwork { .. } => Reason::WrongNetwork,
            Detail::NotBalanced { .. } => Reason::NotBalanced,
            Detail::OutputExists { .. } => Reason::OutputExists,
            Detail::BadSignature { .. } => Reason::BadSignature,
            Detail::MissingKeyWitness(_) => Reason::MissingKeyWitness,
            Detail::MissingScript(_) => Reason::MissingScript,
            Detail::ExtraScript(_) => Reason::ExtraScript,
            Detail::ScriptFails(_) => Reason::ScriptFails,
        }
    }
}

impl fmt::Display for Detail {
    ghost use Rattle.std.specs.Prelude.{Some};
    ghost use Rattle.utxo_rules.specs.DetailView.{detail_of};
    ghost use Rattle.utxo_rules.specs.Sentences.{detail_text};

    ghost output = { λ detail. Some (detail_text (detail_of detail)) };

    /// Writes the detail as a sentence, with neither a capital nor a full stop.
    fn fmt<W: fmt::Write>(&self, f: &mut fmt::Formatter<W>) -> fmt::Result {
        match self {
            Detail::OutsideInterval { slot, start, end } => {
                let span = Span {
                    start: *start,
                    end: *end,
                };
                write!(
                    f,
                    "slot {slot} is outside the transaction's interval, {span}"
                )
            }
            Detail::NoInputs => f.write_str("no inputs"),
            Detail::TooBig { size, most } => write!(f, "{size} bytes, where there may be {most}"),
            Detail::FeeTooSmall { fee, least } => {
                write!(f, "the fee is {fee}, where the least is {least}")
            }
            Detail::MissingInput(input) => {
                let index = input.index;
                let id = input.transaction;
                write!(f, "output {index} of transaction {id} is not unspent")
            }
            Detail::OutputTooSmall { index, coin, least } => {
                write!(f, "output {index} holds {coin}, where the least is {least}")
            }
            Detail::WrongNetwork { index } => write!(f, "output {index} is of another network"),
            Detail::NotBalanced {
                asset,
                consumed,
                produced,
            } => {
                let name = Name { asset };
                write!(
                    f,
                    "of {name} {consumed} are consumed and {produced} are produced"
                )
            }
            Detail::OutputExists { index } => {
                write!(f, "an output stands where output {index} would")
            }
            Detail::BadSignature { key } => {
                let key = Hex(key.as_slice());
                write!(f, "the signature by key {key} is not good")
            }
            Detail::MissingKeyWitness(hash) => write!(f, "key {hash} has to sign and did not"),
            Detail::MissingScript(hash) => write!(f, "script {hash} is needed and not supplied"),
            Detail::ExtraScript(hash) => write!(f, "script {hash} is supplied and not needed"),
            Detail::ScriptFails(hash) => write!(f, "script {hash} does not hold"),
        }
    }
}

impl Error for Detail {}
