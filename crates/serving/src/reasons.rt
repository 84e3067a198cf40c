//! The words in which refusals are told.

ghost use Rattle.std.specs.Prelude.{◌≡◌};
ghost use Rattle.utxo_rules.specs.View.{reason_of};
ghost use Rattle.ledger.specs.View.{fault_of};
ghost use Rattle.serving.specs.Reasons.{reason_sentence, reason_words, fault_words, words_of};

use conversing::Reason;
use ledger::BlockFault;
use utxo_rules::Reason as TxReason;

/// The sentence of a reason against a transaction.
fn sentence_of(reason: TxReason) -> &'static str
    ensures { result.now ≡ reason_sentence (reason_of reason) }
{
    match reason {
        TxReason::OutsideInterval => "the slot is outside the transaction's interval",
        TxReason::NoInputs => "no inputs",
        TxReason::TooBig => "too many bytes",
        TxReason::FeeTooSmall => "the fee is too small",
        TxReason::MissingInput => "an input is not unspent",
        TxReason::OutputTooSmall => "an output holds too little",
        TxReason::WrongNetwork => "an output is of another network",
        TxReason::NotBalanced => "not as much is consumed as is produced",
        TxReason::OutputExists => "an output stands where a new one would",
        TxReason::BadSignature => "a signature is not good",
        TxReason::MissingKeyWitness => "a key that has to sign did not",
        TxReason::MissingScript => "a script that is needed is not supplied",
        TxReason::ExtraScript => "a script is supplied that is not needed",
        TxReason::ScriptFails => "a script does not hold",
    }
}

/// The words of a reason against a transaction.
pub fn told_reason(reason: TxReason) -> Reason<'static>
    ensures { words_of result ≡ reason_words (reason_of reason) }
{
    Reason {
        number: u64::from(reason.number()),
        name: reason.name(),
        sentence: sentence_of(reason),
    }
}

/// The words of what is said against a block.
pub fn told_fault(fault: BlockFault) -> Reason<'static>
    ensures { words_of result ≡ fault_words (fault_of fault) }
{
    match fault {
        BlockFault::WrongNumber => Reason {
            number: 1,
            name: "WrongNumber",
            sentence: "the number is not the next one",
        },
        BlockFault::WrongPrev => Reason {
            number: 2,
            name: "WrongPrev",
            sentence: "another block stands before it",
        },
        BlockFault::SlotNotRising => Reason {
            number: 3,
            name: "SlotNotRising",
            sentence: "the slot is not after the tip's",
        },
        BlockFault::BodyTooBig => Reason {
            number: 4,
            name: "BodyTooBig",
            sentence: "the body is too big",
        },
        BlockFault::TxFault(_index, reason) => told_reason(reason),
    }
}
