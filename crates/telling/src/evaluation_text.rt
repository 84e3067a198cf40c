//! The words in which it is told what a submission of a transaction would be answered.

ghost use Rattle.std.specs.Prelude.{◌≡◌, ◌++◌, OnOk};
ghost use Rattle.mempool.specs.View.{evaluation_of};
ghost use Rattle.utxo_rules.specs.View.{reason_of};
ghost use Rattle.utxo_rules.specs.DetailView.{detail_of};
ghost use Rattle.telling.specs.Verdicts.{evaluation_text, reason_line, detail_line};

use mempool::Evaluation;
use std::alloc::AllocError;
use std::io::Write;
use utxo_rules::{Detail, Reason};

/// Appends a line with the number and the name of a reason.
fn put_reason(line: &mut Vec<u8>, reason: Reason) -> Result<(), AllocError>
    ensures { OnOk result (line.new.items ≡ line.old.items ++ reason_line (reason_of reason)) }
{
    let number = reason.number();
    let name = reason.name();
    match write!(line, "{number} {name}\n") {
        Ok(()) => Ok(()),
        Err(_) => Err(AllocError),
    }
}

/// Appends a line that tells what it is about.
fn put_detail(line: &mut Vec<u8>, detail: &Detail) -> Result<(), AllocError>
    ensures { OnOk result (line.new.items ≡ line.old.items ++ detail_line (detail_of detail.now)) }
{
    match write!(line, "# {detail}\n") {
        Ok(()) => Ok(()),
        Err(_) => Err(AllocError),
    }
}

/// Appends the words in which an evaluation is told.
pub fn put_evaluation(line: &mut Vec<u8>, evaluation: &Evaluation) -> Result<(), AllocError>
    ensures { OnOk result (line.new.items ≡ line.old.items ++ evaluation_text (evaluation_of evaluation.now)) }
{
    match evaluation {
        Evaluation::Malformed => line.extend_from_slice(b"malformed\n"),
        Evaluation::Known => line.extend_from_slice(b"known\n"),
        Evaluation::Refused(detail) => {
            put_reason(line, detail.reason())?;
            put_detail(line, detail)
        }
        Evaluation::Full => line.extend_from_slice(b"full\n"),
        Evaluation::Acceptable => line.extend_from_slice(b"valid\n"),
    }
}
