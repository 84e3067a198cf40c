//! Whether a transaction is valid.

ghost use Rattle.std.specs.Prelude.{◌≡◌, ◌≢◌, IfOk, IfErr};
ghost use Rattle.model.specs.History.{State};
ghost use Rattle.mempool.specs.View.{evaluation_of};
ghost use Rattle.chain_core.specs.Held.{Stands, network_held};
ghost use Rattle.telling.specs.declared.kind.Kind.TheVariants.{Transaction};
ghost use Rattle.telling.specs.Faults.{IsUntold, IsOutside};
ghost use Rattle.telling.specs.Verdicts.{verdict_of, PrintsEvaluation, PrintsVerdict};

use crate::evaluation_text::put_evaluation;
use crate::fault::TellFault;
use crate::line::write_line;
use crate::misreading::misreading_of;
use chain_core::Core;
use mempool::Evaluation;
use std::alloc::Global;
use std::io::Write;
use witness_pool::SigScheme;

/// Whether a transaction is valid: it would be taken where it was submitted.
#[derive(Clone, Copy, Debug, PartialEq, Eq)]
pub enum Verdict {
    Valid,
    NotValid,
}

/// The verdict of an evaluation.
fn verdict_of(evaluation: &Evaluation) -> Verdict
    ensures { result ≡ verdict_of (evaluation_of evaluation.now) }
{
    match evaluation {
        Evaluation::Malformed => Verdict::NotValid,
        Evaluation::Known => Verdict::NotValid,
        Evaluation::Refused(_) => Verdict::NotValid,
        Evaluation::Full => Verdict::NotValid,
        Evaluation::Acceptable => Verdict::Valid,
    }
}

/// Prints an evaluation, and answers its verdict.
fn print_evaluation<W: Write>(
    alloc: Global,
    evaluation: &Evaluation,
    out: &mut W,
) -> Result<Verdict, TellFault>
    ensures printed { IfOk result (λ verdict.
        PrintsEvaluation (evaluation_of evaluation.now) (W.contents out.old) (W.contents out.new) verdict) }
    ensures outside { IfErr result IsOutside }
    ensures quiet { IfErr result (λ fault. fault ≢ TellFault.WriteFailed → out.new ≡ out.old) }
{
    let mut line = Vec::new(alloc);
    let Ok(()) = put_evaluation(&mut line, evaluation) else {
        return Err(TellFault::OutOfMemory);
    };
    write_line(out, &line)?;
    Ok(verdict_of(evaluation))
}

/// Judges the transaction that these bytes are as if it were submitted to the core now, at this slot, and prints `valid`
/// where it would be taken; or else the number and the name of the reason against it, and on a second line what that
/// is about, in the words in which a script's run is explained; or `known` where it waits already, or `full` where as
/// many wait as may. Nothing is submitted. A core judges what it is given at the slot after the tip's. Err where the
/// bytes are no transaction, the writer fails, or memory runs out. Takes what [`Core::evaluate`] takes.
///
/// ```text
/// match print_verdict(alloc, &core, core.slot() + 1, &bytes, &mut out)? {
///     Verdict::Valid => .., // out has valid
///     Verdict::NotValid => .., // or 5 MissingInput, and # output 0 of transaction .. is not unspent
/// }
/// ```
pub fn print_verdict<S: SigScheme, W: Write>(
    alloc: Global,
    core: &Core<S>,
    slot: u64,
    bytes: &[u8],
    out: &mut W,
) -> Result<Verdict, TellFault>
    // It is so in every state of the definitions that the core stands for.
    ensures told { IfOk result (λ verdict. (s : State) → Stands core.now s →
        PrintsVerdict (network_held core.now S.verifies) s slot bytes.now (W.contents out.old) (W.contents out.new)
        verdict) }
    ensures fault { IfErr result (λ fault. (s : State) → Stands core.now s →
        IsUntold Transaction bytes.now fault) }
    // Before the writer fails nothing is printed at a fault.
    ensures quiet { IfErr result (λ fault. fault ≢ TellFault.WriteFailed → out.new ≡ out.old) }
{
    let Ok(evaluation) = core.evaluate(slot, bytes) else {
        return Err(TellFault::OutOfMemory);
    };
    if let Evaluation::Malformed = evaluation {
        return Err(TellFault::NoTransaction(misreading_of(bytes)));
    }
    print_evaluation(alloc, &evaluation, out)
}
