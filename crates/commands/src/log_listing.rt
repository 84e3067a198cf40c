//! A log, record by record.

ghost use Rattle.std.specs.Prelude.{◌≡◌, IfSome, OnOk};
ghost use Rattle.listing.specs.Listings.{PrintsLog};

use crate::failure::Failure;
use crate::jobs::Source;
use listing::{ListFault, list_log};
use scenario::ScenarioFault;
use std::alloc::Global;
use std::fs::File;
use std::io::{BufReader, Read, Write};
use std::rt::Files;
use telling::Form;

/// Why the log there isn't listed to its end.
fn unlisted<'a>(source: Source<'a>, fault: ListFault) -> Failure<'a> {
    match fault {
        ListFault::NoLog => Failure::NoLog(source),
        ListFault::Damaged(place) => Failure::Damaged(place),
        ListFault::ReadFailed => Failure::Unread(source),
        ListFault::WriteFailed => Failure::Scenario(ScenarioFault::WriteFailed),
        ListFault::OutOfMemory => Failure::Scenario(ScenarioFault::OutOfMemory),
    }
}

/// Prints in this form the log that a reader gives.
fn list<'a, R: Read, O: Write>(
    alloc: Global,
    source: Source<'a>,
    form: Form,
    from: &mut R,
    out: &mut O,
) -> Result<(), Failure<'a>>
    ensures { OnOk result (IfSome (R.remaining from.old)
        (λ bytes. PrintsLog form bytes (O.contents out.old) (O.contents out.new))) }
{
    let Ok(mut reader) = BufReader::new(alloc, from) else {
        return Err(Failure::Scenario(ScenarioFault::OutOfMemory));
    };
    match list_log(alloc, form, &mut reader, out) {
        Ok(()) => Ok(()),
        Err(fault) => Err(unlisted(source, fault)),
    }
}

/// Prints in this form the log that stands there, which isn't changed, nor held against other programs.
pub fn show_log<'a, R: Files<File = File> + AllocGlobal, I: Read, O: Write>(
    rt: &R,
    source: Source<'a>,
    form: Form,
    input: &mut I,
    out: &mut O,
) -> Result<(), Failure<'a>>
    // Of a log on standard input just that is printed.
    ensures { source.entry ≡ Source.Input → OnOk result (IfSome (I.remaining input.old)
        (λ bytes. PrintsLog form bytes (O.contents out.old) (O.contents out.new))) }
{
    match source {
        Source::Input => list(rt.alloc(), source, form, input, out),
        Source::File(path) => match File::open(rt, path) {
            Ok(mut file) => list(rt.alloc(), source, form, &mut file, out),
            Err(_) => Err(Failure::Unread(source)),
        },
    }
}
