//! The records of a log, one after the other.

ghost use Rattle.std.specs.Prelude.{◌≡◌, ◌≢◌, ◌⊎◌, ℕ, List, IfErr, IfOk, IfSome, OnOk};
ghost use Rattle.std.specs.Io.KnownBytes.{Appends};
ghost use Rattle.listing.specs.Listings.{IsListFault, PrintsLog};
ghost use Rattle.listing.specs.Parts.{back_text, front_text, lead_text, rest_text, EndsInVain, IsPartOfLog};

use crate::list_fault::ListFault;
use immlog::{LogEnd, LogPart, PART_ROOM, block_in, read_part};
use std::alloc::{AllocError, Global};
use std::io::{Read, Write};
use telling::Form;

/// Prints this.
fn print<W: Write>(out: &mut W, text: &[u8]) -> Result<(), ListFault>
    ensures ok { OnOk result (Appends (W.contents out.old) (W.contents out.new) text.now) }
    ensures fault { IfErr result (λ fault. fault ≡ ListFault.WriteFailed) }
{
    match out.write_all(text) {
        Ok(()) => Ok(()),
        Err(_) => Err(ListFault::WriteFailed),
    }
}

/// What a document begins with.
fn front_of(form: Form) -> &'static [u8]
    ensures { result.now ≡ front_text form }
{
    match form {
        Form::Lines => b"",
        Form::Json => b"{\"blocks\":[",
    }
}

/// What stands before the record of this number: before the first one what a document begins with, before each other
/// one a comma.
fn lead_of(form: Form, number: u64) -> &'static [u8]
    ensures { result.now ≡ lead_text form number }
{
    match form {
        Form::Json if number > 1 => b",",
        Form::Json | Form::Lines => front_of(form),
    }
}

/// What stands behind the records, where they end at this place as those of a log do.
fn back_of(form: Form, place: usize, end: LogEnd) -> Result<&'static [u8], ListFault>
    ensures ok { IfOk result (λ text. (end ≢ LogEnd.Foreign) × (text.now ≡ back_text form end)) }
    ensures fault { IfErr result (λ fault. EndsInVain end place fault) }
{
    match (form, end) {
        (Form::Lines, LogEnd::Clean) => Ok(b"end clean\n"),
        (Form::Lines, LogEnd::Torn) => Ok(b"end torn\n"),
        (Form::Json, LogEnd::Clean) => Ok(b"],\"end\":\"clean\"}\n"),
        (Form::Json, LogEnd::Torn) => Ok(b"],\"end\":\"torn\"}\n"),
        (_, LogEnd::Foreign) if place == 0 => Err(ListFault::NoLog),
        (_, LogEnd::Foreign) => Err(ListFault::Damaged(place)),
    }
}

/// Prints a record.
fn print_record<W: Write>(
    alloc: Global,
    form: Form,
    number: u64,
    place: usize,
    block: &[u8],
    out: &mut W,
) -> Result<(), ListFault>
    ensures ok { OnOk result ((part : List ℕ) × IsPartOfLog form number place block.now part
        × Appends (W.contents out.old) (W.contents out.new) part) }
    ensures fault { IfErr result (λ fault. (fault ≡ ListFault.WriteFailed) ⊎ (fault ≡ ListFault.OutOfMemory)) }
{
    let text = match form.record(alloc, number, place as u64, block) {
        Ok(text) => text,
        Err(AllocError) => return Err(ListFault::OutOfMemory),
    };
    print(out, lead_of(form, number))?;
    print(out, text.as_bytes())
}

/// Prints how the records end, at this place, where the next one would have this number.
fn print_end<W: Write>(
    form: Form,
    number: u64,
    place: usize,
    end: LogEnd,
    out: &mut W,
) -> Result<(), ListFault>
    ensures ok { OnOk result ((end ≢ LogEnd.Foreign)
        × Appends (W.contents out.old) (W.contents out.new) (rest_text form number end)) }
    ensures fault { IfErr result (λ fault. EndsInVain end place fault) }
{
    let text = back_of(form, place, end)?;
    if number <= 1 {
        print(out, front_of(form))?;
    }
    print(out, text)
}

/// Prints a log record by record. As lines: for each the lines of [`showing::show_record`], and last `end clean` where
/// a closed gate or nothing stands behind them, or `end torn` where there is also what a record left that was being
/// written: then the log loses that when it is opened. As JSON: one document and a line feed, an object whose `blocks`
/// has for each record what [`describing::record_json`] gives, and whose `end` is `clean` or `torn`. Err where no log
/// left the bytes, or they are damaged; where the reader fails or gives 2^64 bytes or more, or the writer does; or
/// where memory runs out: the records before the fault were printed, of a document without its end. Takes time in
/// proportion to the bytes, and memory for the longest record, about a megabyte, and for the transactions of one block.
/// Reads a few bytes at a time: a file is read through a buffer.
pub fn list_log<R: Read, W: Write>(
    alloc: Global,
    form: Form,
    reader: &mut R,
    out: &mut W,
) -> Result<(), ListFault>
    // Just the log is printed.
    ensures listed { OnOk result (IfSome (R.remaining reader.old)
        (λ bytes. PrintsLog form bytes (W.contents out.old) (W.contents out.new))) }
    // That it is none, or damaged, is told only of such.
    ensures fault { IfErr result (λ fault. IfSome (R.remaining reader.old) (λ bytes. IsListFault bytes fault)) }
{
    let Ok(mut room) = vec![in alloc; 0u8; PART_ROOM] else {
        return Err(ListFault::OutOfMemory);
    };
    let mut place = 0usize;
    'records: for number in 1..u64::MAX {
        let Ok(part) = read_part(reader, &mut room) else {
            return Err(ListFault::ReadFailed);
        };
        match part {
            LogPart::End(end) => return print_end(form, number, place, end, out),
            LogPart::Vain => return Err(ListFault::Damaged(place)),
            LogPart::Record(len) => {
                let Some(next) = place.checked_add(1 + len) else {
                    return Err(ListFault::ReadFailed);
                };
                print_record(alloc, form, number, place, block_in(&room, len), out)?;
                place = next;
            }
        }
    }
    Err(ListFault::ReadFailed)
}
