//! The text that a command is about, from a file or from standard input.

ghost use Rattle.std.specs.Prelude.{◌≡◌, ◌≤◌, length, IfOk, IfSome};
ghost use Rattle.commands.specs.TextFile.{AreBytesOf};

use crate::failure::Failure;
use crate::jobs::{Source, TextAt};
use scenario::ScenarioFault;
use std::alloc::Global;
use std::fs::File;
use std::io::{Error, ErrorKind, Read};
use std::rt::Files;
use telling::{HexFault, bytes_of_hex};

/// The most bytes that a file with a text may have: eight times as many as the largest block has digits.
pub const MAX_TEXT_SIZE: u64 = 16_777_216;

/// Why no text was read from there.
fn unread<'a>(source: Source<'a>, error: &Error) -> Failure<'a> {
    if error.kind() == ErrorKind::OutOfMemory {
        Failure::Scenario(ScenarioFault::OutOfMemory)
    } else {
        Failure::Unread(source)
    }
}

/// All bytes that a reader gives. Err where it fails, or gives more than [`MAX_TEXT_SIZE`].
fn all_of<'a, R: Read>(
    alloc: Global,
    source: Source<'a>,
    reader: &mut R,
) -> Result<Vec<u8>, Failure<'a>>
    ensures read { IfOk result (λ bytes. IfSome (R.remaining reader.old) (λ all. bytes.items ≡ all)) }
    ensures small { IfOk result (λ bytes. length bytes.items ≤ 16777216) }
{
    let mut bytes = Vec::new(alloc);
    if let Err(error) = reader.read_to_end(&mut bytes) {
        return Err(unread(source, &error));
    }
    if bytes.len() as u64 > MAX_TEXT_SIZE {
        return Err(Failure::Unread(source));
    }
    Ok(bytes)
}

/// The bytes of a text that was read: these themselves, or those whose hexadecimal digits they are.
fn bytes_in<'a>(alloc: Global, text: TextAt<'a>, read: Vec<u8>) -> Result<Vec<u8>, Failure<'a>>
    ensures { IfOk result (λ bytes. AreBytesOf text.entry.is_binary read.items bytes.items) }
{
    if text.is_binary {
        return Ok(read);
    }
    match bytes_of_hex(alloc, &read) {
        Ok(bytes) => Ok(bytes),
        Err(HexFault::OutOfMemory) => Err(Failure::Scenario(ScenarioFault::OutOfMemory)),
        Err(fault) => Err(Failure::NoHex(text.source, fault)),
    }
}

/// The bytes of the text that a reader gives, which is read to its end.
fn read_text<'a, R: Read>(
    alloc: Global,
    text: TextAt<'a>,
    reader: &mut R,
) -> Result<Vec<u8>, Failure<'a>>
    ensures read { IfOk result (λ bytes. IfSome (R.remaining reader.old)
        (λ read. AreBytesOf text.entry.is_binary read bytes.items)) }
    ensures small { IfOk result (λ _. IfSome (R.remaining reader.old) (λ read. length read ≤ 16777216)) }
{
    let read = all_of(alloc, text.source, reader)?;
    bytes_in(alloc, text, read)
}

/// The bytes of a text. One byte more than it may have makes it one that can't be read, so a file without end takes no
/// more memory. Err too where it can't be opened or read, where it isn't the digits of bytes, or where memory runs out.
pub fn text_of<'a, R: Files<File = File> + AllocGlobal, I: Read>(
    rt: &R,
    text: TextAt<'a>,
    input: &mut I,
) -> Result<Vec<u8>, Failure<'a>>
    // On standard input the bytes are those of all that it gives, where that is known.
    ensures { text.entry.source ≡ Source.Input → IfOk result (λ bytes. IfSome (I.remaining input.old)
        (λ read. AreBytesOf text.entry.is_binary read bytes.items)) }
{
    match text.source {
        Source::Input => read_text(rt.alloc(), text, &mut Read::take(input, MAX_TEXT_SIZE + 1)),
        Source::File(path) => match File::open(rt, path) {
            Ok(file) => read_text(rt.alloc(), text, &mut file.take(MAX_TEXT_SIZE + 1)),
            Err(_) => Err(Failure::Unread(text.source)),
        },
    }
}
