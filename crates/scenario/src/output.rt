//! Writing of whole lines.

ghost use Rattle.std.specs.Prelude.{OnOk, OnErr};
ghost use Rattle.std.specs.Io.KnownBytes.{Appends};
ghost use Rattle.scenario.specs.Print.{AppendsPart};

use std::io::{ErrorKind, Write};

/// The writer took no more bytes.
#[derive(Clone, Copy, Debug, PartialEq, Eq)]
pub struct WriteStopped {}

/// Writes all bytes. Where the writer fails, a beginning of them was written, and not all.
pub fn write_all<W: Write>(writer: &mut W, bytes: &[u8]) -> Result<(), WriteStopped>
    ensures ok { OnOk result (Appends (W.contents writer.old) (W.contents writer.new) bytes.now) }
    ensures err { OnErr result (AppendsPart (W.contents writer.old) (W.contents writer.new) bytes.now) }
{
    let mut rest = bytes;
    for _ in 0..u64::MAX {
        if rest.is_empty() {
            return Ok(());
        }
        match writer.write(rest) {
            Ok(0) => return Err(WriteStopped {}),
            Ok(written) => rest = rest.split_at(written).1,
            Err(e) => {
                if e.kind() != ErrorKind::Interrupted {
                    return Err(WriteStopped {});
                }
            }
        }
    }
    if rest.is_empty() {
        Ok(())
    } else {
        Err(WriteStopped {})
    }
}
