//! Writing of a line.

ghost use Rattle.std.specs.Prelude.{◌≡◌, OnOk, IfErr};
ghost use Rattle.std.specs.Io.KnownBytes.{Appends};
ghost use Rattle.telling.specs.Faults.{IsOutside};

use crate::fault::TellFault;
use std::io::Write;

/// Writes all of the line. Where the writer fails, a beginning of it may have been written.
pub fn write_line<W: Write>(out: &mut W, line: &[u8]) -> Result<(), TellFault>
    ensures ok { OnOk result (Appends (W.contents out.old) (W.contents out.new) line.now) }
    ensures fault { IfErr result (λ fault. fault ≡ TellFault.WriteFailed) }
    ensures outside { IfErr result IsOutside }
{
    match out.write_all(line) {
        Ok(()) => Ok(()),
        Err(_) => Err(TellFault::WriteFailed),
    }
}
