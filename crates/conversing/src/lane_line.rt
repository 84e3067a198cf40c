//! Lines of a lane. One that is too long is passed over and never held.

ghost use Rattle.std.specs.Prelude.{◌≡◌, ◌≢◌, ◌-◌, ◌<◌, ◌≤◌, [], true, false, All, IfOk, length, take, vec_len};
ghost use Rattle.std.specs.Io.{IsEmptyOrEndsWith};
ghost use Rattle.conversing.specs.Lines.{TakesPiece, ReadsLine};

use crate::lane::LaneEnd;
use std::io;
use std::io::{BufRead, ErrorKind};

/// How many bytes a line of a lane has at most, with the line feed that ends it.
pub const MAX_LINE: usize = 2_200_000;

/// A line that was read.
#[derive(Clone, Copy, Debug, PartialEq, Eq)]
pub enum LaneLine {
    /// It is held whole.
    Whole,
    /// It has more bytes than a line may have, and was passed over to its end.
    Cut,
}

/// What of a line was at hand.
#[derive(Clone, Copy)]
pub enum Piece {
    /// Some of it.
    Middle,
    /// What is left of it.
    End,
    /// More than a line may have.
    TooMuch,
}

/// The bytes at hand that belong to the first line.
#[derive(Clone, Copy)]
pub struct Part {
    pub count: usize,
    pub is_last: bool,
}

/// Which of the bytes at hand belong to the first line. Where there are none, it has ended.
fn part_of(bytes: &[u8]) -> Part
    ensures within { result.count ≤ length bytes.now }
    ensures some { 0 < length bytes.now → 0 < result.count }
    ensures before { All (λ b. b ≢ 10) (take (result.count - 1) bytes.now) }
    ensures last { result.is_last ≡ true → IsEmptyOrEndsWith (take result.count bytes.now) 10 }
    ensures more { result.is_last ≡ false → All (λ b. b ≢ 10) (take result.count bytes.now) }
{
    for (i, b) in bytes.iter().enumerate() {
        if *b == b'\n' {
            return Part {
                count: i + 1,
                is_last: true,
            };
        }
    }
    Part {
        count: bytes.len(),
        is_last: bytes.is_empty(),
    }
}

/// Whether a signal interrupted a read, which is then made again.
fn is_interrupted(error: &io::Error) -> bool {
    error.kind() == ErrorKind::Interrupted
}

/// Takes what a reader has at hand of a line, and puts it behind what is held, unless that makes more than `limit`
/// bytes.
fn take_piece<R: BufRead>(
    reader: &mut R,
    line: &mut Vec<u8>,
    limit: usize,
) -> Result<Piece, LaneEnd>
    requires held { vec_len line.old ≤ limit }
    ensures held { vec_len line.new ≤ limit }
    ensures taken { IfOk result (λ piece. TakesPiece limit piece (R.remaining reader.old) (R.remaining reader.new)
        line.old.items line.new.items) }
{
    let available = match reader.fill_buf() {
        Ok(available) => available,
        Err(error) => {
            return if is_interrupted(&error) {
                Ok(Piece::Middle)
            } else {
                Err(LaneEnd::ReadFailed)
            };
        }
    };
    let part = part_of(available);
    if part.count > limit - line.len() {
        return Ok(Piece::TooMuch);
    }
    let Ok(()) = line.extend_from_slice(&available[..part.count]) else {
        return Err(LaneEnd::OutOfMemory);
    };
    reader.consume(part.count);
    if part.is_last {
        Ok(Piece::End)
    } else {
        Ok(Piece::Middle)
    }
}

/// Reads the next line, with the line feed that ends it, and holds it if it has at most `limit` bytes. None where
/// nothing is left. At an Err, for want of memory or because it can't be read, the line is lost. Takes memory for
/// `limit` bytes at most, and time in proportion to the line.
pub fn read_line<R: BufRead>(
    reader: &mut R,
    line: &mut Vec<u8>,
    limit: usize,
) -> Result<Option<LaneLine>, LaneEnd>
    requires empty { line.old.items ≡ [] }
    ensures held { vec_len line.new ≤ limit }
    ensures read { IfOk result (λ read. ReadsLine limit read (R.remaining reader.old) (R.remaining reader.new)
        line.new.items) }
{
    for _ in 0..u64::MAX {
        match take_piece(reader, line, limit)? {
            Piece::Middle => {}
            Piece::End => {
                return if line.is_empty() {
                    Ok(None)
                } else {
                    Ok(Some(LaneLine::Whole))
                };
            }
            Piece::TooMuch => {
                let Ok(_) = reader.skip_until(b'\n') else {
                    return Err(LaneEnd::ReadFailed);
                };
                return Ok(Some(LaneLine::Cut));
            }
        }
    }
    Err(LaneEnd::ReadFailed)
}
