//! The arguments of heads (RFC 8949, section 3), and where bytes stop being one. Each reader takes constant time.

ghost use Rattle.std.specs.Prelude.{◌↔◌, ◌≡◌, ℕ, ◌<◌, ◌≤◌, length, slice_index, IfOk, IfErr, IsTrue};
ghost use Rattle.wellformed.specs.Parts.{IsTail, FindsTail};
ghost use Rattle.wellformed.specs.Stops.{Stops};

use crate::stop::Stop;

/// Whether the bytes begin with this many zeros.
fn begins_with_zeros(count: usize, bytes: &[u8]) -> bool
    ensures { IsTrue result ↔ ((count ≤ length bytes.now) × ((k : ℕ) → k < count → slice_index bytes.now k ≡ 0)) }
{
    count <= bytes.len() && bytes[..count].iter().all(|byte| *byte == 0)
}

/// One byte, from 24 on.
fn in_one_byte(bytes: &[u8]) -> Result<(u64, &[u8]), Stop>
    ensures found { IfOk result (λ x. FindsTail 24 x.0 bytes.now x.1.now) }
    ensures stops { IfErr result (λ stop. Stops (IsTail 24) bytes.now stop) }
{
    let Some((number, rest)) = bytes.split_first() else {
        return Err(Stop::Ends);
    };
    if *number < 24 {
        return Err(Stop::Argument(bytes.len()));
    }
    Ok(((*number).into(), rest))
}

/// Two bytes, whose first one is not zero.
fn in_two_bytes(bytes: &[u8]) -> Result<(u64, &[u8]), Stop>
    ensures found { IfOk result (λ x. FindsTail 25 x.0 bytes.now x.1.now) }
    ensures stops { IfErr result (λ stop. Stops (IsTail 25) bytes.now stop) }
{
    if begins_with_zeros(1, bytes) {
        return Err(Stop::Argument(bytes.len()));
    }
    let Some((number, rest)) = bytes.split_first_chunk::<2>() else {
        return Err(Stop::Ends);
    };
    Ok((u16::from_be_bytes(*number).into(), rest))
}

/// Four bytes, whose first two are not both zero.
fn in_four_bytes(bytes: &[u8]) -> Result<(u64, &[u8]), Stop>
    ensures found { IfOk result (λ x. FindsTail 26 x.0 bytes.now x.1.now) }
    ensures stops { IfErr result (λ stop. Stops (IsTail 26) bytes.now stop) }
{
    if begins_with_zeros(2, bytes) {
        return Err(Stop::Argument(bytes.len() - 1));
    }
    let Some((number, rest)) = bytes.split_first_chunk::<4>() else {
        return Err(Stop::Ends);
    };
    Ok((u32::from_be_bytes(*number).into(), rest))
}

/// Eight bytes, whose first four are not all zero.
fn in_eight_bytes(bytes: &[u8]) -> Result<(u64, &[u8]), Stop>
    ensures found { IfOk result (λ x. FindsTail 27 x.0 bytes.now x.1.now) }
    ensures stops { IfErr result (λ stop. Stops (IsTail 27) bytes.now stop) }
{
    if begins_with_zeros(4, bytes) {
        return Err(Stop::Argument(bytes.len() - 3));
    }
    let Some((number, rest)) = bytes.split_first_chunk::<8>() else {
        return Err(Stop::Ends);
    };
    Ok((u64::from_be_bytes(*number), rest))
}

/// The argument that the low five bits of a first byte announce, and the bytes after it.
pub fn argument(low: u8, bytes: &[u8]) -> Result<(u64, &[u8]), Stop>
    requires { low < 28 }
    ensures found { IfOk result (λ x. FindsTail low x.0 bytes.now x.1.now) }
    ensures stops { IfErr result (λ stop. Stops (IsTail low) bytes.now stop) }
{
    match low {
        0..=23 => Ok((low.into(), bytes)),
        24 => in_one_byte(bytes),
        25 => in_two_bytes(bytes),
        26 => in_four_bytes(bytes),
        _ => in_eight_bytes(bytes),
    }
}
