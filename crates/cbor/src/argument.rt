//! The arguments of heads (RFC 8949, section 3).

ghost use Rattle.std.specs.Prelude.{◌≡◌, ◌<◌, option_map};
ghost use Rattle.std.specs.Int.{w8, w16, w32, w64};
ghost use Rattle.cbor.specs.Reading.{number_at, long_at, argument_at};

fn u8_at(bytes: &[u8]) -> Option<(u64, &[u8])>
    ensures { option_map (λ x. (x.0, x.1.now)) result ≡ number_at w8 bytes.now }
{
    let (number, rest) = bytes.split_first_chunk::<1>()?;
    Some((u8::from_be_bytes(*number).into(), rest))
}

fn u16_at(bytes: &[u8]) -> Option<(u64, &[u8])>
    ensures { option_map (λ x. (x.0, x.1.now)) result ≡ number_at w16 bytes.now }
{
    let (number, rest) = bytes.split_first_chunk::<2>()?;
    Some((u16::from_be_bytes(*number).into(), rest))
}

fn u32_at(bytes: &[u8]) -> Option<(u64, &[u8])>
    ensures { option_map (λ x. (x.0, x.1.now)) result ≡ number_at w32 bytes.now }
{
    let (number, rest) = bytes.split_first_chunk::<4>()?;
    Some((u32::from_be_bytes(*number).into(), rest))
}

fn u64_at(bytes: &[u8]) -> Option<(u64, &[u8])>
    ensures { option_map (λ x. (x.0, x.1.now)) result ≡ number_at w64 bytes.now }
{
    let (number, rest) = bytes.split_first_chunk::<8>()?;
    Some((u64::from_be_bytes(*number), rest))
}

/// The argument that the low five bits of a first byte announce, and the bytes after it. None where a
/// shorter form holds the same number, for an indefinite length, and where the bytes end too soon.
#[tactic(auto, unfolding(crate::specs::Reading::argument_at))]
pub fn argument(information: u8, bytes: &[u8]) -> Option<(u64, &[u8])>
    ensures { option_map (λ x. (x.0, x.1.now)) result ≡ argument_at information bytes.now }
{
    let ((number, rest), least) = match information {
        0..=23 => return Some((information.into(), bytes)),
        24 => (u8_at(bytes)?, 24),
        25 => (u16_at(bytes)?, 1 << 8),
        26 => (u32_at(bytes)?, 1 << 16),
        27 => (u64_at(bytes)?, 1 << 32),
        _ => return None,
    };
    if number < least {
        return None;
    }
    Some((number, rest))
}
