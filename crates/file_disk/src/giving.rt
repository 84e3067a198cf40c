//! Bytes that a read gives.

ghost use Rattle.std.specs.Prelude.{◌≡◌, ◌++◌, length, min, take, drop};

/// As many of the bytes as there is room for, and how many these are.
pub fn give(bytes: &[u8], into: &mut [u8]) -> usize
    ensures count { result ≡ min (length into.old) (length bytes.now) }
    ensures given { into.new ≡ take result bytes.now ++ drop result into.old }
{
    let count = bytes.len().min(into.len());
    into[..count].copy_from_slice(&bytes[..count]);
    count
}

/// What stands from a place on.
pub fn from_place(bytes: &[u8], place: usize) -> &[u8]
    ensures { result.now ≡ drop place bytes.now }
{
    if place < bytes.len() {
        &bytes[place..]
    } else {
        &[]
    }
}
