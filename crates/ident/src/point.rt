//! Points on a chain.

use crate::id::BlockHash;
use std::fmt;

/// A place on a chain: the block with this number and this hash, or genesis. Ordered by the number, then by
/// the bytes of the hash.
#[derive(Clone, Copy, Debug, PartialEq, Eq, PartialOrd, Ord, Hash)]
pub struct Point {
    pub number: u64,
    pub hash: BlockHash,
}

impl Point {
    ghost use Rattle.std.specs.Prelude.{◌≡◌, replicate};
    ghost use Rattle.model.specs.Limits.{hash_size};

    /// The point before the first block: number 0, and a hash of 32 zero bytes.
    pub fn genesis() -> Point
        ensures number { result.number ≡ 0 }
        ensures hash { result.hash.bytes ≡ replicate hash_size 0 }
    {
        Point {
            number: 0,
            hash: BlockHash::from_bytes([0; 32]),
        }
    }
}

impl fmt::Display for Point {
    ghost use Rattle.std.specs.Prelude.{Some, ◌++◌, codes, decimal};
    ghost use Rattle.hex.specs.Hex.{encode_lower};

    ghost output = { λ point. Some (decimal point.number ++ codes " " ++ encode_lower point.hash.bytes) };

    /// Writes the number, a space and the hash in 64 lower case hexadecimal digits.
    fn fmt<W: fmt::Write>(&self, f: &mut fmt::Formatter<W>) -> fmt::Result {
        let number = self.number;
        let hash = self.hash;
        write!(f, "{number} {hash}")
    }
}
