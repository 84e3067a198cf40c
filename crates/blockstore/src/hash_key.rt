//! The hash of a block, as keys hold it.

ghost use Rattle.std.specs.Prelude.{◌≡◌, ◌≤◌, replicate};
ghost use Rattle.std.specs.Ordering.{nat_cmp, as_partial_cmp};
ghost use Rattle.std.specs.Cmp.{partial_order_from_own_ties};
ghost use Rattle.std.specs.Cmp.Lexicographic.{slice_cmp};
ghost use Rattle.std.specs.Cmp.Rules.{comparing};
ghost use Rattle.std.proofs.Common.{rules, refl};
ghost use Rattle.model.specs.Limits.{hash_size};
ghost use Rattle.blockstore.specs.Words.{IsSized, word_at};

use ident::BlockHash;
use std::cmp::Ordering;
use std::marker::Model;

/// The bytes of a hash. They are ordered as bytes, but compared eight at a time, since comparing is most of a look-up.
#[derive(Clone, Copy, PartialEq, Eq)]
pub struct HashKey {
    bytes: [u8; 32],
}

impl Model for HashKey {
    ghost use Rattle.std.specs.Prelude.{ℕ, List};
    ghost use Rattle.std.specs.Coded.{coded_list, coded_ℕ};
    ghost use Rattle.blockstore.specs.Words.{IsSized};

    ghost Value = { List ℕ };

    ghost coded = { coded_list coded_ℕ };

    ghost view = { λ key. key.bytes };

    ghost invariant = { λ key. IsSized key.bytes };

    ghost inverse = { λ bytes. record { bytes = bytes } };
}

impl HashKey {
    /// The bytes of the hash.
    pub fn of(hash: BlockHash) -> HashKey
        ensures { result ≡ hash.bytes }
    {
        HashKey {
            bytes: *hash.as_bytes(),
        }
    }

    /// The least of all.
    pub fn least() -> HashKey
        ensures { result ≡ replicate hash_size 0 }
    {
        HashKey::of(BlockHash::from_bytes([0; 32]))
    }

    /// The greatest of all.
    pub fn greatest() -> HashKey
        ensures { result ≡ replicate hash_size 255 }
    {
        HashKey::of(BlockHash::from_bytes([255; 32]))
    }

    /// The eight bytes from this one on, as a number: the first of them counts most.
    #[inline(always)]
    fn word(&self, at: usize) -> u64
        requires { at ≤ 24 }
        ensures word { result ≡ word_at at self.now }
        ensures sized { IsSized self.now }
    {
        let bytes = &self.bytes;
        u64::from_be_bytes([
            bytes[at],
            bytes[at + 1],
            bytes[at + 2],
            bytes[at + 3],
            bytes[at + 4],
            bytes[at + 5],
            bytes[at + 6],
            bytes[at + 7],
        ])
    }
}

impl PartialOrd for HashKey {
    ghost partial_cmp = { as_partial_cmp (slice_cmp nat_cmp) };

    ghost laws = { partial_order_from_own_ties (Prim.search (comparing, rules)) (Prim.search (comparing, rules)) };

    fn partial_cmp(&self, other: &HashKey) -> Option<Ordering> {
        Some(self.cmp(other))
    }
}

impl Ord for HashKey {
    ghost cmp = { slice_cmp nat_cmp };

    ghost total = { Prim.search (comparing, rules) };

    ghost matches_partial_cmp = { λ x y. refl };

    ghost matches_eq = { Prim.search (comparing, rules) };

    #[inline(always)]
    fn cmp(&self, other: &HashKey) -> Ordering {
        let (mine, its) = (self.word(0), other.word(0));
        if mine != its {
            return mine.cmp(&its);
        }
        let (mine, its) = (self.word(8), other.word(8));
        if mine != its {
            return mine.cmp(&its);
        }
        let (mine, its) = (self.word(16), other.word(16));
        if mine != its {
            return mine.cmp(&its);
        }
        self.word(24).cmp(&other.word(24))
    }
}
