//! Parts that a transaction holds in one order, none of them twice.

ghost use Rattle.std.specs.Prelude.{◌≡◌, List, ℕ, map, IfSome, IfNone};
ghost use Rattle.std.specs.Cmp.{IsTotalOrder};
ghost use Rattle.std.specs.Cmp.Lexicographic.{slice_cmp};
ghost use Rattle.std.specs.List.Sorted.{IsPermutation, IsSortedBy, IsStrictlySortedBy};
ghost use Rattle.std.specs.Ordering.{is_lt, nat_cmp};
ghost use Rattle.std.specs.declared.cmp.Ordering.{Ordering as Ranking};
ghost use Rattle.std.proofs.lemmas.Cmp.{nat_list_cmp_total};
ghost use Rattle.model.specs.Script.{script_hash_of};
ghost use Rattle.model.specs.Transaction as model;
ghost use Rattle.model.specs.Transaction.{input_cmp};
ghost use Rattle.tx.specs.Order.{inputs_total};
ghost use Rattle.tx.specs.Repeats.{IsFirstTie};
ghost use Rattle.tx.specs.View.{input_of};

use crate::input::Input;
use crate::key_witness::KeyWitness;
use std::cmp::Ordering;
use timelock::Script;

/// What stands in one order in a transaction, by a key that no two of them have.
pub trait Ranked {
    /// What is compared.
    ghost Key: { Type 0 };

    /// What is compared of a part.
    ghost key: { Self → Key };

    /// The order.
    ghost cmp: { Key → Key → Ranking };

    /// Which of the two stands first.
    fn rank(&self, other: &Self) -> Ordering
        ensures { result ≡ cmp (key self.now) (key other.now) };

    /// It is an order of all keys.
    ghost total: { IsTotalOrder cmp };
}

/// By the transaction's identifier, then by the index.
impl Ranked for Input {
    ghost Key = { model.Input };

    ghost key = { input_of };

    ghost cmp = { input_cmp };

    ghost total = { inputs_total };

    fn rank(&self, other: &Input) -> Ordering {
        self.cmp(other)
    }
}

/// By the bytes of the key, whatever the signature.
impl Ranked for KeyWitness {
    ghost Key = { List ℕ };

    ghost key = { λ witness. witness.key };

    ghost cmp = { slice_cmp nat_cmp };

    ghost total = { nat_list_cmp_total };

    fn rank(&self, other: &KeyWitness) -> Ordering {
        self.key.cmp(&other.key)
    }
}

/// By the bytes of the hash.
impl Ranked for Script {
    ghost Key = { List ℕ };

    ghost key = { script_hash_of };

    ghost cmp = { slice_cmp nat_cmp };

    ghost total = { nat_list_cmp_total };

    fn rank(&self, other: &Script) -> Ordering {
        self.hash().cmp(&other.hash())
    }
}

/// Puts the parts in order. Takes no memory: n log n comparisons of n parts.
pub fn put_in_order<T: Ranked>(parts: &mut Vec<T>)
    ensures same { IsPermutation parts.old.items parts.new.items }
    ensures sorted { IsSortedBy (λ a b. is_lt (T.cmp (T.key a) (T.key b))) parts.new.items }
{
    parts.sort_unstable_by(|a, b| a.rank(b));
}

/// The first of parts in order whose key the next one has too. Linear in the parts.
pub fn first_repeated<T: Ranked>(parts: &[T]) -> Option<&T>
    requires { IsSortedBy (λ a b. is_lt (T.cmp (T.key a) (T.key b))) parts.now }
    ensures some { IfSome result (λ part. IsFirstTie T.cmp (map T.key parts.now) (T.key part.now)) }
    ensures none { IfNone result (IsStrictlySortedBy T.cmp (map T.key parts.now)) }
{
    let Some((first, others)) = parts.split_first() else {
        return None;
    };
    let mut last = first;
    for part in others {
        if last.rank(part).is_eq() {
            return Some(last);
        }
        last = part;
    }
    None
}
