//! Hashes that are looked up.

ghost use Rattle.std.specs.Prelude.{◌≡◌, ℕ, List};
ghost use Rattle.std.specs.List.Sorted.{IsSorted};
ghost use Rattle.std.specs.Ordering.{nat_cmp};
ghost use Rattle.std.specs.Cmp.Lexicographic.{slice_cmp};
ghost use Rattle.model.specs.Rules.{is_among, are_among};
ghost use Rattle.utxo_rules.specs.DetailView.{FindsFirst};

/// The bytes of hashes, sorted to be looked up.
#[derive(Drop)]
pub struct Hashes {
    sorted: Vec<[u8; 32]>,
    ghost rise: { IsSorted (slice_cmp nat_cmp) sorted.items },
}

impl Hashes {
    /// These hashes. Sorts them where they are.
    pub fn of(hashes: Vec<[u8; 32]>) -> Hashes
        ensures { (hash : List ℕ) → is_among result.sorted.items hash ≡ is_among hashes.items hash }
    {
        let mut sorted = hashes;
        sorted.sort_unstable();
        Hashes { sorted }
    }

    /// Whether the hash is one of them.
    pub fn contains(&self, hash: &[u8; 32]) -> bool
        ensures { result ≡ is_among self.now.sorted.items hash.now }
    {
        self.sorted.binary_search(hash).is_ok()
    }

    /// Whether each of these hashes is one of them.
    pub fn contain_all(&self, hashes: &[[u8; 32]]) -> bool
        ensures { result ≡ are_among hashes.now self.now.sorted.items }
    {
        for hash in hashes {
            if !self.contains(hash) {
                return false;
            }
        }
        true
    }

    /// The first of these hashes that isn't one of them.
    pub fn first_missing(&self, hashes: &[[u8; 32]]) -> Option<[u8; 32]>
        ensures { FindsFirst (is_among self.now.sorted.items) hashes.now result }
    {
        for hash in hashes {
            if !self.contains(hash) {
                return Some(*hash);
            }
        }
        None
    }
}
