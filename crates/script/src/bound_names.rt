//! What names are bound to.

ghost use Rattle.std.specs.Prelude.{◌≡◌, [], ◌∷◌, ◌++◌, List, ℕ, OnOk, Some, None, option_map, bytes_eq, if◌then◌else◌};
ghost use Rattle.std.specs.Option.{option_or};
ghost use Rattle.script.specs.Names.{Binding, bound_to, printed_name};
ghost use Rattle.script.specs.NamesView.{AreBound, bound_of};
ghost use Rattle.byte_keys.specs.ByteKeys.{at_bytes};

use ident::{BlockHash, Point};
use std::alloc::{AllocError, Global};
use std::collections::BTreeMap;

/// Bytes that have a name, and where they are those of a block the block's place on its chain.
#[derive(Drop)]
pub struct Bound {
    pub bytes: Vec<u8>,
    pub place: Option<Point>,
}

/// All names, and the first name of each block.
#[derive(Drop)]
pub struct BoundNames {
    pub(crate) alloc: Global,
    by_name: BTreeMap<Vec<u8>, Bound>,
    by_hash: BTreeMap<BlockHash, Vec<u8>>,
}

impl BoundNames {
    /// No names.
    pub fn new(alloc: Global) -> BoundNames
        ensures { AreBound result [] }
    {
        BoundNames {
            alloc,
            by_name: BTreeMap::new(alloc),
            by_hash: BTreeMap::new(alloc),
        }
    }

    /// What is bound to a name.
    pub fn get(&self, name: &[u8]) -> Option<&Bound>
        ensures { (names : List Binding) → AreBound self.now names
            → option_map (λ b. bound_of b.now) result ≡ bound_to name.now names }
    {
        self.by_name.get(name)
    }

    /// The first name that was bound to a block with this hash, or a question mark.
    pub fn printed_name(&self, hash: &BlockHash) -> &[u8]
        ensures { (names : List Binding) → AreBound self.now names → result.now ≡ printed_name hash.now.bytes names }
    {
        match self.by_hash.get(hash) {
            Some(name) => name.as_slice(),
            None => b"?".as_slice(),
        }
    }

    /// Binds a name that is free.
    pub fn bind(&mut self, name: &[u8], bound: Bound) -> Result<(), AllocError>
        ensures { OnOk result ((names : List Binding) → AreBound self.old names → bound_to name.now names ≡ None
            → AreBound self.new (names ++ record { name = name.now; bound = bound_of bound } ∷ [])) }
    {
        if let Some(place) = bound.place {
            self.name_block(place.hash, name)?;
        }
        let key = Vec::from_slice(self.alloc, name)?;
        self.by_name.insert(key, bound)?;
        Ok(())
    }

    /// Gives a name to a block that has none.
    fn name_block(&mut self, hash: BlockHash, name: &[u8]) -> Result<(), AllocError>
        ensures by_name { self.new.by_name ≡ self.old.by_name }
        ensures by_hash { OnOk result ((q : List ℕ)
            → option_map (λ n. n.items) (at_bytes (λ k. k.bytes) q self.new.by_hash) ≡ option_or
            (option_map (λ n. n.items) (at_bytes (λ k. k.bytes) q self.old.by_hash))
            (if bytes_eq q hash.bytes then Some name.now else None)) }
    {
        if !self.by_hash.contains_key(&hash) {
            let value = Vec::from_slice(self.alloc, name)?;
            self.by_hash.insert(hash, value)?;
        }
        Ok(())
    }
}
