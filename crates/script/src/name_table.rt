//! Names of one kind.

ghost use Rattle.std.specs.Prelude.{◌≡◌, ℕ, [], ◌∷◌, ◌++◌, List, OnOk, Some, None, option_map};
ghost use Rattle.script.specs.Names.{Named, bound_to};
ghost use Rattle.script.specs.KnownView.{IsTable};

use std::alloc::{AllocError, Global};
use std::collections::BTreeMap;

/// Names, each with what it is bound to.
#[derive(Drop)]
pub struct NameTable<V> {
    by_name: BTreeMap<Vec<u8>, V>,
}

impl<V: Drop> NameTable<V> {
    /// No names.
    pub fn new(alloc: Global) -> NameTable<V>
        ensures { IsTable result [] }
    {
        NameTable {
            by_name: BTreeMap::new(alloc),
        }
    }

    /// What a name is bound to. Logarithmic in the names.
    pub fn get(&self, name: &[u8]) -> Option<&V>
        ensures { (names : List (Named V)) → IsTable self.now names
            → option_map (λ v. v.now) result ≡ bound_to name.now names }
    {
        self.by_name.get(name)
    }

    /// Binds a name that is free. Err where memory runs out. Logarithmic in the names.
    pub fn bind(&mut self, name: Vec<u8>, value: V) -> Result<(), AllocError>
        ensures { OnOk result ((names : List (Named V)) → IsTable self.old names → bound_to name.items names ≡ None
            → IsTable self.new (names ++ record { name = name.items; bound = value } ∷ [])) }
    {
        self.by_name.insert(name, value)?;
        Ok(())
    }
}
