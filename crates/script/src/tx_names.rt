//! The names by which transactions are printed.

ghost use Rattle.std.specs.Prelude.{◌≡◌, [], ◌∷◌, ◌++◌, List, OnOk};
ghost use Rattle.model.specs.Transaction.{Transaction, transaction_id_of};
ghost use Rattle.script.specs.Names.{Named, printed_tx};
ghost use Rattle.script.specs.TxNamesView.{AreTxsNamed};

use ident::TxId;
use std::alloc::{AllocError, Global};
use std::collections::BTreeMap;

/// The first name of each transaction.
#[derive(Drop)]
pub struct TxNames {
    alloc: Global,
    by_id: BTreeMap<TxId, Vec<u8>>,
}

impl TxNames {
    /// No names.
    pub fn new(alloc: Global) -> TxNames
        ensures { AreTxsNamed result [] }
    {
        TxNames {
            alloc,
            by_id: BTreeMap::new(alloc),
        }
    }

    /// The first name that was bound to a transaction of this identifier, or a question mark. Logarithmic in the names.
    pub fn printed_name(&self, id: &TxId) -> &[u8]
        ensures { (names : List (Named Transaction)) → AreTxsNamed self.now names
            → result.now ≡ printed_tx id.now.bytes names }
    {
        match self.by_id.get(id) {
            Some(name) => name.as_slice(),
            None => b"?".as_slice(),
        }
    }

    /// Binds a name to a transaction of this identifier.
    pub fn name_tx(&mut self, id: TxId, name: &[u8]) -> Result<(), AllocError>
        ensures { OnOk result ((names : List (Named Transaction)) (tx : Transaction) → AreTxsNamed self.old names
            → id.bytes ≡ transaction_id_of tx
            → AreTxsNamed self.new (names ++ record { name = name.now; bound = tx } ∷ [])) }
    {
        if !self.by_id.contains_key(&id) {
            let value = Vec::from_slice(self.alloc, name)?;
            self.by_id.insert(id, value)?;
        }
        Ok(())
    }
}
