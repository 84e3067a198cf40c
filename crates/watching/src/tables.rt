//! What an index keeps of a chain.

ghost use Rattle.std.specs.Prelude.{◌≡◌, IfOk};
ghost use Rattle.watching.specs.Chains.{only_outputs};
ghost use Rattle.watching.specs.View.{tables_of};
ghost use Rattle.watching.specs.Which.{watched_among};

use crate::histories::Histories;
use crate::inclusions::Inclusions;
use crate::index::Index;
use crate::which::Which;
use std::alloc::{AllocError, Global};
use utxo_rules::Utxo;

/// What an index keeps of a chain: the watched outputs that it leaves, the history of each owner, and the inclusion of
/// each transaction. A copy takes no memory, and shares what the two have in common.
#[derive(Drop)]
pub struct Tables {
    pub index: Index,
    pub histories: Histories,
    pub inclusions: Inclusions,
}

impl Tables {
    /// The watched ones of these outputs, before any transaction. Takes what [`Index::from_outputs`] takes.
    pub fn new(alloc: Global, which: &Which, outputs: &Utxo) -> Result<Tables, AllocError>
        ensures { IfOk result (λ tables. tables_of tables ≡ only_outputs (watched_among which.now outputs.now)) }
    {
        Ok(Tables {
            index: Index::from_outputs(alloc, which, outputs)?,
            histories: Histories::new(alloc),
            inclusions: Inclusions::new(alloc),
        })
    }

    /// The same again, in constant time and with no memory.
    pub fn try_clone(&self) -> Result<Tables, AllocError>
        ensures { IfOk result (λ copy. tables_of copy ≡ tables_of self.now) }
    {
        Ok(Tables {
            index: self.index.try_clone()?,
            histories: self.histories.try_clone()?,
            inclusions: self.inclusions.try_clone()?,
        })
    }
}
