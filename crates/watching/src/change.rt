//! What was changed in what is kept, and how it is undone.

ghost use Rattle.std.specs.Prelude.{◌≡◌, IfOk};
ghost use Rattle.watching.specs.Changes.{put_back, all_put_back};
ghost use Rattle.watching.specs.View.{tables_of};

use crate::inclusion::NewestFirst;
use crate::owner::Owner;
use crate::tables::Tables;
use crate::tx_key::TxKey;
use std::alloc::AllocError;
use std::marker::Model;
use tx::{Input, Output};

/// What stood there before a change.
#[derive(Drop)]
pub enum Was {
    /// The output that the input would have spent.
    OutputAt {
        input: Input,
        before: Option<Output>,
    },
    /// The transaction of that inclusion, for the owner.
    EntryAt {
        owner: Owner,
        inclusion: NewestFirst,
        before: Option<TxKey>,
    },
    /// The inclusion of the transaction.
    InclusionOf {
        id: TxKey,
        before: Option<NewestFirst>,
    },
}

/// A change, by what stood there before.
#[derive(Drop)]
pub struct Change {
    pub was: Was,
}

impl Model for Change {
    ghost use Rattle.watching.specs.Changes as values;
    ghost use Rattle.watching.specs.Changes.{coded_change};

    ghost Value = { values.Change };

    ghost coded = { coded_change };

    ghost use Rattle.watching.specs.ChangeView.{change_of};

    ghost view = { λ c. change_of c.was };
}

impl Change {
    /// What was kept before the change. Err where memory runs out: what is kept is gone with the call.
    pub fn put_back(&self, tables: Tables) -> Result<Tables, AllocError>
        ensures { IfOk result (λ before. tables_of before ≡ put_back self.now (tables_of tables)) }
    {
        let Tables {
            index,
            mut histories,
            mut inclusions,
        } = tables;
        match &self.was {
            Was::OutputAt { input, before } => {
                let index = index.restore(input, before)?;
                Ok(Tables {
                    index,
                    histories,
                    inclusions,
                })
            }
            Was::EntryAt {
                owner,
                inclusion,
                before,
            } => {
                let mut history = histories.of(owner).try_clone()?;
                history.restore(inclusion, *before)?;
                histories.set(*owner, history)?;
                Ok(Tables {
                    index,
                    histories,
                    inclusions,
                })
            }
            Was::InclusionOf { id, before } => {
                inclusions.restore(id, *before)?;
                Ok(Tables {
                    index,
                    histories,
                    inclusions,
                })
            }
        }
    }
}

/// What was kept before these changes: the last one is undone first. Err where memory runs out: what is kept is gone
/// with the call.
pub fn all_put_back(tables: Tables, changes: &[Change]) -> Result<Tables, AllocError>
    ensures { IfOk result (λ before. tables_of before ≡ all_put_back changes.now (tables_of tables)) }
{
    let count = changes.len();
    let mut before = tables;
    for done in 0..count {
        before = changes[count - 1 - done].put_back(before)?;
    }
    Ok(before)
}
