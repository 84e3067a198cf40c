//! The entries of the journal.

use crate::call::Call;
use std::marker::Model;
use witness_pool::SigScheme;

/// A call that was made under the lock, and who made it. It names an entry of the journal for contracts, and is let go
/// within the call.
#[derive(Drop)]
pub struct JournalEntry<'a, S: SigScheme> {
    pub(crate) caller: u64,
    pub(crate) call: Call<'a, S>,
}

impl<'a, S: SigScheme> Model for JournalEntry<'a, S> {
    ghost use Rattle.model.specs.Journal as model;
    ghost use Rattle.model.specs.JournalCodes.{coded_journal_entry};

    ghost Value = { model.JournalEntry };

    ghost coded = { coded_journal_entry };

    ghost use Rattle.shared.specs.Entries.{entry_view};

    ghost view = { entry_view };
}
