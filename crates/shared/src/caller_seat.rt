//! Who makes calls under the lock.

ghost use Rattle.std.specs.Prelude.{◌≡◌};
ghost use Rattle.shared.specs.Starts.{network_from};
ghost use Rattle.model.specs.Journal.{IsLook};
ghost use Rattle.shared.specs.Entries.{entry_of};
ghost use Rattle.shared.specs.Standing.{IsHeightOf};

use crate::call::Call;
use crate::heights::{HeightSeat, Heights};
use crate::journal_entry::JournalEntry;
use crate::room::Room;
use crate::sealing::look;
use std::marker::{Model, PhantomData};
use witness_pool::SigScheme;

/// A number, and the seat for the calls of this number: that of a [`crate::Caller`] or of an [`crate::Adder`].
#[derive(Drop)]
pub struct CallerSeat<B: Room> {
    pub(crate) number: u64,
    pub(crate) seat: HeightSeat,
    pub(crate) room: PhantomData<B>,
}

impl<B: Room> Model for CallerSeat<B> {
    ghost use Rattle.model.specs.Journal.{Knowledge};
    ghost use Rattle.model.specs.JournalCodes.{coded_knowledge};

    ghost Value = { Knowledge };

    ghost coded = { coded_knowledge };

    ghost use Rattle.shared.specs.Callers.{seat_view, IsSeatOf};

    ghost view = { seat_view };

    ghost invariant = { IsSeatOf B.table B.start };
}

impl<B: Room> CallerSeat<B> {
    /// The number of the caller, from 0 on.
    pub fn number(&self) -> u64
        ensures { result ≡ self.now.caller }
    {
        self.number
    }

    /// The entry of the journal that this caller made the call.
    pub fn entry<'a, S: SigScheme>(&self, call: Call<'a, S>) -> JournalEntry<'a, S>
        ensures { result ≡ entry_of self.now.caller call.entry }
    {
        JournalEntry {
            caller: self.number,
            call,
        }
    }

    /// A look at the height. One load, which waits for nobody.
    pub fn look<S: SigScheme>(&mut self, heights: &Heights<S>) -> u64
        requires { IsHeightOf B.table B.start heights.now }
        ensures { IsLook (network_from B.start S.verifies) self.old result self.new }
    {
        look(heights, &mut self.seat)
    }
}
