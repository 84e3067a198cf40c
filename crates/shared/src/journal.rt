//! The journal of all calls, and the seat that has the right to write the height between them.

ghost use Rattle.std.specs.Prelude.{◌≡◌, ◌++◌, [], ◌∷◌};
ghost use Rattle.shared.specs.Starts.{network_from};
ghost use Rattle.model.specs.Journal.{IsCalled};
ghost use Rattle.shared.specs.Meeting.{IsInformed};
ghost use Rattle.shared.specs.Standing.{IsHeightOf, IsCoreOf};

use crate::caller_seat::CallerSeat;
use crate::heights::{HeightSeat, Heights};
use crate::journal_entry::JournalEntry;
use crate::meeting::tell;
use crate::room::Room;
use crate::sealing::seal;
use chain_core::Core;
use std::marker::{Model, PhantomData};
use witness_pool::SigScheme;

/// The seat of the one who writes the height. A contract sees it as the journal: the calls that were made, in their
/// order, all of which the seat has seen. That is for contracts alone and takes no memory.
#[derive(Drop)]
pub struct Journal<B: Room> {
    pub(crate) writer: HeightSeat,
    pub(crate) room: PhantomData<B>,
}

impl<B: Room> Model for Journal<B> {
    ghost use Rattle.model.specs.Journal as model;
    ghost use Rattle.model.specs.JournalCodes.{coded_journal};

    ghost Value = { model.Journal };

    ghost coded = { coded_journal };

    ghost use Rattle.shared.specs.Desks.{journal_view, IsJournalOf};

    ghost view = { journal_view };

    ghost invariant = { IsJournalOf B.table };
}

impl<B: Room> Journal<B> {
    /// The entry, which is the caller's, is the last one, and the core is what it came to be by it. The caller has then
    /// seen the whole journal, and the word tells the core's height.
    pub fn write<S: SigScheme>(
        &mut self,
        heights: &Heights<S>,
        caller: &mut CallerSeat<B>,
        core: &Core<S>,
        entry: &JournalEntry<'_, S>,
    )
        requires heights { IsHeightOf B.table B.start heights.now }
        requires own { entry.now.caller ≡ caller.old.caller }
        requires core { IsCoreOf S.verifies B.start (self.old ++ entry.now ∷ []) core.now }
        ensures entries { self.new ≡ self.old ++ entry.now ∷ [] }
        ensures seen { caller.new.seen ≡ self.new }
        ensures called { IsCalled (network_from B.start S.verifies) caller.old entry.now caller.new }
    {
        let height = core.height();
        seal(heights, &mut self.writer, &mut caller.seat, entry, height);
    }

    /// The caller has then seen the whole journal, and has looked at the height.
    pub fn tell<S: SigScheme>(&mut self, heights: &Heights<S>, caller: &mut CallerSeat<B>)
        requires heights { IsHeightOf B.table B.start heights.now }
        ensures entries { self.new ≡ self.old }
        ensures informed { IsInformed (network_from B.start S.verifies) self.old caller.old caller.new }
    {
        tell(heights, &mut self.writer, &mut caller.seat);
    }
}
