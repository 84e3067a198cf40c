//! The callers of a shared core.

ghost use Rattle.std.specs.Prelude.{◌≡◌, []};
ghost use Rattle.shared.specs.Arrivals.{arrivals_in};

use crate::caller_seat::CallerSeat;
use crate::room::Room;
use std::marker::Model;

/// One who calls a shared core, from one thread at a time. It knows which beginning of the journal it has seen, and its
/// own calls; that is for contracts alone and takes no memory. Blocks are brought by an [`crate::Adder`], so none of
/// its calls is an arrival.
#[derive(Drop)]
pub struct Caller<B: Room> {
    pub(crate) seat: CallerSeat<B>,
}

impl<B: Room> Model for Caller<B> {
    ghost use Rattle.model.specs.Journal.{Knowledge};
    ghost use Rattle.model.specs.JournalCodes.{coded_knowledge};

    ghost Value = { Knowledge };

    ghost coded = { coded_knowledge };

    ghost use Rattle.shared.specs.Callers.{caller_view, IsCallerInside};

    ghost view = { caller_view };

    ghost invariant = { IsCallerInside };
}

impl<B: Room> Caller<B> {
    /// The number of the caller, from 0 on.
    pub fn number(&self) -> u64
        ensures number { result ≡ self.now.caller }
        ensures quiet { arrivals_in self.now.calls ≡ [] }
    {
        self.seat.number()
    }
}
