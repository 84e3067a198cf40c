//! The word that tells the height to all threads, and the seats of those who read it.

use atomic_table::{Join, Play, Seat, Split, Table, TableRule};
use chain_core::Core;
use std::alloc::Global;
use std::marker::{Brand, Model, PhantomData};
use witness_pool::SigScheme;

/// What a seat knows. It exists in proofs alone: no value of it is made.
pub struct View {
    nothing: (),
}

impl Model for View {
    ghost use Rattle.shared.specs.Heights.{SeatView};
    ghost use Rattle.shared.specs.Codes.{coded_seat_view};
    ghost use Rattle.shared.specs.Heights.{spent_view};

    ghost Value = { SeatView };

    ghost coded = { coded_seat_view };

    ghost view = { λ _. spent_view };
}

/// The word is the height of a legal journal, and each seat has seen a beginning of it.
pub struct HeightRule<S: SigScheme> {
    scheme: PhantomData<S>,
}

impl<S: SigScheme> TableRule<(), View, Core<S>> for HeightRule<S> {
    ghost use Rattle.shared.specs.Heights.{IsKept, first_view};
    ghost use Rattle.shared.specs.Starts.{start_of};

    ghost holds = { λ held. IsKept S.verifies (start_of held) };

    ghost first = { λ held. first_view (start_of held) };
}

/// The word that tells the height, beside the rule.
pub type Heights<S> = Table<(), View, Core<S>, HeightRule<S>, Global>;

/// A seat of one who reads or writes the height.
pub type HeightSeat = Seat<(), View>;

/// The right to write goes from one seat to another.
pub struct Lending;

impl Split<View> for Lending {
    ghost use Rattle.shared.specs.Heights.{without_right, note_of};

    ghost left = { without_right };

    ghost right = { note_of };
}

impl Join<View> for Lending {
    ghost use Rattle.shared.specs.Heights.{with_note, spent_view};

    ghost both = { with_note };

    ghost spent = { spent_view };
}

/// A new caller gets its number.
pub struct Dealing;

impl Split<View> for Dealing {
    ghost use Rattle.shared.specs.Heights.{has_dealt, new_caller};

    ghost left = { has_dealt };

    ghost right = { new_caller };
}

/// What a seat has seen goes to another seat, by a note without the right.
pub struct Copying;

impl Split<View> for Copying {
    ghost use Rattle.shared.specs.Heights.{unchanged, copy_of};

    ghost left = { unchanged };

    ghost right = { copy_of };
}

/// What a note has seen is laid beside what the seat has seen.
pub struct Comparing;

impl Join<View> for Comparing {
    ghost use Rattle.shared.specs.Heights.{with_copy, spent_view};

    ghost both = { with_copy };

    ghost spent = { spent_view };
}

/// A seat learns from a note.
pub struct Learning;

impl Join<View> for Learning {
    ghost use Rattle.shared.specs.Heights.{with_news, spent_view};

    ghost both = { with_news };

    ghost spent = { spent_view };
}

/// A look at the height.
pub struct Looks<S: SigScheme> {
    scheme: PhantomData<S>,
}

impl<S: SigScheme> Play<(), View> for Looks<S> {
    ghost use Rattle.std.specs.Prelude.{◌≡◌};
    ghost use Rattle.shared.specs.Heights.{IsLooked};

    ghost then = { λ step before found after. IsLooked S.verifies before.0 found after.0 × (after.1 ≡ before.1) };
}

/// A look after a note.
pub struct Compares;

impl Play<(), View> for Compares {
    ghost use Rattle.std.specs.Prelude.{◌≡◌};
    ghost use Rattle.shared.specs.Heights.{IsCompared};

    ghost then = { λ step before found after. IsCompared before.0 found after.0 × (after.1 ≡ before.1) };
}

/// Names an entry of the journal, in proofs alone.
pub trait Written {
    ghost use Rattle.model.specs.Journal.{JournalEntry};

    ghost entry: { JournalEntry };
}

impl Written for Brand {
    ghost use Rattle.shared.specs.Heights.{no_entry};

    ghost entry = { no_entry };
}

/// A store by the one who has the right.
pub struct Writes<E: Written> {
    entry: PhantomData<E>,
}

impl<E: Written> Play<(), View> for Writes<E> {
    ghost use Rattle.std.specs.Prelude.{◌≡◌};
    ghost use Rattle.shared.specs.Heights.{IsWritten};

    ghost then = { λ step before found after. IsWritten E.entry before.0 after.0 × (after.1 ≡ before.1) };
}
