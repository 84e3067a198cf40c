//! A call is written into the journal that the height's rule knows.

ghost use Rattle.std.specs.Prelude.{◌≡◌, ◌++◌, [], ◌∷◌, true};
ghost use Rattle.shared.specs.Starts.{network_from, start_of};
ghost use Rattle.model.specs.Journal.{IsLegalJournal};
ghost use Rattle.shared.specs.Heights.{height_after, without_right, note_of, with_note, Spent, Calls, IsLooked};
ghost use Rattle.shared.specs.Heights.{IsCompared, IsWritten};
ghost use Rattle.shared.specs.Sealing.{IsSealed, IsWriterAfter};

use crate::heights::{Compares, HeightSeat, Heights, Lending, Looks, Writes, Written};
use crate::journal_entry::JournalEntry;
use std::marker::Brand;
use witness_pool::SigScheme;

/// The seat looks at the height. One load, which waits for nobody.
pub fn look<S: SigScheme>(heights: &Heights<S>, seat: &mut HeightSeat) -> u64
    requires word { heights.now.shared.table_id.words ≡ 1 }
    requires seat { seat.old.table_id ≡ heights.now.shared.table_id }
    requires serves { seat.old.me.0.role ≡ Spent → ⊥ }
    ensures looked { IsLooked S.verifies seat.old.me.0 result seat.new.me.0 }
    ensures same { (seat.new.table_id ≡ seat.old.table_id) × (seat.new.me.1 ≡ seat.old.me.1) }
{
    heights.shared.load::<Looks<S>>(seat, 0)
}

/// The right to write, with what was seen, goes from one seat to another by a note.
fn lend<S: SigScheme>(heights: &Heights<S>, from: &mut HeightSeat, to: &mut HeightSeat)
    requires word { heights.now.shared.table_id.words ≡ 1 }
    requires from { from.old.table_id ≡ heights.now.shared.table_id }
    requires right { from.old.me.0.writes ≡ true }
    requires serves { from.old.me.0.role ≡ Spent → ⊥ }
    requires to { to.old.table_id ≡ heights.now.shared.table_id }
    requires to_serves { to.old.me.0.role ≡ Spent → ⊥ }
    ensures from { (from.new.me ≡ (without_right from.old.me.0, from.old.me.1))
        × (from.new.table_id ≡ from.old.table_id) }
    ensures to { (to.new.me ≡ (with_note to.old.me.0 (note_of from.old.me.0), to.old.me.1))
        × (to.new.table_id ≡ to.old.table_id) }
{
    let note = heights.shared.split_seat::<Lending>(from);
    heights.shared.join_seat::<Lending>(to, note);
}

/// A look that tells that what the seat has seen begins with what was laid beside it: what it had seen before a note
/// came, or what the note has seen.
pub fn compare<S: SigScheme>(heights: &Heights<S>, seat: &mut HeightSeat) -> u64
    requires word { heights.now.shared.table_id.words ≡ 1 }
    requires seat { seat.old.table_id ≡ heights.now.shared.table_id }
    requires serves { seat.old.me.0.role ≡ Spent → ⊥ }
    requires right { seat.old.me.0.writes ≡ true }
    ensures compared { IsCompared seat.old.me.0 result seat.new.me.0 }
    ensures same { (seat.new.table_id ≡ seat.old.table_id) × (seat.new.me.1 ≡ seat.old.me.1) }
{
    heights.shared.load::<Compares>(seat, 0)
}

/// The height after an entry is stored, by the seat of the one who made the call.
fn store<S: SigScheme, E: Written>(
    heights: &Heights<S>,
    seat: &mut HeightSeat,
    entry: &JournalEntry<'_, S>,
    height: u64,
)
    requires named { E.entry ≡ entry.now }
    requires word { heights.now.shared.table_id.words ≡ 1 }
    requires seat { seat.old.table_id ≡ heights.now.shared.table_id }
    requires right { seat.old.me.0.writes ≡ true }
    requires own { seat.old.me.0.role ≡ Calls entry.now.caller }
    requires legal { IsLegalJournal (network_from (start_of heights.now.shared.key) S.verifies)
        (seat.old.me.0.seen ++ entry.now ∷ []) }
    requires height { height ≡ height_after (start_of heights.now.shared.key)
        (seat.old.me.0.seen ++ entry.now ∷ []) }
    ensures written { IsWritten entry.now seat.old.me.0 seat.new.me.0 }
    ensures same { (seat.new.table_id ≡ seat.old.table_id) × (seat.new.me.1 ≡ seat.old.me.1) }
{
    heights.shared.store::<Writes<E>>(seat, 0, height);
}

/// The entry is the last of the journal: the writer lends its right to the caller's seat, which stores the height and
/// gives the right back.
pub fn seal<S: SigScheme>(
    heights: &Heights<S>,
    writer: &mut HeightSeat,
    seat: &mut HeightSeat,
    entry: &JournalEntry<'_, S>,
    height: u64,
)
    requires word { heights.now.shared.table_id.words ≡ 1 }
    requires writer { writer.old.table_id ≡ heights.now.shared.table_id }
    requires right { writer.old.me.0.writes ≡ true }
    requires serves { writer.old.me.0.role ≡ Spent → ⊥ }
    requires seat { seat.old.table_id ≡ heights.now.shared.table_id }
    requires own { seat.old.me.0.role ≡ Calls entry.now.caller }
    requires legal { IsLegalJournal (network_from (start_of heights.now.shared.key) S.verifies)
        (writer.old.me.0.seen ++ entry.now ∷ []) }
    requires height { height ≡ height_after (start_of heights.now.shared.key)
        (writer.old.me.0.seen ++ entry.now ∷ []) }
    ensures sealed { IsSealed writer.old.me.0 entry.now seat.old.me.0 seat.new.me.0 }
    ensures writer { IsWriterAfter writer.old.me.0 entry.now writer.new.me.0 }
    ensures seat_same { (seat.new.table_id ≡ seat.old.table_id) × (seat.new.me.1 ≡ seat.old.me.1) }
    ensures writer_same { (writer.new.table_id ≡ writer.old.table_id) × (writer.new.me.1 ≡ writer.old.me.1) }
{
    lend(heights, writer, seat);
    compare(heights, seat);
    store::<S, Brand>(heights, seat, entry, height);
    lend(heights, seat, writer);
}
