//! A caller learns what the journal has, by notes without the right to write.

ghost use Rattle.std.specs.Prelude.{◌≡◌, true, false};
ghost use Rattle.model.specs.Journal.{BeginsWithSeen};
ghost use Rattle.shared.specs.Heights.{Spent, copy_of, with_news};
ghost use Rattle.shared.specs.Meeting.{IsTold, IsStillWriter};

use crate::heights::{Comparing, Copying, HeightSeat, Heights, Learning};
use crate::sealing::{compare, look};
use witness_pool::SigScheme;

/// A note of the seat goes to the writer, and a look tells that what the writer has seen begins with it.
fn measure<S: SigScheme>(heights: &Heights<S>, writer: &mut HeightSeat, seat: &mut HeightSeat)
    requires word { heights.now.shared.table_id.words ≡ 1 }
    requires writer { writer.old.table_id ≡ heights.now.shared.table_id }
    requires right { writer.old.me.0.writes ≡ true }
    requires serves { writer.old.me.0.role ≡ Spent → ⊥ }
    requires seat { seat.old.table_id ≡ heights.now.shared.table_id }
    requires seat_serves { seat.old.me.0.role ≡ Spent → ⊥ }
    ensures begins { BeginsWithSeen writer.old.me.0.seen seat.old.me.0.seen }
    ensures writer { IsStillWriter writer.old.me.0 writer.new.me.0 }
    ensures writer_same { (writer.new.table_id ≡ writer.old.table_id) × (writer.new.me.1 ≡ writer.old.me.1) }
    ensures seat { (seat.new.me ≡ seat.old.me) × (seat.new.table_id ≡ seat.old.table_id) }
{
    let note = heights.shared.split_seat::<Copying>(seat);
    heights.shared.join_seat::<Comparing>(writer, note);
    compare(heights, writer);
}

/// A note of the writer goes to the seat, which learns from it.
fn learn<S: SigScheme>(heights: &Heights<S>, writer: &mut HeightSeat, seat: &mut HeightSeat)
    requires word { heights.now.shared.table_id.words ≡ 1 }
    requires writer { writer.old.table_id ≡ heights.now.shared.table_id }
    requires serves { writer.old.me.0.role ≡ Spent → ⊥ }
    requires seat { seat.old.table_id ≡ heights.now.shared.table_id }
    requires seat_serves { seat.old.me.0.role ≡ Spent → ⊥ }
    requires reads { seat.old.me.0.writes ≡ false }
    ensures writer { (writer.new.me ≡ writer.old.me) × (writer.new.table_id ≡ writer.old.table_id) }
    ensures seat { (seat.new.me ≡ (with_news seat.old.me.0 (copy_of writer.old.me.0), seat.old.me.1))
        × (seat.new.table_id ≡ seat.old.table_id) }
{
    let note = heights.shared.split_seat::<Copying>(writer);
    heights.shared.join_seat::<Learning>(seat, note);
}

/// The seat has then seen what the writer has, which begins with what it had seen, and has looked at the height. No
/// right to write goes along. The look tells of the journal; that no more stands in it than the writer has seen is then
/// told by a second note.
pub fn tell<S: SigScheme>(heights: &Heights<S>, writer: &mut HeightSeat, seat: &mut HeightSeat)
    requires word { heights.now.shared.table_id.words ≡ 1 }
    requires writer { writer.old.table_id ≡ heights.now.shared.table_id }
    requires right { writer.old.me.0.writes ≡ true }
    requires serves { writer.old.me.0.role ≡ Spent → ⊥ }
    requires seat { seat.old.table_id ≡ heights.now.shared.table_id }
    requires seat_serves { seat.old.me.0.role ≡ Spent → ⊥ }
    requires reads { seat.old.me.0.writes ≡ false }
    ensures told { IsTold S.verifies writer.old.me.0 seat.old.me.0 seat.new.me.0 }
    ensures writer { IsStillWriter writer.old.me.0 writer.new.me.0 }
    ensures seat_same { (seat.new.table_id ≡ seat.old.table_id) × (seat.new.me.1 ≡ seat.old.me.1) }
    ensures writer_same { (writer.new.table_id ≡ writer.old.table_id) × (writer.new.me.1 ≡ writer.old.me.1) }
{
    measure(heights, writer, seat);
    learn(heights, writer, seat);
    look(heights, seat);
    measure(heights, writer, seat);
}
