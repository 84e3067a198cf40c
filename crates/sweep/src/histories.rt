//! The acts that are calls of one core, one after the other.

use crate::calls::Call;
use crate::calls::Call::{Arrive, Forge, Forward, Next, Open, Submit};
use crate::stage::Stage;
use crate::told::Told;
use std::alloc::Global;

/// The first block of a chain comes last: it connects those that wait for it. Of the transactions that wait one spends
/// what the chain has spent.
pub const LATE: &[Call] = &[
    Open,
    Arrive("B2"),
    Arrive("B3"),
    Submit("Stays"),
    Submit("Good"),
    Arrive("B1"),
    Next(0),
];

/// The chain is switched back over three blocks, of which one of two followers was told two; and then back over two
/// blocks more.
pub const SWITCH: &[Call] = &[
    Arrive("A1"),
    Arrive("A2"),
    Arrive("A3"),
    Open,
    Next(0),
    Next(0),
    Open,
    Submit("Stays"),
    Arrive("B1"),
    Arrive("B2"),
    Arrive("B3"),
    Arrive("B4"),
    Next(0),
    Next(0),
    Next(1),
    Arrive("C3"),
    Arrive("C4"),
    Arrive("C5"),
    Next(0),
    Next(1),
];

/// A block that the rules don't let through, behind which another one waits, and then blocks of the good chain.
pub const DEAD: &[Call] = &[Arrive("A1"), Arrive("D3"), Arrive("D2"), Arrive("A2")];

/// Transactions are submitted, one of which spends what another makes, and and one of which is badly signed.
pub const SUBMIT: &[Call] = &[
    Submit("Stays"),
    Submit("Behind"),
    Submit("BadlySigned"),
    Submit("Good"),
    Submit("Good"),
];

/// Followers are opened: room is made for them several times.
pub const OPEN: &[Call] = &[Open, Open, Open, Open, Open, Open];

/// A follower is told a block, and that there are no more.
pub const NEXT: &[Call] = &[Arrive("A1"), Open, Next(0), Next(0)];

/// A follower is set to a block, and told the one that comes behind it.
pub const FORWARD: &[Call] = &[Arrive("A1"), Arrive("A2"), Open, Forward(0, "A1"), Next(0)];

/// A block is forged of what waits, in a slot that is too early, and in one that isn't.
pub const FORGE: &[Call] = &[
    Arrive("A1"),
    Submit("Stays"),
    Submit("Behind"),
    Forge(1),
    Forge(7),
];

/// Makes the calls, and tells what is answered to each, and the numbers of the core that they leave.
pub fn tell(alloc: Global, calls: &[Call], told: &mut Told) {
    let Some(mut stage) = Stage::ready(alloc) else {
        return told.put("no core\n");
    };
    for call in calls {
        stage.make(*call, told);
    }
    stage.tell_numbers(told);
}
