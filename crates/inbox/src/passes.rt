//! The queue behind an inbox, and what the passes know that its ends step with.

use crate::arrival::Arrival;
use crossbeam_queue::protocol::{Join, Lesson, Outcome, Protocol, Split};
use crossbeam_queue::{Pass, RuledArrayQueue};
use std::marker::Model;

/// What a pass knows. It exists in proofs alone: no value of it is made.
pub struct Known {
    nothing: (),
}

impl Model for Known {
    ghost use Rattle.inbox.specs.Rule.{PassView, spent_view};
    ghost use Rattle.inbox.specs.Codes.{coded_pass_view};

    ghost Value = { PassView };

    ghost coded = { coded_pass_view };

    ghost view = { λ _. spent_view };
}

/// What was taken and what the queue holds is all that was sent, in order.
pub struct InOrder;

impl Protocol<Arrival, Known> for InOrder {
    ghost use Rattle.inbox.specs.Rule.{IsKept, first_view};

    ghost holds = { IsKept };

    ghost first = { first_view };
}

/// The queue of an inbox.
pub type Queue = RuledArrayQueue<Arrival, Known, InOrder>;

/// What an end steps with. It takes no memory.
pub type InboxPass = Pass<Arrival, Known>;

/// A new peer gets its number.
pub struct Dealing;

impl Split<Known> for Dealing {
    ghost use Rattle.inbox.specs.Rule.{has_dealt, new_peer};

    ghost left = { has_dealt };

    ghost right = { new_peer };
}

/// One pass tells another what it knows, by a note.
pub struct Telling;

impl Split<Known> for Telling {
    ghost use Rattle.inbox.specs.Rule.{as_it_is, note_of};

    ghost left = { as_it_is };

    ghost right = { note_of };
}

impl Join<Known> for Telling {
    ghost use Rattle.inbox.specs.Rule.{with_note, spent_view};

    ghost both = { with_note };

    ghost spent = { spent_view };
}

/// A push: it enters, or finds the queue full.
pub struct Sending;

impl Outcome<Arrival, Known> for Sending {
    ghost use Rattle.inbox.specs.Rule.{IsSent};

    ghost then = { IsSent };
}

impl Lesson<Arrival, Known> for Sending {
    ghost use Rattle.inbox.specs.Rule.{IsHeldOf};

    ghost fact = { λ v items. IsHeldOf v.role v.sent items };
}

/// A pop: it takes, or finds the queue empty.
pub struct Taking;

impl Outcome<Arrival, Known> for Taking {
    ghost use Rattle.inbox.specs.Rule.{IsTaken};

    ghost then = { IsTaken };
}

impl Lesson<Arrival, Known> for Taking {
    ghost use Rattle.inbox.specs.Rule.{IsAllTaken};

    ghost fact = { IsAllTaken };
}

/// A look at what a note told of what was taken.
pub struct Comparing;

impl Lesson<Arrival, Known> for Comparing {
    ghost use Rattle.inbox.specs.Rule.{HasHeard};

    ghost fact = { λ v items. HasHeard v.role v.sent v.heard };
}
