//! What a node has counted. Each count stands still at the largest number of 64 bits.

ghost use Rattle.std.specs.Prelude.{◌≡◌, ◌<◌, ◌+◌};
ghost use Rattle.model.specs.History.{refusal_number};
ghost use Rattle.chain_core.specs.Views.{refusal_of};
ghost use Rattle.hosting.specs.Tallies.{with_refusal, with_reply};

use chain_core::{ArriveReply, Refusal};

/// What arrivals were answered.
#[derive(Clone, Copy, Debug, Drop)]
pub struct Tally {
    /// How many were kept.
    pub kept: u64,
    /// How many were refused, by the number of the reason, from 1 on.
    pub refused: [u64; 7],
}

/// The row in which a reason is counted.
fn row_of(refusal: Refusal) -> usize
    ensures row { result + 1 ≡ refusal_number (refusal_of refusal) }
    ensures below { result < 7 }
{
    match refusal {
        Refusal::TooLarge => 0,
        Refusal::Malformed => 1,
        Refusal::BodyHashMismatch => 2,
        Refusal::TooOld => 3,
        Refusal::Known => 4,
        Refusal::Clash => 5,
        Refusal::VolatileFull => 6,
    }
}

impl Tally {
    /// Nothing was counted.
    pub fn new() -> Tally {
        Tally {
            kept: 0,
            refused: [0; 7],
        }
    }

    /// One was refused so.
    pub fn count_refusal(&mut self, refusal: Refusal)
        ensures { self.new ≡ with_refusal (refusal_of refusal) self.old }
    {
        let row = row_of(refusal);
        self.refused[row] = self.refused[row].saturating_add(1);
    }

    /// One was answered so.
    pub fn count(&mut self, reply: ArriveReply)
        ensures { self.new ≡ with_reply reply self.old }
    {
        match reply {
            ArriveReply::Kept { .. } => self.kept = self.kept.saturating_add(1),
            ArriveReply::Refused(refusal) => self.count_refusal(refusal),
        }
    }
}

/// How flushes went.
#[derive(Clone, Copy, Debug, Drop)]
pub struct Flushes {
    /// How many succeeded.
    pub made: u64,
    /// How many failed.
    pub failed: u64,
    /// How long they took together, in microseconds.
    pub microseconds: u64,
    /// How long the last one took.
    pub last: u64,
    /// How many blocks were durable when one succeeded last.
    pub durable: u64,
}

impl Flushes {
    /// None was made, and so many blocks are durable, if there is a log.
    pub fn new(durable: Option<u64>) -> Flushes {
        Flushes {
            made: 0,
            failed: 0,
            microseconds: 0,
            last: 0,
            durable: durable.unwrap_or(0),
        }
    }

    /// One took so many microseconds, after which so many blocks are durable; or it failed.
    pub fn count(&mut self, durable: Option<u64>, took: u64) {
        match durable {
            Some(durable) => {
                self.made = self.made.saturating_add(1);
                self.durable = durable;
            }
            None => self.failed = self.failed.saturating_add(1),
        }
        self.microseconds = self.microseconds.saturating_add(took);
        self.last = took;
    }
}
