//! The program that serves.

use thiserror::Error;

/// What is immutable could not be made durable.
#[derive(Clone, Copy, Debug, Drop, PartialEq, Eq, Error)]
#[error("nothing more could be made durable")]
pub struct FlushFault {}

/// The program ends: nobody is to wait any more.
#[derive(Clone, Copy, Debug, Drop, PartialEq, Eq, Error)]
#[error("the program ends")]
pub struct Ending {}

/// The program in which a lane lies: what a lane asks for that isn't the core's.
pub trait Host: Drop {
    ghost use Rattle.std.specs.Prelude.{ℕ, IfOk, OnErr};

    /// From what it was a flush leads to what it is then, with so many blocks durable.
    ghost flushes: { Self → ℕ → Self → Type 0 };

    /// From what it was a flush that fails leads to what it is then.
    ghost fails: { Self → Self → Type 0 };

    /// From what it was the order to end leads to what it is then.
    ghost stops: { Self → Self → Type 0 };

    /// The program ends.
    ghost ends: { Self → Type 0 };

    /// Makes durable what is immutable, and answers how many blocks are.
    fn flush(&mut self) -> Result<u64, FlushFault>
        ensures ok { IfOk result (λ durable. flushes self.old durable self.new) }
        ensures err { OnErr result (fails self.old self.new) };

    /// Has the program end: what peers sent is still brought, and then nobody is to wait any more.
    fn stop(&mut self)
        ensures { stops self.old self.new };

    /// Returns once the selected chain may have more blocks than this. It sleeps until whoever brings blocks tells it.
    /// Err where it has no more and none comes any more, since the program ends.
    fn wait_above(&self, height: u64) -> Result<(), Ending>
        ensures { OnErr result (ends self.now) };
}
