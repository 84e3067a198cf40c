//! Laws of a log beside a core.

ghost use Rattle.std.specs.Prelude.{ℕ, List};
ghost use Rattle.model.specs.Signature.{Verifies};
ghost use Rattle.model.specs.History.{State, Event, Reply, Entry, IsLegal};
ghost use Rattle.model.specs.Ledger.{network_of};
ghost use Rattle.model.specs.Log.{OpensToBeginning};
ghost use Rattle.model.specs.Journal.{Journal};
ghost use Rattle.chain_core.specs.Held.{Held, Stands, network_held};
ghost use Rattle.chain_core.specs.Immutable.{texts_of, immutable_texts};
ghost use Rattle.chain_core.specs.Reopening.{IsChainOf, WereImmutable};
ghost use Rattle.chain_core.specs.Steps.{Steps, KeepsStart};
ghost use Rattle.shared.specs.Starts.{Start, network_from};
ghost use Rattle.flushing.specs.Courses.{Act, IsCourse};
ghost use Rattle.flushing.specs.Sharing.{BeginAfter};
ghost use Rattle.flushing.specs.Texts.{Begins};

/// What [`crate::flush`] asks for stays: the blocks that are never rolled back only grow.
pub fn flush_may_come_again()
    // Whatever event comes to a core that stands for a state, as every core does,
    ensures event { (verifies : Verifies) (before after : Held) (state : State) (event : Event) (reply : Reply)
        (log : List (List ℕ)) → Stands before state → Steps verifies before event reply after
        → KeepsStart before after → Begins log (immutable_texts verifies before)
        → Begins log (immutable_texts verifies after) }
    // and through every list of events and flushes.
    ensures course { (verifies : Verifies) (before after : Held) (state : State) (acts : List Act)
        (log left : List (List ℕ)) → Stands before state → IsCourse verifies before log acts after left
        → Begins log (immutable_texts verifies before) → Begins left (immutable_texts verifies after) }
{}

/// The blocks of a core that are never rolled back only grow, through every list of events and flushes: what was said
/// of a crash when some of them were put onto a log holds of those that there are later.
pub fn immutable_blocks_grow()
    ensures grow { (verifies : Verifies) (before after : Held) (state : State) (acts : List Act)
        (log left : List (List ℕ)) → Stands before state → IsCourse verifies before log acts after left
        → Begins (immutable_texts verifies before) (immutable_texts verifies after) }
    // What is a log of a beginning of them stays one.
    ensures crash { (verifies : Verifies) (before after : Held) (state : State) (acts : List Act)
        (log left : List (List ℕ)) (least : ℕ) (bytes : List ℕ) → Stands before state
        → IsCourse verifies before log acts after left → OpensToBeginning least (immutable_texts verifies before) bytes
        → OpensToBeginning least (immutable_texts verifies after) bytes }
{}

/// What [`crate::flush`] puts onto a log can be opened again: [`crate::Restart::core`] tells no block of it as invalid.
pub fn flushed_blocks_open_again()
    // Of a core that was opened on blocks that were read, or on none, and that stands for what a legal history left,
    // the first of its blocks that are never rolled back are such.
    ensures core { (verifies : Verifies) (core : Held) (history : List Entry) (state : State) (log : List (List ℕ))
        → IsChainOf (network_of core.genesis verifies) (texts_of core.opened) core.opened
        → IsLegal (network_held core verifies) history state → Stands core state
        → Begins log (immutable_texts verifies core) → WereImmutable (network_of core.genesis verifies) log }
    // The same of what [`crate::flush_shared`] puts on of a core that threads share, after whatever journal.
    ensures shared { (verifies : Verifies) (start : Start) (journal : Journal) (log : List (List ℕ))
        → IsChainOf (network_of start.genesis verifies) (texts_of start.opened) start.opened
        → BeginAfter (network_from start verifies) journal log → WereImmutable (network_of start.genesis verifies) log }
{}
