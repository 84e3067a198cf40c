//! Laws of the journal of all calls.
ghost use Rattle.std.specs.Prelude.{◌≤◌, ℕ};
ghost use Rattle.model.specs.Ledger.{Network};
ghost use Rattle.model.specs.Chain.{IsOpening};
ghost use Rattle.model.specs.Journal.{Knowledge, IsLook, BeginsWithSeen};

/// Two heights that one caller reads one after the other never fall, whatever it sees between them.
pub fn heights_never_fall()
    ensures { (network : Network) (before after before_next after_next : Knowledge) (first second : ℕ)
        → IsOpening network → IsLook network before first after → BeginsWithSeen before_next.seen after.seen
        → IsLook network before_next second after_next → first ≤ second }
{}
