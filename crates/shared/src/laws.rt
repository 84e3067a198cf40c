//! Laws of what callers know.

ghost use Rattle.std.specs.Prelude.{ℕ, ◌≤◌};
ghost use Rattle.model.specs.Ledger.{Network};
ghost use Rattle.model.specs.Chain.{IsOpening};
ghost use Rattle.model.specs.Journal.{Knowledge, IsLook, BeginsWithSeen};
ghost use Rattle.shared.specs.Later.{IsLater};

/// What a caller knows stays so, whatever calls it makes and whomever it meets.
pub fn knowledge_stays()
    // What it has seen stays the beginning of the journal that it has seen.
    ensures seen { (network : Network) (before after : Knowledge) → IsLater network before after
        → BeginsWithSeen after.seen before.seen }
    // The heights that it reads never fall.
    ensures heights { (network : Network) (before found later after : Knowledge) (first second : ℕ) → IsOpening network
        → IsLook network before first found → IsLater network found later → IsLook network later second after
        → first ≤ second }
{}
