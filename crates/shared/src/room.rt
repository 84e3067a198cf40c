//! The name of one lock with its word and its callers.

use std::marker::Brand;

/// Names one shared core, in proofs alone: which word tells its height, and what it begins from. All that belongs
/// together is generic in it, so a caller of one core can't be used with another.
pub trait Room {
    ghost use Rattle.atomic_table.specs.Seated.{TableId};
    ghost use Rattle.shared.specs.Starts.{Start};

    ghost table: { TableId };

    ghost start: { Start };
}

impl Room for Brand {
    ghost use Rattle.shared.specs.Heights.{no_start, no_table};

    ghost table = { no_table };

    ghost start = { no_start };
}
