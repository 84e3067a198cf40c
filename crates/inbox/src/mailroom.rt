//! The name of one inbox.

use std::marker::Brand;

/// Names one inbox, in proofs alone: which queue it has, and how many places. All ends that belong together are generic
/// in it, so an end of one inbox can't be used with another.
pub trait Mailroom {
    ghost use Rattle.std.specs.Prelude.{ℕ};
    ghost use Rattle.atomic_table.specs.Seated.{TableId};

    ghost table: { TableId };

    ghost capacity: { ℕ };
}

impl Mailroom for Brand {
    ghost use Rattle.inbox.specs.Opening.{no_table};

    ghost table = { no_table };

    ghost capacity = { 0 };
}
