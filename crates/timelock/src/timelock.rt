//! Scripts as trees.

ghost use Rattle.std.specs.Prelude.{◌≡◌, map};
ghost use Rattle.timelock.specs.View.{timelocks_of};

use ident::KeyHash;
use std::marker::Model;

/// What a transaction must show (Mary's `Timelock`).
#[cycle(timelocks)]
#[derive(Debug, Drop)]
pub enum Timelock {
    /// A signature by the key of this hash.
    RequireSignature(KeyHash),
    /// All of these.
    RequireAllOf(Timelocks),
    /// One of these, at least.
    RequireAnyOf(Timelocks),
    /// A given number of these, at least; what stands there twice counts twice.
    RequireMOf(u64, Timelocks),
    /// An interval that starts in this slot or later.
    RequireTimeStart(u64),
    /// An interval that ends before this slot or with the slot before it.
    RequireTimeExpire(u64),
}

/// What a timelock asks for some of, in order.
#[cycle(timelocks)]
#[derive(Debug, Drop)]
pub struct Timelocks {
    members: Vec<Timelock>,
}

impl Model for Timelocks {
    ghost use Rattle.model.specs.Script.{Scripts};
    ghost use Rattle.model.specs.Codes.{coded_scripts};

    ghost Value = { Scripts };

    ghost coded = { coded_scripts };

    ghost use Rattle.timelock.specs.View.{timelocks_of};

    ghost view = { λ t. timelocks_of t.members.items };

    ghost use Rattle.timelock.specs.Depth.{depth_of_scripts};

    ghost size = { depth_of_scripts };

    ghost use Rattle.timelock.specs.Falls.{members_fall};

    ghost size_decreases = { λ t h. members_fall t.members.items };
}

impl Timelocks {
    /// These timelocks, in this order. They may nest to any depth: to drop, to show and to copy a timelock recurses
    /// down its nesting, so that a very deep one may run out of stack. Only a timelock whose text nests at most 64 deep
    /// makes a [`Script`], and what is read never nests deeper.
    ///
    /// [`Script`]: crate::Script
    pub fn from_vec(members: Vec<Timelock>) -> Timelocks
        ensures { result ≡ timelocks_of members.items }
    {
        Timelocks { members }
    }

    /// The timelocks, in order.
    pub fn as_slice(&self) -> &[Timelock]
        ensures { timelocks_of result.now ≡ self.now }
    {
        &self.members
    }
}
