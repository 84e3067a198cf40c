//! Where a transaction was put onto a chain.

ghost use Rattle.std.specs.Prelude.{◌≡◌};
ghost use Rattle.watching.specs.View.{inclusion_of};

use std::cmp::Reverse;
use std::fmt;
use std::marker::Model;

/// Where a transaction was put onto a chain.
#[derive(Clone, Copy, Debug, PartialEq, Eq, Drop)]
pub struct Inclusion {
    /// The number of its block.
    pub number: u64,
    /// The slot of its block.
    pub slot: u64,
    /// Its place in the block, counted from 0.
    pub index: u64,
}

impl fmt::Display for Inclusion {
    ghost use Rattle.std.specs.Prelude.{Some, ◌++◌, codes, decimal};

    ghost output = { λ at. Some (codes "block " ++ (decimal at.number ++ (codes " in slot " ++ (decimal at.slot
        ++ (codes " at " ++ decimal at.index))))) };

    /// Writes `block 7 in slot 70 at 2`: the block's number and slot, and the transaction's place in it.
    fn fmt<W: fmt::Write>(&self, f: &mut fmt::Formatter<W>) -> fmt::Result {
        let number = self.number;
        let slot = self.slot;
        let index = self.index;
        write!(f, "block {number} in slot {slot} at {index}")
    }
}

/// An inclusion as maps hold it: the later one comes first.
#[derive(Clone, Copy, PartialEq, Eq, PartialOrd, Ord, Drop)]
pub struct NewestFirst {
    number: Reverse<u64>,
    slot: Reverse<u64>,
    index: Reverse<u64>,
}

impl Model for NewestFirst {
    ghost use Rattle.watching.specs.Histories.{Inclusion, coded_inclusion};

    ghost Value = { Inclusion };

    ghost coded = { coded_inclusion };

    ghost view = { λ n. record { number = n.number.0; slot = n.slot.0; index = n.index.0 } };

    ghost inverse = { λ m. record {
      number = record { 0 = m.number };
      slot = record { 0 = m.slot };
      index = record { 0 = m.index };
    } };
}

impl NewestFirst {
    /// The inclusion, to be a key.
    pub fn of(inclusion: &Inclusion) -> NewestFirst
        ensures { result ≡ inclusion_of inclusion.now }
    {
        NewestFirst {
            number: Reverse(inclusion.number),
            slot: Reverse(inclusion.slot),
            index: Reverse(inclusion.index),
        }
    }

    /// The inclusion.
    pub fn inclusion(&self) -> Inclusion
        ensures { inclusion_of result ≡ self.now }
    {
        Inclusion {
            number: self.number.0,
            slot: self.slot.0,
            index: self.index.0,
        }
    }
}
