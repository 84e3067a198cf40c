//! Whose an output is, as keys hold it.

ghost use Rattle.std.specs.Prelude.{◌≡◌};
ghost use Rattle.model.specs.Transaction.{address_bytes};
ghost use Rattle.tx.specs.View.{address_of};

use std::marker::Model;
use tx::{ADDRESS_SIZE, Address};

/// The address of an output: its kind and network, and the hash of the key or the script that unlocks it. Ordered by
/// these bytes.
#[derive(Clone, Copy, PartialEq, Eq, PartialOrd, Ord, Drop)]
pub struct Owner {
    bytes: [u8; ADDRESS_SIZE],
}

impl Model for Owner {
    ghost use Rattle.std.specs.Prelude.{ℕ, List};
    ghost use Rattle.std.specs.Coded.{coded_list, coded_ℕ};

    ghost Value = { List ℕ };

    ghost coded = { coded_list coded_ℕ };

    ghost view = { λ o. o.bytes };

    ghost inverse = { λ bytes. record { bytes = bytes } };
}

impl Owner {
    /// The owner with this address.
    pub fn of(address: &Address) -> Owner
        ensures { result ≡ address_bytes (address_of address.now) }
    {
        Owner {
            bytes: address.to_bytes(),
        }
    }
}
