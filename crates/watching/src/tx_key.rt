//! The identifier of a transaction, as maps hold it.

ghost use Rattle.std.specs.Prelude.{◌≡◌};

use ident::TxId;
use std::marker::Model;

/// The identifier of a transaction. Ordered by its bytes.
#[derive(Clone, Copy, PartialEq, Eq, PartialOrd, Ord, Drop)]
pub struct TxKey {
    bytes: [u8; 32],
}

impl Model for TxKey {
    ghost use Rattle.std.specs.Prelude.{ℕ, List};
    ghost use Rattle.std.specs.Coded.{coded_list, coded_ℕ};

    ghost Value = { List ℕ };

    ghost coded = { coded_list coded_ℕ };

    ghost view = { λ i. i.bytes };

    ghost inverse = { λ bytes. record { bytes = bytes } };
}

impl TxKey {
    /// The identifier, to be kept.
    pub fn of(id: &TxId) -> TxKey
        ensures { result ≡ id.now.bytes }
    {
        TxKey {
            bytes: *id.as_bytes(),
        }
    }

    /// The identifier.
    pub fn tx_id(&self) -> TxId
        ensures { result.bytes ≡ self.now }
    {
        TxId::from_bytes(self.bytes)
    }
}
