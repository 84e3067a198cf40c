//! Enterprise addresses (Shelley, 4.2): who may spend an output.

ghost use Rattle.std.specs.Prelude.{◌≡◌, ◌↔◌, ◌<◌, length, option_map, IfSome, IfNone, IsSome};
ghost use Rattle.model.specs.Limits.{network_limit};
ghost use Rattle.model.specs.Transaction as model;
ghost use Rattle.model.specs.Transaction.{address_bytes, IsAddress};

use ident::{KeyHash, ScriptHash};

/// Networks are below this number.
const NETWORK_LIMIT: u8 = 16;

/// The kind of an address that a key unlocks, in the high four bits of its first byte.
const KEY_KIND: u8 = 6;

/// The kind of an address that a script unlocks.
const SCRIPT_KIND: u8 = 7;

/// How many bytes an address has.
pub const ADDRESS_SIZE: usize = 33;

/// What unlocks an output.
#[derive(Clone, Copy, Debug, PartialEq, Eq, Hash)]
pub enum Credential {
    /// A signature by the key of this hash.
    Key(KeyHash),
    /// The script of this hash.
    Script(ScriptHash),
}

/// An address: a network, 0 to 15, and what unlocks an output there.
#[derive(Clone, Copy, Debug, PartialEq, Eq, Hash)]
pub struct Address {
    network: u8,
    payment: Credential,
    ghost in_range: { network < network_limit },
}

impl Address {
    ghost use Rattle.tx.specs.View.{credential_of, address_of};
    ghost use Rattle.tx.specs.Reading.{address_of_bytes};

    /// The address on this network, 0 to 15. None where the network is 16 or more.
    pub fn new(network: u8, payment: Credential) -> Option<Address>
        ensures some { IfSome result (λ address.
            address_of address ≡ record { network = network; payment = credential_of payment }) }
        ensures range { IsSome result ↔ (network < network_limit) }
    {
        if network >= NETWORK_LIMIT {
            return None;
        }
        Some(Address { network, payment })
    }

    /// The network, 0 to 15.
    pub fn network(&self) -> u8
        ensures is { result ≡ (address_of self.now).network }
        ensures range { result < network_limit }
    {
        self.network
    }

    /// What unlocks an output at the address.
    pub fn payment(&self) -> Credential
        ensures { credential_of result ≡ (address_of self.now).payment }
    {
        self.payment
    }

    /// The address that has these bytes (the address formats of Shelley): the kind in the high four bits of the first,
    /// 6 for a key and 7 for a script, the network in the low four, and then the hash. None where no address has them:
    /// for each other kind.
    #[tactic(auto, unfolding(crate::specs::Reading::address_of_bytes))]
    pub fn from_bytes(bytes: &[u8; ADDRESS_SIZE]) -> Option<Address>
        ensures exact { option_map address_of result ≡ address_of_bytes bytes.now }
        ensures some { IfSome result (λ address. IsAddress (address_of address) ×
            (address_bytes (address_of address) ≡ bytes.now)) }
        ensures none { IfNone result ((address : model.Address) → IsAddress address →
            address_bytes address ≡ bytes.now → ⊥) }
    {
        let (first, hash) = bytes.as_slice().split_first()?;
        let hash = <[u8; 32]>::try_from(hash).ok()?;
        let payment = match first / 16 {
            KEY_KIND => Credential::Key(KeyHash::from_bytes(hash)),
            SCRIPT_KIND => Credential::Script(ScriptHash::from_bytes(hash)),
            _ => return None,
        };
        Address::new(first % 16, payment)
    }

    /// The 33 bytes of the address.
    pub fn to_bytes(&self) -> [u8; ADDRESS_SIZE]
        ensures bytes { result ≡ address_bytes (address_of self.now) }
        ensures address { IsAddress (address_of self.now) }
    {
        let (kind, hash) = match &self.payment {
            Credential::Key(hash) => (KEY_KIND, hash.as_bytes()),
            Credential::Script(hash) => (SCRIPT_KIND, hash.as_bytes()),
        };
        let mut bytes = [0; ADDRESS_SIZE];
        bytes[0] = 16 * kind + self.network;
        bytes[1..].copy_from_slice(hash.as_slice());
        bytes
    }
}
