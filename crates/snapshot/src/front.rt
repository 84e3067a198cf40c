//! The first part of a state's text: all of the state but its outputs.

ghost use Rattle.std.specs.Prelude.{◌≡◌, ◌↔◌, ◌++◌, option_map, IsTrue, IfSome, IfNone, IfOk, OnOk};
ghost use Rattle.model.specs.Cbor.{text_of, HasText, Spells};
ghost use Rattle.model.specs.Block.{item_of_previous};
ghost use Rattle.block.specs.View.{bytes_of, tip_of};
ghost use Rattle.snapshot.specs.Snapshot.{Front as Said, item_of_tip, item_of_front, IsFront};
ghost use Rattle.snapshot.specs.Reading.{hash_at, tip_at, front_at};
ghost use Rattle.snapshot.specs.View.{front_view};
ghost use Rattle.snapshot.specs.Faults.{SaysFront};

use crate::snapshot::GenesisHash;
use block::{NUMBER_LIMIT, Tip};
use ident::BlockHash;
use std::alloc::{AllocError, Global};

/// What the first part says.
#[derive(Clone, Copy)]
pub struct Front {
    /// Where the chain ends.
    pub tip: Tip,
    /// The fees so far, in lovelace.
    pub fees: u64,
    /// The digest of what the network agrees on.
    pub digest: GenesisHash,
    /// How many outputs follow.
    pub count: u64,
}

/// The hash of the last block, or null where there is none.
#[tactic(auto, unfolding(crate::specs::Reading::hash_at, cbor::specs::Shapes::optional_at))]
fn read_hash(bytes: &[u8]) -> Option<(Option<BlockHash>, &[u8])>
    ensures { option_map (λ x. (option_map bytes_of x.0, x.1.now)) result ≡ hash_at bytes.now }
{
    if let Some(rest) = cbor::null(bytes) {
        return Some((None, rest));
    }
    let (hash, rest) = cbor::fixed::<32>(bytes)?;
    Some((Some(BlockHash::from_bytes(hash)), rest))
}

/// Where the chain ends, whether a chain can end there or not.
#[tactic(auto, unfolding(crate::specs::Reading::tip_at, cbor::specs::Shapes::as_at, cbor::specs::Shapes::array_at, cbor::specs::Shapes::both_at))]
fn read_tip(bytes: &[u8]) -> Option<(Tip, &[u8])>
    ensures { option_map (λ x. (tip_of x.0, x.1.now)) result ≡ tip_at bytes.now }
{
    let members = cbor::members(bytes, 3)?;
    let (number, rest) = cbor::unsigned(members)?;
    let (slot, rest) = cbor::unsigned(rest)?;
    let (hash, rest) = read_hash(rest)?;
    Some((Tip { number, slot, hash }, rest))
}

/// Writes the hash of the last block, or null where there is none.
fn write_hash(out: &mut Vec<u8>, hash: Option<BlockHash>) -> Result<(), AllocError>
    ensures { OnOk result (out.new.items ≡ out.old.items ++ text_of (item_of_previous (option_map bytes_of hash))) }
{
    match hash {
        Some(hash) => cbor::write_byte_string(out, hash.as_bytes().as_slice()),
        None => cbor::write_null(out),
    }
}

/// Writes where the chain ends.
fn write_tip(
    out: &mut Vec<u8>,
    number: u64,
    slot: u64,
    hash: Option<BlockHash>,
) -> Result<(), AllocError>
    ensures { OnOk result (out.new.items ≡ out.old.items ++ text_of (item_of_tip
        (record { number = number; slot = slot; hash = option_map bytes_of hash }))) }
{
    cbor::write_array(out, 3)?;
    cbor::write_unsigned(out, number)?;
    cbor::write_unsigned(out, slot)?;
    write_hash(out, hash)
}

impl Front {
    /// What stands first, whether a chain can end there or not, and the bytes after it.
    #[tactic(auto, unfolding(crate::specs::Reading::front_at, cbor::specs::Shapes::as_at, cbor::specs::Shapes::array_at, cbor::specs::Shapes::both_at))]
    fn read(bytes: &[u8]) -> Option<(Front, &[u8])>
        ensures { option_map (λ x. (front_view x.0, x.1.now)) result ≡ front_at bytes.now }
    {
        let members = cbor::members(bytes, 4)?;
        let (tip, rest) = read_tip(members)?;
        let (fees, rest) = cbor::unsigned(rest)?;
        let (digest, rest) = cbor::fixed::<32>(rest)?;
        let (count, rest) = cbor::unsigned(rest)?;
        let front = Front {
            tip,
            fees,
            digest: GenesisHash::from_bytes(digest),
            count,
        };
        Some((front, rest))
    }

    /// Whether a chain can end there with these fees.
    pub fn is_reached(&self) -> bool
        ensures { IsTrue result ↔ IsFront (front_view self.now) }
    {
        let (number, slot) = (self.tip.number, self.tip.slot);
        match self.tip.hash {
            None => number == 0 && slot == 0 && self.fees == 0,
            Some(_) => 0 < number && number <= slot && slot < NUMBER_LIMIT,
        }
    }

    /// What the bytes say, all of them, as the first part of a state's text. None where they are no first part.
    /// Constant time.
    pub fn of_part(part: &[u8]) -> Option<Front>
        ensures found { IfSome result (λ front. SaysFront part.now (front_view front)) }
        ensures none { IfNone result ((said : Said) → SaysFront part.now said → ⊥) }
    {
        let (front, rest) = Front::read(part)?;
        if !rest.is_empty() {
            return None;
        }
        if !front.is_reached() {
            return None;
        }
        Some(front)
    }

    /// Writes what the first part says. At Err some of its bytes may stand there.
    fn write(&self, out: &mut Vec<u8>) -> Result<(), AllocError>
        ensures ok { OnOk result (out.new.items ≡ out.old.items ++ text_of (item_of_front (front_view self.now))) }
        ensures has_text { OnOk result (HasText (item_of_front (front_view self.now))) }
    {
        cbor::write_array(out, 4)?;
        write_tip(out, self.tip.number, self.tip.slot, self.tip.hash)?;
        cbor::write_unsigned(out, self.fees)?;
        cbor::write_byte_string(out, self.digest.as_bytes().as_slice())?;
        cbor::write_unsigned(out, self.count)
    }

    /// The first part: 41 to 106 bytes. Err where memory runs out.
    pub fn encode(&self, alloc: Global) -> Result<Vec<u8>, AllocError>
        ensures { IfOk result (λ part. Spells (item_of_front (front_view self.now)) part.items) }
    {
        let mut part = Vec::new(alloc);
        self.write(&mut part)?;
        Ok(part)
    }
}
