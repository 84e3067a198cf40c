//! Readers of assets (RFC 8949, sections 3.1 and 4.2.1): from a slice to what stands first and the bytes
//! after it. They take time in proportion to the bytes, and a count that the bytes claim reserves nothing.

ghost use Rattle.std.specs.Prelude.{◌≡◌, map, IfErr};
ghost use Rattle.model.specs.Value as model;
ghost use Rattle.cbor.specs.Gives.{Gives, IfWant};
ghost use Rattle.cbor.specs.Bare.{BeginsWithHead};
ghost use Rattle.value.specs.Reading.{token_at, policy_at, coin_and_at, value_at};
ghost use Rattle.value.specs.View.{token_of, policy_of, value_with};

use crate::assets::{MAX_NAME, Policy, Token};
use crate::quantity::Quantity;
use cbor::{CborFault, DecodeEntry};
use ident::ScriptHash;
use std::alloc::Global;

/// A name and its quantity.
impl<Q: Quantity> DecodeEntry for Token<Q> {
    ghost Plain = { model.Token Q };

    ghost plain = { token_of };

    ghost decoded_at = { token_at Q.quantity_at };

    #[tactic(auto, unfolding(crate::specs::Reading::token_at, cbor::specs::Shapes::entry_at))]
    fn decode_entry<'a>(
        alloc: Global,
        before: &[u8],
        bytes: &'a [u8],
    ) -> Result<(Token<Q>, &'a [u8], &'a [u8]), CborFault> {
        let (name, rest) = cbor::short(bytes, MAX_NAME).ok_or(CborFault::Malformed)?;
        let text = cbor::rising(before, bytes, rest).ok_or(CborFault::Malformed)?;
        let (quantity, rest) = Q::read(rest).ok_or(CborFault::Malformed)?;
        let name = Vec::from_slice(alloc, name)?;
        Ok((Token { name, quantity }, text, rest))
    }
}

/// A policy and its tokens.
impl<Q: Quantity> DecodeEntry for Policy<Q> {
    ghost Plain = { model.Policy Q };

    ghost plain = { policy_of };

    ghost decoded_at = { policy_at Q.quantity_at };

    #[tactic(auto, unfolding(crate::specs::Reading::policy_at, cbor::specs::Shapes::entry_at))]
    fn decode_entry<'a>(
        alloc: Global,
        before: &[u8],
        bytes: &'a [u8],
    ) -> Result<(Policy<Q>, &'a [u8], &'a [u8]), CborFault> {
        let (id, rest) = cbor::fixed::<32>(bytes).ok_or(CborFault::Malformed)?;
        let text = cbor::rising(before, bytes, rest).ok_or(CborFault::Malformed)?;
        let (tokens, rest) = cbor::nonempty_map(alloc, rest)?;
        let id = ScriptHash::from_bytes(id);
        Ok((Policy { id, tokens }, text, rest))
    }
}

/// Coin and assets in an array, and the bytes after them. Only where such an array begins memory is asked for.
#[tactic(auto, unfolding(crate::specs::Reading::coin_and_at, cbor::specs::Shapes::as_at, cbor::specs::Shapes::array_at, cbor::specs::Shapes::both_at))]
fn coin_and_assets(alloc: Global, bytes: &[u8]) -> Result<(u64, Vec<Policy<u64>>, &[u8]), CborFault>
    ensures exact { Gives (λ x. (value_with x.0 x.1.items, x.2.now)) result (coin_and_at bytes.now) }
    ensures begins { IfErr result (λ fault. IfWant fault (BeginsWithHead 4 2 bytes.now)) }
{
    let members = cbor::members(bytes, 2).ok_or(CborFault::Malformed)?;
    let (coin, rest) = cbor::unsigned(members).ok_or(CborFault::Malformed)?;
    let (assets, rest) = cbor::nonempty_map(alloc, rest)?;
    Ok((coin, assets, rest))
}

/// Coin alone or with assets, and the bytes after them. Coin alone asks for no memory.
#[tactic(auto, unfolding(crate::specs::Reading::value_at, cbor::specs::Shapes::either_at, cbor::specs::Shapes::as_at))]
pub fn coin_with(alloc: Global, bytes: &[u8]) -> Result<(u64, Vec<Policy<u64>>, &[u8]), CborFault>
    ensures exact { Gives (λ x. (value_with x.0 x.1.items, x.2.now)) result (value_at bytes.now) }
    ensures begins { IfErr result (λ fault. IfWant fault (BeginsWithHead 4 2 bytes.now)) }
{
    if let Some((coin, rest)) = cbor::unsigned(bytes) {
        return Ok((coin, Vec::new(alloc), rest));
    }
    coin_and_assets(alloc, bytes)
}
