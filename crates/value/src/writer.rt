//! Writers of assets (RFC 8949, section 4.2.1): each puts its part at the end of a vector of bytes, in time
//! linear in the bytes that are written. Where memory runs out a part of it may stand there, and none fails where the
//! vector has room.

ghost use Rattle.std.specs.Prelude.{◌≡◌, ◌<◌, ◌≤◌, ◌+◌, ◌++◌, length, map, OnOk, OnErr, vec_capacity};
ghost use Rattle.model.specs.Cbor.{text_of, pairs_of, pairs_text, map_of};
ghost use Rattle.model.specs.Value.{entry_of_token, entry_of_policy, item_of_assets};
ghost use Rattle.value.specs.View.{token_of, policy_of};
ghost use Rattle.cbor.specs.Texts.{Keeps};

use crate::assets::{Policy, Token};
use crate::quantity::Quantity;
use std::alloc::AllocError;

/// The tokens, one after the other, each its name and then its quantity.
fn write_token_list<Q: Quantity>(out: &mut Vec<u8>, tokens: &[Token<Q>]) -> Result<(), AllocError>
    ensures ok { OnOk result (out.new.items ≡
        out.old.items ++ pairs_text (pairs_of (map (entry_of_token Q.item_of) (map token_of tokens.now)))) }
    ensures keeps { Keeps out.old.items out.new.items }
    ensures full { OnErr result (vec_capacity out.old < length out.old.items +
        length (pairs_text (pairs_of (map (entry_of_token Q.item_of) (map token_of tokens.now))))) }
    ensures capacity { vec_capacity out.old ≤ vec_capacity out.new }
{
    for token in tokens {
        cbor::write_byte_string(out, &token.name)?;
        token.quantity.write(out)?;
    }
    Ok(())
}

/// The map of the tokens.
fn write_tokens<Q: Quantity>(out: &mut Vec<u8>, tokens: &[Token<Q>]) -> Result<(), AllocError>
    ensures ok { OnOk result (out.new.items ≡
        out.old.items ++ text_of (map_of (map (entry_of_token Q.item_of) (map token_of tokens.now)))) }
    ensures keeps { Keeps out.old.items out.new.items }
    ensures full { OnErr result (vec_capacity out.old < length out.old.items +
        length (text_of (map_of (map (entry_of_token Q.item_of) (map token_of tokens.now))))) }
    ensures capacity { vec_capacity out.old ≤ vec_capacity out.new }
{
    cbor::write_map(out, tokens.len() as u64)?;
    write_token_list(out, tokens)
}

/// The policies, one after the other, each its hash and then its tokens.
fn write_policy_list<Q: Quantity>(
    out: &mut Vec<u8>,
    policies: &[Policy<Q>],
) -> Result<(), AllocError>
    ensures ok { OnOk result (out.new.items ≡
        out.old.items ++ pairs_text (pairs_of (map (entry_of_policy Q.item_of) (map policy_of policies.now)))) }
    ensures keeps { Keeps out.old.items out.new.items }
    ensures full { OnErr result (vec_capacity out.old < length out.old.items +
        length (pairs_text (pairs_of (map (entry_of_policy Q.item_of) (map policy_of policies.now))))) }
    ensures capacity { vec_capacity out.old ≤ vec_capacity out.new }
{
    for policy in policies {
        cbor::write_byte_string(out, policy.id.as_bytes().as_slice())?;
        write_tokens(out, &policy.tokens)?;
    }
    Ok(())
}

/// The map of the policies.
pub fn write_assets<Q: Quantity>(
    out: &mut Vec<u8>,
    policies: &[Policy<Q>],
) -> Result<(), AllocError>
    ensures ok { OnOk result (out.new.items ≡
        out.old.items ++ text_of (item_of_assets Q.item_of (map policy_of policies.now))) }
    ensures keeps { Keeps out.old.items out.new.items }
    ensures full { OnErr result (vec_capacity out.old < length out.old.items +
        length (text_of (item_of_assets Q.item_of (map policy_of policies.now)))) }
    ensures capacity { vec_capacity out.old ≤ vec_capacity out.new }
{
    cbor::write_map(out, policies.len() as u64)?;
    write_policy_list(out, policies)
}
