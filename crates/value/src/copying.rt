//! Copies of assets.

ghost use Rattle.std.specs.Prelude.{◌≡◌, map, IfOk};
ghost use Rattle.value.specs.View.{token_of, policy_of};

use crate::assets::{Policy, Token};
use crate::quantity::Quantity;
use std::alloc::{AllocError, Global};

fn clone_tokens<Q: Quantity>(
    alloc: Global,
    tokens: &[Token<Q>],
) -> Result<Vec<Token<Q>>, AllocError>
    ensures { IfOk result (λ copies. map token_of copies.items ≡ map token_of tokens.now) }
{
    let mut copies = Vec::with_capacity(alloc, tokens.len())?;
    for token in tokens {
        let name = Vec::from_slice(alloc, &token.name)?;
        copies.push(Token {
            name,
            quantity: token.quantity,
        })?;
    }
    Ok(copies)
}

/// Copies of the policies with all that is in them.
pub fn clone_policies<Q: Quantity>(
    alloc: Global,
    policies: &[Policy<Q>],
) -> Result<Vec<Policy<Q>>, AllocError>
    ensures { IfOk result (λ copies. map policy_of copies.items ≡ map policy_of policies.now) }
{
    let mut copies = Vec::with_capacity(alloc, policies.len())?;
    for policy in policies {
        let tokens = clone_tokens(alloc, &policy.tokens)?;
        copies.push(Policy {
            id: policy.id,
            tokens,
        })?;
    }
    Ok(copies)
}
