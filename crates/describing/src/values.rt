//! Values, and what is minted.

ghost use Rattle.std.specs.Prelude.{◌≡◌, ◌++◌, ℤ, pos, IfOk, OnOk, map, string_bytes};
ghost use Rattle.serde_json.specs.View.{view};
ghost use Rattle.value.specs.View.{policy_of, token_of};
ghost use Rattle.describing.specs.Documents.{document_text, IsReadAs};
ghost use Rattle.describing.specs.Parts.{json_of_whole};
ghost use Rattle.describing.specs.Values.{json_of_asset, json_of_assets, json_of_value};

use crate::documents::document;
use crate::parts::{bytes_json, number_json, whole_json};
use ident::ScriptHash;
use serde_json::{Value as Json, json};
use std::alloc::{AllocError, Global};
use value::{Policy, Token, Value};

/// A quantity of an asset, of an output or minted.
pub trait Amount: Copy {
    /// The quantity as a whole number.
    ghost whole: { Self → ℤ };

    /// The quantity as JSON.
    fn to_json(self, alloc: Global) -> Result<Json, AllocError>
        ensures { IfOk result (λ json. view json ≡ json_of_whole (whole self)) };
}

/// Of an output.
impl Amount for u64 {
    ghost whole = { pos };

    fn to_json(self, alloc: Global) -> Result<Json, AllocError> {
        number_json(alloc, self)
    }
}

/// Of what is minted. What is burned is below 0.
impl Amount for i64 {
    ghost whole = { λ quantity. quantity };

    fn to_json(self, alloc: Global) -> Result<Json, AllocError> {
        whole_json(alloc, self)
    }
}

/// One asset of a policy.
fn asset_json<Q: Amount>(
    alloc: Global,
    policy: &ScriptHash,
    token: &Token<Q>,
) -> Result<Json, AllocError>
    ensures { IfOk result (λ json. view json
        ≡ json_of_asset Q.whole policy.now.bytes (token_of token.now)) }
{
    let name = bytes_json(alloc, &token.name)?;
    let policy = bytes_json(alloc, policy.as_bytes())?;
    let quantity = token.quantity.to_json(alloc)?;
    json!(in alloc; {"name": name, "policy": policy, "quantity": quantity})
}

/// Appends each asset of a policy.
fn put_tokens<Q: Amount>(
    alloc: Global,
    list: &mut Vec<Json>,
    policy: &ScriptHash,
    tokens: &[Token<Q>],
) -> Result<(), AllocError>
    ensures { OnOk result (map view list.new.items ≡ map view list.old.items
        ++ map (json_of_asset Q.whole policy.now.bytes) (map token_of tokens.now)) }
{
    for token in tokens {
        list.push(asset_json(alloc, policy, token)?)?;
    }
    Ok(())
}

/// The list of each asset of these policies.
pub fn assets_json<Q: Amount>(alloc: Global, policies: &[Policy<Q>]) -> Result<Json, AllocError>
    ensures { IfOk result (λ json. view json ≡ json_of_assets Q.whole (map policy_of policies.now)) }
{
    let mut list = Vec::new(alloc);
    for policy in policies {
        put_tokens(alloc, &mut list, &policy.id, &policy.tokens)?;
    }
    Ok(Json::Array(list))
}

/// A value.
fn value_object(alloc: Global, value: &Value) -> Result<Json, AllocError>
    ensures { IfOk result (λ json. view json ≡ json_of_value value.now) }
{
    let assets = assets_json(alloc, value.assets())?;
    let coin = number_json(alloc, value.coin())?;
    json!(in alloc; {"assets": assets, "coin": coin})
}

/// The document of a value: its `coin`, in lovelace, and its `assets`, each with its `policy`, its `name` and its
/// `quantity`, in the value's order. Err where memory runs out. Takes time and memory in proportion to the document.
pub fn value_json(alloc: Global, value: &Value) -> Result<String, AllocError>
    ensures text { IfOk result (λ text. string_bytes text ≡ document_text (json_of_value value.now)) }
    ensures reads_back { IfOk result (λ text. IsReadAs (string_bytes text) (json_of_value value.now)) }
{
    let json = value_object(alloc, value)?;
    document(alloc, &json)
}
