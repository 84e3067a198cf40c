//! The parameters of a request, by name.

ghost use Rattle.std.specs.Prelude.{◌≡◌, map, ok_or, option_map};
ghost use Rattle.serde_json.specs.View.{view};
ghost use Rattle.conversing.specs.declared.call_fault.CallFault.TheVariants.{InvalidParams};
ghost use Rattle.conversing.specs.Steps.{Gives};
ghost use Rattle.conversing.specs.Params.{param, number_at, hash_of, hash_at, bytes_of, bytes_at, listed};

use crate::call_fault::CallFault;
use crate::listed::MAX_LISTED;
use crate::numbers::number_of;
use hex::{FromHex, FromHexError};
use serde_json::Value;
use std::alloc::Global;

/// The parameter of this name.
#[tactic(auto, unfolding(crate::specs::Params::param))]
pub fn param<'v>(request: &'v Value, name: &str) -> Option<&'v Value>
    ensures { option_map (λ value. view value.now) result ≡ param name.now (view request.now) }
{
    request.get("params")?.get(name)
}

/// The number at a name.
#[tactic(auto, unfolding(crate::specs::Params::number_at))]
pub fn number_at(request: &Value, name: &str) -> Option<u64>
    ensures { result ≡ number_at name.now (view request.now) }
{
    number_of(param(request, name)?)
}

/// The 32 bytes that a text of 64 hexadecimal digits spells, in either case.
#[tactic(auto, unfolding(crate::specs::Params::hash_of))]
pub fn hash_of(value: &Value) -> Option<[u8; 32]>
    ensures { result ≡ hash_of (view value.now) }
{
    <[u8; 32]>::from_hex(value.as_str()?).ok()
}

/// The 32 bytes at a name.
#[tactic(auto, unfolding(crate::specs::Params::hash_at))]
pub fn hash_at(request: &Value, name: &str) -> Option<[u8; 32]>
    ensures { result ≡ hash_at name.now (view request.now) }
{
    hash_of(param(request, name)?)
}

/// The bytes that a text of hexadecimal digits spells, in either case.
#[tactic(auto, unfolding(crate::specs::Params::bytes_of))]
pub fn bytes_of(alloc: Global, value: &Value) -> Result<Vec<u8>, CallFault>
    ensures { Gives (λ bytes. bytes.items) result (ok_or (bytes_of (view value.now)) InvalidParams) }
{
    let Some(digits) = value.as_str() else {
        return Err(CallFault::InvalidParams);
    };
    match hex::decode(alloc, digits) {
        Ok(bytes) => Ok(bytes),
        Err(FromHexError::OutOfMemory) => Err(CallFault::OutOfMemory),
        Err(_) => Err(CallFault::InvalidParams),
    }
}

/// The bytes at a name.
#[tactic(auto, unfolding(crate::specs::Params::bytes_at))]
pub fn bytes_at(alloc: Global, request: &Value, name: &str) -> Result<Vec<u8>, CallFault>
    ensures { Gives (λ bytes. bytes.items) result (ok_or (bytes_at name.now (view request.now)) InvalidParams) }
{
    match param(request, name) {
        Some(value) => bytes_of(alloc, value),
        None => Err(CallFault::InvalidParams),
    }
}

/// The values of the array at a name, if they are at most 1,000.
#[tactic(auto, unfolding(crate::specs::Params::listed))]
pub fn listed<'v>(request: &'v Value, name: &str) -> Option<&'v Vec<Value>>
    ensures { option_map (λ values. map view values.now.items) result ≡ listed name.now (view request.now) }
{
    let values = param(request, name)?.as_array()?;
    if values.len() > MAX_LISTED {
        return None;
    }
    Some(values)
}
