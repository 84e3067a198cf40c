//! Lists of parameters.

ghost use Rattle.std.specs.Prelude.{◌≡◌, List, Option, ℕ, map, ok_or};
ghost use Rattle.serde_json.specs.Data.{Data};
ghost use Rattle.serde_json.specs.View.{view};
ghost use Rattle.conversing.specs.declared.call_fault.CallFault.TheVariants.{InvalidParams};
ghost use Rattle.conversing.specs.Steps.{Gives, each};
ghost use Rattle.conversing.specs.Params.{bytes_of, list_at};

use crate::call_fault::CallFault;
use crate::params::{bytes_of, listed};
use serde_json::Value;
use std::alloc::Global;

/// How many values a list of parameters has at most.
pub const MAX_LISTED: usize = 1_000;

/// What a value is read to, as a member of a list.
pub trait Listed: Drop {
    /// The plain data that a value stands for.
    ghost Plain: { Type 0 };

    /// What a value stands for.
    ghost plain: { Self → Plain };

    /// What a JSON value is read to.
    ghost read_as: { Data → Option Plain };

    /// Reads a JSON value. InvalidParams where it is another.
    fn read(alloc: Global, value: &Value) -> Result<Self, CallFault>
        ensures { Gives plain result (ok_or (read_as (view value.now)) InvalidParams) };
}

/// Addresses are listed as their bytes, spelled by hexadecimal digits.
impl Listed for Vec<u8> {
    ghost Plain = { List ℕ };

    ghost plain = { λ bytes. bytes.items };

    ghost read_as = { bytes_of };

    fn read(alloc: Global, value: &Value) -> Result<Vec<u8>, CallFault> {
        bytes_of(alloc, value)
    }
}

/// What each value is read to.
fn each_of<T: Listed>(alloc: Global, values: &Vec<Value>) -> Result<Vec<T>, CallFault>
    ensures { Gives (λ list. map T.plain list.items) result
        (ok_or (each T.read_as (map view values.now.items)) InvalidParams) }
{
    let mut list = Vec::with_capacity(alloc, values.len())?;
    for value in values {
        let one = T::read(alloc, value)?;
        list.push(one)?;
    }
    Ok(list)
}

/// What each value of the list at a name is read to. InvalidParams where there are more than 1,000.
#[tactic(auto, unfolding(crate::specs::Params::list_at))]
pub fn list_at<T: Listed>(alloc: Global, request: &Value, name: &str) -> Result<Vec<T>, CallFault>
    ensures { Gives (λ list. map T.plain list.items) result
        (ok_or (list_at T.read_as name.now (view request.now)) InvalidParams) }
{
    match listed(request, name) {
        Some(values) => each_of(alloc, values),
        None => Err(CallFault::InvalidParams),
    }
}
