//! Native scripts. Recursion goes down the nesting alone, which is at most 64 in a script's text.

ghost use Rattle.std.specs.Prelude.{◌≡◌, ◌≤◌, IfOk, string_bytes};
ghost use Rattle.serde_json.specs.Data.{array};
ghost use Rattle.serde_json.specs.View.{items_of, view};
ghost use Rattle.model.specs.Cbor.{nesting};
ghost use Rattle.model.specs.Limits.{nesting_limit};
ghost use Rattle.model.specs.Script.{item_of_script};
ghost use Rattle.timelock.specs.View.{timelock_of, timelocks_of};
ghost use Rattle.describing.specs.Documents.{document_text, IsReadAs};
ghost use Rattle.describing.specs.Scripts.{json_of_condition, json_of_script, jsons_of_conditions};

use crate::documents::document;
use crate::parts::{bytes_json, number_json};
use serde_json::{Value as Json, json};
use std::alloc::{AllocError, Global};
use timelock::{Script, Timelock};

/// The list of what each of these asks for.
#[cycle(conditions)]
fn members_json(alloc: Global, members: &[Timelock]) -> Result<Json, AllocError>
    ensures { IfOk result (λ json. view json ≡ array (items_of (jsons_of_conditions (timelocks_of members.now)))) }
{
    let mut list = Vec::new(alloc);
    for member in members {
        list.push(condition_json(alloc, member)?)?;
    }
    Ok(Json::Array(list))
}

/// What a timelock asks for.
#[cycle(conditions)]
fn condition_json(alloc: Global, timelock: &Timelock) -> Result<Json, AllocError>
    ensures { IfOk result (λ json. view json ≡ json_of_condition (timelock_of timelock.now)) }
{
    match timelock {
        Timelock::RequireSignature(hash) => {
            let key = bytes_json(alloc, hash.as_bytes())?;
            json!(in alloc; {"key": key})
        }
        Timelock::RequireAllOf(members) => {
            let all = members_json(alloc, members.as_slice())?;
            json!(in alloc; {"all": all})
        }
        Timelock::RequireAnyOf(members) => {
            let any = members_json(alloc, members.as_slice())?;
            json!(in alloc; {"any": any})
        }
        Timelock::RequireMOf(least, members) => {
            let least = number_json(alloc, *least)?;
            let of = members_json(alloc, members.as_slice())?;
            json!(in alloc; {"at_least": least, "of": of})
        }
        Timelock::RequireTimeStart(slot) => {
            let starts = number_json(alloc, *slot)?;
            json!(in alloc; {"starts": starts})
        }
        Timelock::RequireTimeExpire(slot) => {
            let ends = number_json(alloc, *slot)?;
            json!(in alloc; {"ends": ends})
        }
    }
}

/// A script.
pub fn script_object(alloc: Global, script: &Script) -> Result<Json, AllocError>
    ensures { IfOk result (λ json. view json ≡ json_of_script script.now) }
{
    let condition = condition_json(alloc, script.timelock())?;
    let hash = bytes_json(alloc, script.hash().as_bytes())?;
    json!(in alloc; {"condition": condition, "hash": hash})
}

/// The document of a script: its `hash`, and its `condition`. That is `key` with the hash of a key that is to sign,
/// `starts` or `ends` with a slot for an interval that starts at the slot or later or that ends at it or before, `all`
/// or `any` with a list of conditions, or `at_least` with how many of the conditions `of` a list are to hold. Err where
/// memory runs out. Takes time and memory in proportion to the document.
pub fn script_json(alloc: Global, script: &Script) -> Result<String, AllocError>
    ensures text { IfOk result (λ text. string_bytes text ≡ document_text (json_of_script script.now)) }
    // Of each script `Script::nesting` says that it nests so.
    ensures reads_back { IfOk result (λ text. nesting (item_of_script script.now) ≤ nesting_limit
        → IsReadAs (string_bytes text) (json_of_script script.now)) }
{
    let json = script_object(alloc, script)?;
    document(alloc, &json)
}
