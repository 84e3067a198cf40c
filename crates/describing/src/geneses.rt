//! What a network agrees on before its first block.

ghost use Rattle.std.specs.Prelude.{◌≡◌, IfOk, OnOk, map, string_bytes};
ghost use Rattle.serde_json.specs.View.{view, members_view};
ghost use Rattle.genesis.specs.View.{grant_view};
ghost use Rattle.describing.specs.Assembled.{limits_members, params_members, put_all};
ghost use Rattle.describing.specs.Documents.{document_text, IsReadAs};
ghost use Rattle.describing.specs.Geneses.{json_of_genesis, json_of_grant};
ghost use Rattle.describing.specs.Parts.{json_list};

use crate::documents::document;
use crate::parts::{number_json, put_given, put_number, put_text};
use crate::transactions::address_json;
use genesis::{Genesis, GenesisDocument, Grant};
use serde_json::{Map, Value as Json, json};
use std::alloc::{AllocError, Global};

/// Puts what a genesis asks of transactions and of bodies into an object.
fn put_params(
    alloc: Global,
    object: &mut Map<String, Json>,
    genesis: &Genesis,
) -> Result<(), AllocError>
    ensures { OnOk result (members_view object.new.entries
        ≡ put_all (params_members genesis.now.params) (members_view object.old.entries)) }
{
    let era = genesis.second_era();
    put_number(alloc, object, "min_fee_a", genesis.min_fee_a())?;
    put_number(alloc, object, "min_fee_b", genesis.min_fee_b())?;
    put_number(alloc, object, "min_utxo", genesis.min_utxo())?;
    put_number(alloc, object, "max_tx_size", genesis.max_tx_size())?;
    put_number(alloc, object, "max_body_size", genesis.max_body_size())?;
    put_given(alloc, object, "era2_slot", era.map(|era| era.first_slot))?;
    put_given(alloc, object, "per_asset", era.map(|era| era.per_asset))
}

/// Puts how much a node keeps into an object.
fn put_limits(
    alloc: Global,
    object: &mut Map<String, Json>,
    genesis: &Genesis,
) -> Result<(), AllocError>
    ensures { OnOk result (members_view object.new.entries
        ≡ put_all (limits_members genesis.now) (members_view object.old.entries)) }
{
    put_number(alloc, object, "k", genesis.k())?;
    put_number(alloc, object, "max_volatile", genesis.max_volatile())?;
    put_given(
        alloc,
        object,
        "max_volatile_bytes",
        genesis.max_volatile_bytes(),
    )?;
    put_number(alloc, object, "max_mempool", genesis.max_mempool())
}

/// An output.
fn grant_json(alloc: Global, grant: &Grant) -> Result<Json, AllocError>
    ensures { IfOk result (λ json. view json ≡ json_of_grant (grant_view grant.now)) }
{
    let address = address_json(alloc, &grant.address)?;
    let coin = number_json(alloc, grant.coin)?;
    json!(in alloc; {"address": address, "coin": coin})
}

/// The list of these outputs.
fn grants_json(alloc: Global, grants: &[Grant]) -> Result<Json, AllocError>
    ensures { IfOk result (λ json. view json ≡ json_list json_of_grant (map grant_view grants.now)) }
{
    let mut list = Vec::new(alloc);
    for grant in grants {
        list.push(grant_json(alloc, grant)?)?;
    }
    Ok(Json::Array(list))
}

/// A genesis.
fn genesis_object(alloc: Global, document: &GenesisDocument) -> Result<Json, AllocError>
    ensures { IfOk result (λ json. view json ≡ json_of_genesis document.now.scheme document.now.genesis) }
{
    let genesis = &document.genesis;
    let outputs = grants_json(alloc, genesis.outputs())?;
    let mut object = Map::new(alloc);
    put_number(alloc, &mut object, "network", u64::from(genesis.network()))?;
    put_text(alloc, &mut object, "scheme", document.scheme.name())?;
    put_params(alloc, &mut object, genesis)?;
    put_limits(alloc, &mut object, genesis)?;
    put_number(alloc, &mut object, "supply", genesis.supply())?;
    serde_json::put(&mut object, alloc, "outputs", outputs)?;
    Ok(Json::Object(object))
}

/// The document of a genesis, by the names of its file's keys: its `network`, its `scheme`, what it asks of
/// transactions and of bodies, how much a node keeps, the `supply`, all lovelace that there is, and its `outputs`, each
/// with an `address` and a `coin`. A number that may be left out is `null` where it is. Err where memory runs out.
/// Takes time and memory in proportion to the document.
pub fn genesis_json(alloc: Global, given: &GenesisDocument) -> Result<String, AllocError>
    ensures text { IfOk result (λ text. string_bytes text
        ≡ document_text (json_of_genesis given.now.scheme given.now.genesis)) }
    ensures reads_back { IfOk result (λ text. IsReadAs (string_bytes text)
        (json_of_genesis given.now.scheme given.now.genesis)) }
{
    let json = genesis_object(alloc, given)?;
    document(alloc, &json)
}
