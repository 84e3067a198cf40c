//! Transactions, with the verdicts on them.

ghost use Rattle.std.specs.Prelude.{◌≡◌, ◌≤◌, IfOk, OnOk, map, string_bytes};
ghost use Rattle.serde_json.specs.View.{view, members_view};
ghost use Rattle.model.specs.Cbor.{nesting};
ghost use Rattle.model.specs.Limits.{nesting_limit};
ghost use Rattle.model.specs.Transaction.{item_of_transaction};
ghost use Rattle.tx.specs.View.{address_of, input_of, output_of, witness_of};
ghost use Rattle.describing.specs.Assembled.{body_members, put_all, witness_members};
ghost use Rattle.describing.specs.Documents.{document_text, IsReadAs};
ghost use Rattle.describing.specs.Parts.{json_list};
ghost use Rattle.describing.specs.Scripts.{json_of_script};
ghost use Rattle.describing.specs.Transactions.{json_of_address, json_of_input, json_of_output, json_of_payment};
ghost use Rattle.describing.specs.Transactions.{json_of_signature, json_of_transaction};

use crate::documents::document;
use crate::parts::{bytes_json, number_json, put_bytes, put_given, put_number};
use crate::scripts::script_object;
use crate::values::assets_json;
use serde_json::{Map, Value as Json, json};
use std::alloc::{AllocError, Global};
use timelock::Script;
use tx::{Address, Credential, Input, KeyWitness, Output, Tx};
use witness_pool::{CheckedTx, SigScheme};

/// An input.
fn input_json(alloc: Global, input: &Input) -> Result<Json, AllocError>
    ensures { IfOk result (λ json. view json ≡ json_of_input (input_of input.now)) }
{
    let index = number_json(alloc, u64::from(input.index))?;
    let transaction = bytes_json(alloc, input.transaction.as_bytes())?;
    json!(in alloc; {"index": index, "transaction": transaction})
}

/// The list of these inputs.
fn inputs_json(alloc: Global, inputs: &[Input]) -> Result<Json, AllocError>
    ensures { IfOk result (λ json. view json ≡ json_list json_of_input (map input_of inputs.now)) }
{
    let mut list = Vec::new(alloc);
    for input in inputs {
        list.push(input_json(alloc, input)?)?;
    }
    Ok(Json::Array(list))
}

/// An address by its parts.
fn payment_json(alloc: Global, network: u8, kind: &str, hash: &[u8; 32]) -> Result<Json, AllocError>
    ensures { IfOk result (λ json. view json ≡ json_of_payment network kind.now hash.now) }
{
    let hash = bytes_json(alloc, hash)?;
    let network = number_json(alloc, u64::from(network))?;
    json!(in alloc; {"hash": hash, "kind": kind, "network": network})
}

/// An address.
pub fn address_json(alloc: Global, address: &Address) -> Result<Json, AllocError>
    ensures { IfOk result (λ json. view json ≡ json_of_address (address_of address.now)) }
{
    let network = address.network();
    match address.payment() {
        Credential::Key(hash) => payment_json(alloc, network, "key", hash.as_bytes()),
        Credential::Script(hash) => payment_json(alloc, network, "script", hash.as_bytes()),
    }
}

/// An output.
fn output_json(alloc: Global, output: &Output) -> Result<Json, AllocError>
    ensures { IfOk result (λ json. view json ≡ json_of_output (output_of output.now)) }
{
    let address = address_json(alloc, &output.address)?;
    let assets = assets_json(alloc, output.value.assets())?;
    let coin = number_json(alloc, output.value.coin())?;
    json!(in alloc; {"address": address, "assets": assets, "coin": coin})
}

/// The list of these outputs.
fn outputs_json(alloc: Global, outputs: &[Output]) -> Result<Json, AllocError>
    ensures { IfOk result (λ json. view json ≡ json_list json_of_output (map output_of outputs.now)) }
{
    let mut list = Vec::new(alloc);
    for output in outputs {
        list.push(output_json(alloc, output)?)?;
    }
    Ok(Json::Array(list))
}

/// A signature of this message. Asks the scheme once.
fn signature_json<S: SigScheme>(
    alloc: Global,
    message: &[u8; 32],
    witness: &KeyWitness,
) -> Result<Json, AllocError>
    ensures { IfOk result (λ json. view json
        ≡ json_of_signature S.verifies message.now (witness_of witness.now)) }
{
    let good = S::verify(&witness.key, message, &witness.signature);
    let key = bytes_json(alloc, &witness.key)?;
    json!(in alloc; {"good": good, "key": key})
}

/// The list of these signatures of this message.
fn signatures_json<S: SigScheme>(
    alloc: Global,
    message: &[u8; 32],
    signatures: &[KeyWitness],
) -> Result<Json, AllocError>
    ensures { IfOk result (λ json. view json
        ≡ json_list (json_of_signature S.verifies message.now) (map witness_of signatures.now)) }
{
    let mut list = Vec::new(alloc);
    for witness in signatures {
        list.push(signature_json::<S>(alloc, message, witness)?)?;
    }
    Ok(Json::Array(list))
}

/// The list of these scripts.
fn scripts_json(alloc: Global, scripts: &[Script]) -> Result<Json, AllocError>
    ensures { IfOk result (λ json. view json ≡ json_list json_of_script scripts.now) }
{
    let mut list = Vec::new(alloc);
    for script in scripts {
        list.push(script_object(alloc, script)?)?;
    }
    Ok(Json::Array(list))
}

/// Puts a transaction's body into an object.
fn put_body(alloc: Global, object: &mut Map<String, Json>, tx: &Tx) -> Result<(), AllocError>
    ensures { OnOk result (members_view object.new.entries
        ≡ put_all (body_members tx.now) (members_view object.old.entries)) }
{
    let interval = tx.interval();
    serde_json::put(object, alloc, "inputs", inputs_json(alloc, tx.inputs())?)?;
    serde_json::put(object, alloc, "outputs", outputs_json(alloc, tx.outputs())?)?;
    put_number(alloc, object, "fee", tx.fee())?;
    put_given(alloc, object, "start", interval.start)?;
    put_given(alloc, object, "end", interval.end)?;
    serde_json::put(
        object,
        alloc,
        "mint",
        assets_json(alloc, tx.mint().policies())?,
    )
}

/// Puts a transaction's witness set into an object, with the verdicts on it.
fn put_witnesses<S: SigScheme>(
    alloc: Global,
    object: &mut Map<String, Json>,
    checked: &CheckedTx<S>,
) -> Result<(), AllocError>
    ensures { OnOk result (members_view object.new.entries
        ≡ put_all (witness_members S.verifies checked.now) (members_view object.old.entries)) }
{
    let tx = checked.tx();
    let signatures = signatures_json::<S>(alloc, tx.id().as_bytes(), tx.signatures())?;
    serde_json::put(object, alloc, "signatures", signatures)?;
    serde_json::put(object, alloc, "scripts", scripts_json(alloc, tx.scripts())?)?;
    serde_json::put(
        object,
        alloc,
        "scripts_hold",
        Json::Bool(checked.scripts_hold()),
    )
}

/// A transaction.
pub fn transaction_object<S: SigScheme>(
    alloc: Global,
    checked: &CheckedTx<S>,
) -> Result<Json, AllocError>
    ensures is { IfOk result (λ json. view json ≡ json_of_transaction S.verifies checked.now) }
    ensures nests { IfOk result (λ _. nesting (item_of_transaction checked.now) ≤ nesting_limit) }
{
    let tx = checked.tx();
    let mut object = Map::new(alloc);
    put_bytes(alloc, &mut object, "id", tx.id().as_bytes())?;
    put_number(alloc, &mut object, "size", tx.size())?;
    put_body(alloc, &mut object, tx)?;
    put_witnesses(alloc, &mut object, checked)?;
    Ok(Json::Object(object))
}

/// The document of a transaction: its `id`; its `size`, in bytes; its `inputs`, each with the identifier of a
/// `transaction` and an `index`; its `outputs`, each with an `address`, a `coin` and `assets` as a value has them; its
/// `fee`, in lovelace; the slots `start` and `end`, `null` where none is given; `mint`, the assets that are minted,
/// with a quantity below 0 where they are burned; its `signatures`, each with its `key` and whether it is `good` by the
/// scheme; its `scripts`; and whether they all hold, `scripts_hold`. An address has the `kind` `key` or `script`, its
/// `network`, and the `hash` of that key or script. Err where memory runs out. Takes time and memory in proportion to
/// the document, and asks the scheme once for each signature.
pub fn transaction_json<S: SigScheme>(
    alloc: Global,
    tx: &CheckedTx<S>,
) -> Result<String, AllocError>
    ensures text { IfOk result (λ text. string_bytes text
        ≡ document_text (json_of_transaction S.verifies tx.now)) }
    ensures reads_back { IfOk result (λ text. IsReadAs (string_bytes text)
        (json_of_transaction S.verifies tx.now)) }
{
    let json = transaction_object(alloc, tx)?;
    document(alloc, &json)
}
