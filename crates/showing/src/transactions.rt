//! Transactions, with the verdicts on them.

ghost use Rattle.std.specs.Prelude.{◌≡◌, ◌++◌, [], IfOk, OnOk, flat_map, map, string_bytes};
ghost use Rattle.timelock.specs.View.{interval_of};
ghost use Rattle.tx.specs.View.{address_of, input_of, output_of, witness_of};
ghost use Rattle.showing.specs.Scripts.{lines_of_script};
ghost use Rattle.showing.specs.Transactions.{address_line, input_line, lines_of_body, lines_of_interval};
ghost use Rattle.showing.specs.Transactions.{lines_of_output, lines_of_outputs, lines_of_transaction};
ghost use Rattle.showing.specs.Transactions.{judged_line, lines_of_witnesses, signature_line, slot_line};

use crate::lines::{inner_margin, put_id, put_number, put_verdict};
use crate::scripts::put_script;
use crate::values::{put_assets, put_value};
use ident::Hex;
use std::alloc::{AllocError, Global};
use timelock::{Interval, Script};
use tx::{Address, Credential, Input, KeyWitness, Output, Tx};
use witness_pool::{CheckedTx, SigScheme};

/// Appends the line of an input.
fn put_input(out: &mut String, margin: &str, input: &Input) -> Result<(), AllocError>
    ensures { OnOk result (string_bytes out.new ≡ string_bytes out.old ++ input_line margin.now (input_of input.now)) }
{
    let transaction = input.transaction;
    let index = input.index;
    write!(out, "{margin}input {transaction}#{index}\n")
}

/// Appends the line of each of these inputs.
fn put_inputs(out: &mut String, margin: &str, inputs: &[Input]) -> Result<(), AllocError>
    ensures { OnOk result (string_bytes out.new ≡ string_bytes out.old
        ++ flat_map (input_line margin.now) (map input_of inputs.now)) }
{
    for input in inputs {
        put_input(out, margin, input)?;
    }
    Ok(())
}

/// Appends the line of an address.
pub fn put_address(out: &mut String, margin: &str, address: &Address) -> Result<(), AllocError>
    ensures { OnOk result (string_bytes out.new ≡ string_bytes out.old
        ++ address_line margin.now (address_of address.now)) }
{
    let network = address.network();
    match address.payment() {
        Credential::Key(hash) => write!(out, "{margin}address key {network} {hash}\n"),
        Credential::Script(hash) => write!(out, "{margin}address script {network} {hash}\n"),
    }
}

/// Appends the lines of the output at this place.
fn put_output(
    alloc: Global,
    out: &mut String,
    margin: &str,
    place: u64,
    output: &Output,
) -> Result<(), AllocError>
    ensures { OnOk result (string_bytes out.new ≡ string_bytes out.old
        ++ lines_of_output margin.now place (output_of output.now)) }
{
    put_number(out, margin, "output", place)?;
    let inner = inner_margin(alloc, margin)?;
    put_address(out, inner.as_str(), &output.address)?;
    put_value(out, inner.as_str(), &output.value)
}

/// Appends the lines of each of these outputs, whose places are counted from 0 on.
fn put_outputs(
    alloc: Global,
    out: &mut String,
    margin: &str,
    outputs: &[Output],
) -> Result<(), AllocError>
    ensures { OnOk result (string_bytes out.new ≡ string_bytes out.old
        ++ lines_of_outputs margin.now 0 (map output_of outputs.now)) }
{
    for (place, output) in outputs.iter().enumerate() {
        put_output(alloc, out, margin, place as u64, output)?;
    }
    Ok(())
}

/// Appends the line of a slot, where one is given.
fn put_slot(out: &mut String, margin: &str, word: &str, slot: Option<u64>) -> Result<(), AllocError>
    ensures { OnOk result (string_bytes out.new ≡ string_bytes out.old ++ slot_line margin.now word.now slot) }
{
    match slot {
        Some(slot) => put_number(out, margin, word, slot),
        None => Ok(()),
    }
}

/// Appends the lines of an interval.
fn put_interval(out: &mut String, margin: &str, interval: Interval) -> Result<(), AllocError>
    ensures { OnOk result (string_bytes out.new ≡ string_bytes out.old
        ++ lines_of_interval margin.now (interval_of interval)) }
{
    put_slot(out, margin, "end", interval.end)?;
    put_slot(out, margin, "start", interval.start)
}

/// Appends the lines of a transaction's body.
fn put_body(alloc: Global, out: &mut String, margin: &str, tx: &Tx) -> Result<(), AllocError>
    ensures { OnOk result (string_bytes out.new ≡ string_bytes out.old ++ lines_of_body margin.now tx.now) }
{
    put_inputs(out, margin, tx.inputs())?;
    put_outputs(alloc, out, margin, tx.outputs())?;
    put_number(out, margin, "fee", tx.fee())?;
    put_interval(out, margin, tx.interval())?;
    put_assets(out, margin, "mint", tx.mint().policies())
}

/// Appends the line of a key that signed, with this verdict.
fn put_judged(out: &mut String, margin: &str, key: &[u8; 32], good: bool) -> Result<(), AllocError>
    ensures { OnOk result (string_bytes out.new ≡ string_bytes out.old ++ judged_line margin.now key.now good) }
{
    let key = Hex(key);
    if good {
        write!(out, "{margin}signature {key} good\n")
    } else {
        write!(out, "{margin}signature {key} bad\n")
    }
}

/// Appends the line of a signature of this message. Asks the scheme once.
fn put_signature<S: SigScheme>(
    out: &mut String,
    margin: &str,
    message: &[u8; 32],
    witness: &KeyWitness,
) -> Result<(), AllocError>
    ensures { OnOk result (string_bytes out.new ≡ string_bytes out.old
        ++ signature_line S.verifies margin.now message.now (witness_of witness.now)) }
{
    let good = S::verify(&witness.key, message, &witness.signature);
    put_judged(out, margin, &witness.key, good)
}

/// Appends the line of each of these signatures of this message.
fn put_signatures<S: SigScheme>(
    out: &mut String,
    margin: &str,
    message: &[u8; 32],
    signatures: &[KeyWitness],
) -> Result<(), AllocError>
    ensures { OnOk result (string_bytes out.new ≡ string_bytes out.old
        ++ flat_map (signature_line S.verifies margin.now message.now) (map witness_of signatures.now)) }
{
    for witness in signatures {
        put_signature::<S>(out, margin, message, witness)?;
    }
    Ok(())
}

/// Appends the lines of each of these scripts.
fn put_scripts(
    alloc: Global,
    out: &mut String,
    margin: &str,
    scripts: &[Script],
) -> Result<(), AllocError>
    ensures { OnOk result (string_bytes out.new ≡ string_bytes out.old
        ++ flat_map (lines_of_script margin.now) scripts.now) }
{
    for script in scripts {
        put_script(alloc, out, margin, script)?;
    }
    Ok(())
}

/// Appends the lines of a transaction's witness set, with the verdicts on it.
fn put_witnesses<S: SigScheme>(
    alloc: Global,
    out: &mut String,
    margin: &str,
    checked: &CheckedTx<S>,
) -> Result<(), AllocError>
    ensures { OnOk result (string_bytes out.new ≡ string_bytes out.old
        ++ lines_of_witnesses S.verifies margin.now checked.now) }
{
    let tx = checked.tx();
    let id = tx.id();
    let holding = checked.scripts_hold();
    put_signatures::<S>(out, margin, id.as_bytes(), tx.signatures())?;
    put_scripts(alloc, out, margin, tx.scripts())?;
    put_verdict(out, margin, holding, "scripts hold", "scripts fail")
}

/// Appends the lines of a transaction.
pub fn put_transaction<S: SigScheme>(
    alloc: Global,
    out: &mut String,
    margin: &str,
    checked: &CheckedTx<S>,
) -> Result<(), AllocError>
    ensures { OnOk result (string_bytes out.new ≡ string_bytes out.old
        ++ lines_of_transaction S.verifies margin.now checked.now) }
{
    let tx = checked.tx();
    put_id(out, margin, "transaction", &tx.id())?;
    put_number(out, margin, "size", tx.size())?;
    put_body(alloc, out, margin, tx)?;
    put_witnesses(alloc, out, margin, checked)
}

/// The lines of a transaction, in the order of its text: `transaction ID`; `size N`, in bytes; `input ID#N` for each
/// input; `output N` for each output, N being its place, and indented under it `address key NETWORK HASH` or `address
/// script NETWORK HASH`, and the lines of its value; `fee N`, in lovelace; `end N` and `start N`, each where one is
/// given; `mint POLICY NAME N` for each asset that is minted, with a minus sign where it is burned; `signature KEY
/// good` or `signature KEY bad` for each signature, by the scheme; and the lines of each script, and `scripts hold`
/// where all do or `scripts fail`. Err where memory runs out. Takes time and memory in proportion to the lines, and
/// asks the scheme once for each signature.
pub fn show_transaction<S: SigScheme>(
    alloc: Global,
    tx: &CheckedTx<S>,
) -> Result<String, AllocError>
    ensures { IfOk result (λ lines. string_bytes lines ≡ lines_of_transaction S.verifies [] tx.now) }
{
    let mut lines = String::new(alloc);
    put_transaction(alloc, &mut lines, "", tx)?;
    Ok(lines)
}
