//! Texts that the crates write, printed as hexadecimal for another reader of CBOR.

use super::fixture::{MEMORY, boxed};
use ident::{BlockHash, KeyHash, ScriptHash, TxId};
use std::io;
use std::process::Abort;
use timelock::{Interval, Script, Timelock, Timelocks};
use tx::{Address, Credential, Input, KeyWitness, Output, Tx, TxParts};
use value::{AssetQuantity, Mint, Value};

/// The script that asks for all of a signature, one of two slots, and two of nothing: each kind once.
fn script(rt: &(impl Abort + AllocGlobal)) -> Script {
    let mut slots = Vec::new(rt.alloc());
    slots
        .push(Timelock::RequireTimeStart(24))
        .expect(rt, MEMORY);
    slots
        .push(Timelock::RequireTimeExpire(65_536))
        .expect(rt, MEMORY);
    let slots = Timelocks::from_vec(slots);
    let none = Timelocks::from_vec(Vec::new(rt.alloc()));
    let mut members = Vec::new(rt.alloc());
    members
        .push(Timelock::RequireSignature(KeyHash::of_key(&[1; 32])))
        .expect(rt, MEMORY);
    members
        .push(Timelock::RequireAnyOf(slots))
        .expect(rt, MEMORY);
    members
        .push(Timelock::RequireMOf(2, none))
        .expect(rt, MEMORY);
    let all = Timelock::RequireAllOf(Timelocks::from_vec(members));
    Script::new(rt.alloc(), all).expect(rt, "a script")
}

/// Assets of the policy: `quantity` of one name, and `other_quantity` of another.
fn assets<Q: Drop>(
    rt: &(impl Abort + AllocGlobal),
    policy: ScriptHash,
    (name, quantity): (&[u8], Q),
    (other_name, other_quantity): (&[u8], Q),
) -> Vec<AssetQuantity<Q>> {
    let mut assets = Vec::new(rt.alloc());
    let one = AssetQuantity {
        policy,
        name: Vec::from_slice(rt.alloc(), name).expect(rt, MEMORY),
        quantity,
    };
    assets.push(one).expect(rt, MEMORY);
    let other = AssetQuantity {
        policy,
        name: Vec::from_slice(rt.alloc(), other_name).expect(rt, MEMORY),
        quantity: other_quantity,
    };
    assets.push(other).expect(rt, MEMORY);
    assets
}

/// Puts an output of this value behind others, to the key of 32 bytes 01 on network 1.
fn put_output(rt: &impl Abort, outputs: &mut Vec<Output>, value: Value) {
    let key = Credential::Key(KeyHash::of_key(&[1; 32]));
    let address = Address::new(1, key).expect(rt, "a network");
    outputs.push(Output { address, value }).expect(rt, MEMORY);
}

/// The parts of a transaction with a fee, a start and an end, two inputs and a signature, and nothing else.
fn plain_parts(rt: &(impl Abort + AllocGlobal)) -> TxParts {
    let transaction = TxId::from_bytes([7; 32]);
    let mut inputs = Vec::new(rt.alloc());
    for index in [256u16, 1] {
        inputs.push(Input { transaction, index }).expect(rt, MEMORY);
    }
    let mut signatures = Vec::new(rt.alloc());
    signatures
        .push(KeyWitness::new([1; 32], [9; 64]))
        .expect(rt, MEMORY);
    TxParts {
        inputs,
        outputs: Vec::new(rt.alloc()),
        fee: 4_294_967_296,
        interval: Interval {
            start: Some(24),
            end: Some(256),
        },
        mint: Mint::nothing(rt.alloc()),
        signatures,
        scripts: Vec::new(rt.alloc()),
    }
}

/// The transaction that spends two outputs of a transaction, mints and burns, and leaves two outputs, of which one has
/// assets, 5 of the empty name and as many as can be of another; with a start and an end, a signature and the script.
fn transaction(rt: &(impl Abort + AllocGlobal)) -> Tx {
    let script = script(rt);
    let policy = script.hash();
    let held = assets(rt, policy, (b"", 5u64), (b"token", u64::MAX));
    let held = Value::new(rt.alloc(), 23, held).expect(rt, "a value");
    let minted = assets(rt, policy, (b"token", 256i64), (b"", -5i64));
    let mut parts = plain_parts(rt);
    put_output(
        rt,
        &mut parts.outputs,
        Value::of_coin(rt.alloc(), 1_000_000),
    );
    put_output(rt, &mut parts.outputs, held);
    parts.mint = Mint::new(rt.alloc(), minted).expect(rt, "a mint");
    parts.scripts.push(script).expect(rt, MEMORY);
    Tx::new(rt.alloc(), parts).expect(rt, "a transaction")
}

/// Prints the text behind its name, as hexadecimal.
fn print<R: Print>(rt: &R, name: &str, text: &[u8]) -> io::Result<()> {
    print!(rt; "{name} ")?;
    for byte in text {
        print!(rt; "{byte:02x}")?;
    }
    println!(rt;)
}

// `rt try --test` prints them.
#[test]
fn texts_for_another_reader(rt: HostRuntime) {
    let text = boxed(&rt, script(&rt)).encode().expect(&rt, MEMORY);
    print(&rt, "script", &text).expect(&rt, "output");
    let tx = boxed(&rt, transaction(&rt));
    let text = tx.encode().expect(&rt, MEMORY);
    print(&rt, "transaction", &text).expect(&rt, "output");
    let mut txs = boxed(&rt, Vec::new(rt.alloc()));
    txs.push(Box::into_inner(tx)).expect(&rt, MEMORY);
    // In slot 5 after a block of number 1.
    let previous = BlockHash::from_bytes([8; 32]);
    let text = block::write(rt.alloc(), 2, 5, Some(previous), &txs).expect(&rt, "a block");
    print(&rt, "block", &text).expect(&rt, "output");
    // As another writer of CBOR and another SHA-256 have it: it names the body's hash, so no byte differs.
    let block = boxed(&rt, block::read(rt.alloc(), &text).expect(&rt, "a block"));
    let shown = block.hash().to_string(rt.alloc()).expect(&rt, MEMORY);
    assert!(rt;
        shown.as_str() == "7584a177b65bbba9a8136e54fe6e5e8f4edc3cb52a0e7f5ae9e03e4fd7e38c13"
    );
}
