//! Transactions that are made of parts in any order, and parts that are refused.

use super::fixture::{KEY_HASH, MEMORY, NINES, ONES, TWOS, ZEROS, boxed, check, hex, is_spelled};
use super::scripts::nested;
use super::transactions::{MINTING, PAYING, PAYING_BODY, has_text};
use ident::{KeyHash, ScriptHash, TxId};
use std::process::Abort;
use timelock::{Interval, Script, Timelock, Timelocks};
use tx::{Address, Credential, Input, KeyWitness, Output, PartsFault, Tx, TxParts};
use value::{AssetQuantity, Mint, Value};

/// Place 0 to 65,535 of the transaction of 32 zero bytes.
fn input(index: u16) -> Input {
    Input {
        transaction: TxId::from_bytes([0; 32]),
        index,
    }
}

/// What the key of 32 bytes of one kind made.
fn witness(key: u8, signature: u8) -> KeyWitness {
    KeyWitness::new([key; 32], [signature; 64])
}

/// Some parts of a transaction.
#[derive(Clone, Copy)]
struct Told {
    /// The places of the inputs.
    inputs: &'static [u16],
    /// The signatures, each by the bytes that its key and it are made of.
    signatures: &'static [(u8, u8)],
    /// How many outputs of 910 lovelace to the key of 32 bytes 01 there are.
    outputs: u64,
    /// Whether 5 of a policy are minted, and left with 800 lovelace for a fee of 400.
    mints: bool,
    /// The slots in which the transaction holds.
    slots: Option<(u64, u64)>,
    /// The scripts, each by how many that ask for all of one stand in one another; 0 is the one that asks for any of
    /// none.
    scripts: &'static [usize],
}

/// One input, one signature and nothing else.
const LEAST: Told = Told {
    inputs: &[0],
    signatures: &[(1, 9)],
    outputs: 0,
    mints: false,
    slots: None,
    scripts: &[],
};

/// The address of the key of 32 bytes 01.
fn address(rt: &impl Abort) -> Address {
    let key = Credential::Key(KeyHash::of_key(&[1; 32]));
    Address::new(0, key).expect(rt, "a network")
}

/// Inputs, a fee of 290, slots and signatures, and nothing else.
fn plain_parts(rt: &(impl Abort + AllocGlobal), told: &Told) -> TxParts {
    let mut inputs = Vec::new(rt.alloc());
    for index in told.inputs {
        inputs.push(input(*index)).expect(rt, MEMORY);
    }
    let mut signatures = Vec::new(rt.alloc());
    for (key, signature) in told.signatures {
        signatures
            .push(witness(*key, *signature))
            .expect(rt, MEMORY);
    }
    let (start, end) = match told.slots {
        Some((start, end)) => (Some(start), Some(end)),
        None => (None, None),
    };
    TxParts {
        inputs,
        outputs: Vec::new(rt.alloc()),
        fee: 290,
        interval: Interval { start, end },
        mint: Mint::nothing(rt.alloc()),
        signatures,
        scripts: Vec::new(rt.alloc()),
    }
}

/// Puts an output of this value into parts, to the key of 32 bytes 01.
fn put_output(rt: &impl Abort, parts: &mut TxParts, value: Value) {
    let address = address(rt);
    parts
        .outputs
        .push(Output { address, value })
        .expect(rt, MEMORY);
}

/// 5 of the empty name under the policy of the script that asks for all of none.
fn five<Q: Drop>(rt: &(impl Abort + AllocGlobal), five: Q) -> Vec<AssetQuantity<Q>> {
    let mut assets = Vec::new(rt.alloc());
    let asset = AssetQuantity {
        policy: ScriptHash::of_script(b"\x82\x01\x80"),
        name: Vec::new(rt.alloc()),
        quantity: five,
    };
    assets.push(asset).expect(rt, MEMORY);
    assets
}

/// A script of the table of scripts above.
fn script(rt: &(impl Abort + AllocGlobal), deep: usize) -> Script {
    if deep > 0 {
        return nested(rt.alloc(), deep).expect(rt, "a script");
    }
    let none = Timelocks::from_vec(Vec::new(rt.alloc()));
    Script::new(rt.alloc(), Timelock::RequireAnyOf(none)).expect(rt, "a script")
}

/// The parts that are told.
fn parts_of(rt: &(impl Abort + AllocGlobal), told: &Told) -> TxParts {
    let mut parts = plain_parts(rt, told);
    for _ in 0..told.outputs {
        put_output(rt, &mut parts, Value::of_coin(rt.alloc(), 910));
    }
    if told.mints {
        parts.fee = 400;
        parts.mint = Mint::new(rt.alloc(), five(rt, 5i64)).expect(rt, "a mint");
        let value = Value::new(rt.alloc(), 800, five(rt, 5u64)).expect(rt, "a value");
        put_output(rt, &mut parts, value);
    }
    for deep in told.scripts {
        parts.scripts.push(script(rt, *deep)).expect(rt, MEMORY);
    }
    parts
}

/// The transaction of those parts.
fn made(rt: &(impl Abort + AllocGlobal), told: &Told) -> Box<Tx> {
    boxed(
        rt,
        Tx::new(rt.alloc(), parts_of(rt, told)).expect(rt, "a transaction"),
    )
}

/// The identifiers of the payment and of the minting.
pub const PAYING_ID: &str = "afd9fff1a7c82f9259b208652b718624b06a4648eaca7288e41ea8f5646e34e1";

pub const MINTING_ID: &str = "f143dbd2fb9e4515b656d1eb3f8d5e31895568564f31644e0520ba08ef31907f";

/// Three inputs, two signatures, two scripts and two slots, in an order of their own.
const ONE_ORDER: Told = Told {
    inputs: &[2, 256, 1],
    signatures: &[(1, 9), (2, 9)],
    outputs: 1,
    mints: false,
    slots: Some((7, 9)),
    scripts: &[0, 1],
};

/// The same in another order.
const OTHER_ORDER: Told = Told {
    inputs: &[256, 2, 1],
    signatures: &[(2, 9), (1, 9)],
    scripts: &[1, 0],
    ..ONE_ORDER
};

/// The text of both.
const IN_ORDER: &[&str] = &[
    "83 a5 00 83 825820",
    ZEROS,
    "01 825820",
    ZEROS,
    "02 825820",
    ZEROS,
    "190100 0181 82582160",
    KEY_HASH,
    "19038e 02190122 0309 0807 a2 0082 825820",
    ONES,
    "5840",
    NINES,
    NINES,
    "825820",
    TWOS,
    "5840",
    NINES,
    NINES,
    "0182 820180 820280 f6",
];

/// Their identifier.
const ORDERED_ID: &str = "9a21841f40ad996f59c50e81a8ccdc14535565302ca6b429ce9cc86ff2238cf9";

/// Neither inputs nor signatures, and a script that is nested 30 times: none nests deeper.
const DEEP: Told = Told {
    inputs: &[],
    signatures: &[],
    scripts: &[30],
    ..LEAST
};

/// 29 scripts that each ask for all of one, inside one another, up to that one.
pub const TWENTY_NINE: &str =
    "820181820181820181820181820181820181820181820181820181820181820181820181820181820181820181\
    820181820181820181820181820181820181820181820181820181820181820181820181820181820181";

/// Transactions that are made.
const MADE: &[Made] = &[
    (
        Told {
            outputs: 1,
            signatures: &[],
            ..LEAST
        },
        &["83", PAYING_BODY, "a0 f6"],
        PAYING_ID,
        5,
    ),
    (
        Told {
            outputs: 1,
            ..LEAST
        },
        PAYING,
        PAYING_ID,
        5,
    ),
    (
        Told {
            mints: true,
            scripts: &[1],
            ..LEAST
        },
        MINTING,
        MINTING_ID,
        8,
    ),
    (ONE_ORDER, IN_ORDER, ORDERED_ID, 5),
    (OTHER_ORDER, IN_ORDER, ORDERED_ID, 5),
    (
        DEEP,
        &[
            "83 a3 0080 0180 02190122 a1 01 81",
            TWENTY_NINE,
            "820180 f6",
        ],
        "09e4754baed2ac32b78a890f44faaca0ebed915b990dfe53753acae3b142941b",
        63,
    ),
];

/// Parts, the text of their transaction, its identifier, and how deep it nests.
type Made = (Told, &'static [&'static str], &'static str, usize);

/// The transaction of these parts has this text and this identifier, and nests so deep.
fn is_made(rt: &(impl Abort + AllocGlobal), (told, text, id, nesting): &Made) {
    let tx = made(rt, told);
    has_text(rt, &tx, *text);
    is_spelled(rt, &[*id], tx.id().as_bytes());
    check(rt, *id, tx.nesting() == *nesting);
}

#[test]
fn transactions_of_parts(rt: HostRuntime) {
    for row in MADE {
        is_made(&rt, row);
    }
}

/// Inputs are the places 1, 2 and 256, in order, and signatures those of the keys of 32 bytes 01 and 02.
fn are_ordered(rt: &impl Abort, inputs: &[Input], signatures: &[KeyWitness]) {
    check(rt, "three inputs", inputs.len() == 3);
    for (found, index) in inputs.iter().zip(&[1u16, 2, 256]) {
        check(rt, "input", *found == input(*index));
    }
    check(rt, "two signatures", signatures.len() == 2);
    for (found, key) in signatures.iter().zip(&[1u8, 2]) {
        check(rt, "signature", *found == witness(*key, 9));
    }
}

/// The one output is that of 910 lovelace to the key.
fn is_paid(rt: &impl Abort, outputs: &[Output]) {
    check(rt, "one output", outputs.len() == 1);
    for output in outputs {
        check(rt, "address", output.address == address(rt));
        check(rt, "coin", output.value.coin() == 910);
    }
}

// Inputs and signatures in order, from slot 7 until slot 9, and the output.
#[test]
fn parts_of_a_transaction(rt: HostRuntime) {
    let tx = made(&rt, &OTHER_ORDER);
    let Interval { start, end } = tx.interval();
    check(&rt, "start", start == Some(7));
    check(&rt, "end", end == Some(9));
    are_ordered(&rt, tx.inputs(), tx.signatures());
    is_paid(&rt, tx.outputs());
}

/// The hash of a script that nests too deep.
const TOO_DEEP: &str = "a8767f8261997280f6e1604608d4bd20def632ae7f9f8a280394adf527af1f2f";

/// What is wrong with parts.
#[derive(Clone, Copy)]
enum Wrong {
    /// The input of this place stands there twice.
    Input(u16),
    Outputs(u64),
    /// The key of 32 such bytes signed twice.
    Key(u8),
    /// The script that nests too deep stands there twice.
    Script,
    Deep,
}

/// A fault is this one.
fn is_fault(rt: &(impl Abort + AllocGlobal), fault: PartsFault, want: Wrong) {
    let is_wanted = match (fault, want) {
        (PartsFault::RepeatedInput(found), Wrong::Input(index)) => found == input(index),
        (PartsFault::TooManyOutputs(found), Wrong::Outputs(count)) => found == count,
        (PartsFault::RepeatedKey(found), Wrong::Key(byte)) => found == [byte; 32],
        (PartsFault::RepeatedScript(found), Wrong::Script) => {
            hex(rt, &[TOO_DEEP]).as_slice() == found.as_bytes().as_slice()
        }
        (PartsFault::TooDeep, Wrong::Deep) => true,
        _ => false,
    };
    check(rt, "a fault", is_wanted);
}

/// Inputs, signatures, outputs and scripts, and what is wrong with them: of several faults the first in order.
type Faulty = (
    &'static [u16],
    &'static [(u8, u8)],
    u64,
    &'static [usize],
    Wrong,
);

const FAULTY: &[Faulty] = &[
    (&[0, 9, 4, 9, 4], &[], 0, &[], Wrong::Input(4)),
    (&[0], &[], 65537, &[], Wrong::Outputs(65537)),
    (
        &[0],
        &[(3, 0), (2, 1), (3, 2), (2, 3)],
        0,
        &[],
        Wrong::Key(2),
    ),
    (&[0], &[], 0, &[31], Wrong::Deep),
    (&[0], &[], 0, &[31, 31], Wrong::Script),
    (&[0], &[(1, 1), (1, 2)], 0, &[31, 31], Wrong::Key(1)),
    (&[0, 0], &[(1, 1), (1, 2)], 0, &[31], Wrong::Input(0)),
];

#[test]
fn faults_of_parts(rt: HostRuntime) {
    for (inputs, signatures, outputs, scripts, want) in FAULTY {
        let told = Told {
            inputs: *inputs,
            signatures: *signatures,
            outputs: *outputs,
            scripts: *scripts,
            ..LEAST
        };
        let fault = Tx::new(rt.alloc(), parts_of(&rt, &told)).err();
        is_fault(&rt, fault.expect(&rt, "a fault"), *want);
    }
}

#[test]
fn faults_shown(rt: HostRuntime) {
    let (many, twice) = (
        PartsFault::TooManyOutputs(65537),
        PartsFault::RepeatedInput(input(0)),
    );
    let shown = format!(in rt.alloc(); "{many}; {twice}").expect(&rt, MEMORY);
    let want = "65537 outputs, where there may be 65536; an input that stands there twice";
    check(&rt, "two faults", shown.as_str() == want);
}
