//! Verdicts on payments, whose digests were computed by another SHA-256.

use super::fixture::{KEY_HASH, MEMORY, ONES, boxed, check, is_spelled};
use super::transactions::{MINTING_BODY, PAYING_BODY, read};
use std::process::Abort;
use witness_pool::{CheckedTx, Ed25519, SigScheme, TestScheme, plain};

/// The SHA-256 digest of 32 bytes 01 followed by the identifier of the payment, which is the digest of its body.
pub const DIGEST: &str = "7720038b2e76ccb282aafeb87e011adf346efe4af0e408c41b734fcfbbcedf12";

/// The payment, signed by the key of 32 bytes 01. It has 190 bytes.
pub const PAYMENT: &[&str] = &[
    "83",
    PAYING_BODY,
    "a1 0081825820",
    ONES,
    "5840",
    DIGEST,
    DIGEST,
    "f6",
];

/// The same badly signed.
pub const BAD_PAYMENT: &[&str] = &[
    "83",
    PAYING_BODY,
    "a1 0081825820",
    ONES,
    "5840",
    DIGEST,
    KEY_HASH,
    "f6",
];

/// The payment, signed by the key of 32 bytes 01, with the script that asks for all of none, which holds always.
pub const SIGNED: &[&str] = &[
    "83",
    PAYING_BODY,
    "a2 0081825820",
    ONES,
    "5840",
    DIGEST,
    DIGEST,
    "0181820180 f6",
];

/// The same with another second half of the signature.
pub const BADLY: &[&str] = &[
    "83",
    PAYING_BODY,
    "a2 0081825820",
    ONES,
    "5840",
    DIGEST,
    KEY_HASH,
    "0181820180 f6",
];

/// The same with another first half.
const BADLY_TOO: &[&str] = &[
    "83",
    PAYING_BODY,
    "a2 0081825820",
    ONES,
    "5840",
    KEY_HASH,
    DIGEST,
    "0181820180 f6",
];

/// The signed payment and a bad one with the script that asks for one of none, which holds never.
pub const SIGNED_IN_VAIN: &[&str] = &[
    "83",
    PAYING_BODY,
    "a2 0081825820",
    ONES,
    "5840",
    DIGEST,
    DIGEST,
    "0181820280 f6",
];

pub const BADLY_IN_VAIN: &[&str] = &[
    "83",
    PAYING_BODY,
    "a2 0081825820",
    ONES,
    "5840",
    DIGEST,
    KEY_HASH,
    "0181820280 f6",
];

/// The SHA-256 digest of 32 bytes 01 followed by the identifier of the transaction that mints, which is the digest of
/// its body.
const MINTING_DIGEST: &str = "494996bcdf88777dc311b6c5734d29206dfbdcb18f63a8cce97a9cf471467c48";

/// The text of the transaction that mints 5 of a policy for a fee of 400, signed by the key of 32 bytes 01, with the
/// policy's script.
pub const SIGNED_MINTING: &[&str] = &[
    "83",
    MINTING_BODY,
    "a2 0081825820",
    ONES,
    "5840",
    MINTING_DIGEST,
    MINTING_DIGEST,
    "0181820180 f6",
];

/// The Ed25519 public key whose secret has 32 bytes 01.
pub const ED25519_KEY: &str = "8a88e3dd7409f195fd52db2d3cba5d72ca6709bf1d94121bf3748801b40f6f5c";

/// Its signature of the payment's identifier, made by OpenSSL 3.0 (`pkeyutl -sign -rawin`): the first half,
pub const ED25519_R: &str = "d4fb30556f08117f347609fc15daced4dad4fb918d3253870dcc1b0ab96807e8";

/// and the second one.
pub const ED25519_S: &str = "712d3ecfb283f956e8caaac11373cef48f155fb7084b0b4250079f90de2dc008";

/// The payment with that signature, and with the script that asks for all of none.
pub const SIGNED_BY_ED25519: &[&str] = &[
    "83",
    PAYING_BODY,
    "a2 0081825820",
    ED25519_KEY,
    "5840",
    ED25519_R,
    ED25519_S,
    "0181820180 f6",
];

/// The same with the halves of the signature the other way round.
const BADLY_BY_ED25519: &[&str] = &[
    "83",
    PAYING_BODY,
    "a2 0081825820",
    ED25519_KEY,
    "5840",
    ED25519_S,
    ED25519_R,
    "0181820180 f6",
];

/// A payment with its verdicts.
fn checked<S: SigScheme, R: Abort + AllocGlobal>(rt: &R, text: &[&str]) -> Box<CheckedTx<S>> {
    boxed(
        rt,
        plain::<S>(rt.alloc(), read(rt, text)).expect(rt, MEMORY),
    )
}

/// A payment is signed so, and the scripts of its copy hold so.
fn has_verdicts<S: SigScheme, R: Abort + AllocGlobal>(
    rt: &R,
    text: &[&str],
    signed: bool,
    holding: bool,
) {
    let checked = checked::<S, R>(rt, text);
    check(rt, "signed", checked.is_signed() == signed);
    let copy = boxed(rt, checked.try_clone().expect(rt, MEMORY));
    check(rt, "holding", copy.scripts_hold() == holding);
}

/// Transactions, whether each is signed, and whether its script holds.
const PAYMENTS: &[(&[&str], bool, bool)] = &[
    (SIGNED, true, true),
    (SIGNED_IN_VAIN, true, false),
    (BADLY, false, true),
    (BADLY_TOO, false, true),
    (BADLY_IN_VAIN, false, false),
    (SIGNED_MINTING, true, true),
];

/// A scheme in which nothing is good.
struct Nothing;

impl SigScheme for Nothing {
    ghost use Rattle.std.specs.Prelude.{false};

    ghost verifies = { λ key message signature. false };

    fn verify(_key: &[u8; 32], _message: &[u8; 32], _signature: &[u8; 64]) -> bool {
        false
    }
}

#[test]
fn verdicts_on_payments(rt: HostRuntime) {
    for (text, signed, holding) in PAYMENTS {
        has_verdicts::<TestScheme, _>(&rt, *text, *signed, *holding);
    }
    has_verdicts::<Nothing, _>(&rt, SIGNED, false, true);
}

// Each scheme takes its own signature alone.
#[test]
fn verdicts_by_ed25519(rt: HostRuntime) {
    has_verdicts::<Ed25519, _>(&rt, SIGNED_BY_ED25519, true, true);
    has_verdicts::<Ed25519, _>(&rt, BADLY_BY_ED25519, false, true);
    has_verdicts::<Ed25519, _>(&rt, SIGNED, false, true);
    has_verdicts::<TestScheme, _>(&rt, SIGNED_BY_ED25519, false, true);
}

/// The one key of a transaction is that of the payment's output.
pub fn has_key(rt: &(impl Abort + AllocGlobal), checked: &CheckedTx<TestScheme>) {
    check(rt, "one key", checked.keys().len() == 1);
    for key in checked.keys() {
        is_spelled(rt, &[KEY_HASH], key.as_bytes());
    }
}

// A payment has its key, its fee, and the signature that the scheme makes.
#[test]
fn parts_of_a_payment(rt: HostRuntime) {
    let checked = checked::<TestScheme, _>(&rt, SIGNED);
    has_key(&rt, &checked);
    check(&rt, "fee", checked.tx().fee() == 290);
    let signature = TestScheme::sign(&[1; 32], checked.tx().id().as_bytes());
    is_spelled(&rt, &[DIGEST, DIGEST], &signature);
}
