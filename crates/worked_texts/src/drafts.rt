//! Transactions in the making: each part once, each part twice, and what comes of them.

use super::fixture::{KEY_HASH, MEMORY, ONES, POLICY, TWOS, ZEROS, boxed, check, hex, is_spelled};
use super::scripts::nested;
use super::transaction_making::PAYING_ID;
use super::transactions::{PAYING_BODY, has_text};
use super::verdicts::{DIGEST, ED25519_KEY, ED25519_R, ED25519_S, SIGNED_BY_ED25519};
use draft::{Draft, DraftFault, Signer, Signing, TestSigner};
use ed25519::SecretKey;
use ident::{KeyHash, ScriptHash, TxId};
use std::process::Abort;
use tx::{Address, Credential, Input, KeyWitness};
use value::AssetQuantity;
use witness_pool::{Ed25519, SigScheme};

/// A part of a draft.
#[derive(Clone, Copy)]
enum Part {
    /// The output at this place of the transaction of 32 such bytes is spent.
    Spend(u8, u16),
    /// 910 lovelace to the key of 32 bytes 01, with assets: of each how many bytes 07 its name has, and its quantity.
    Pay(&'static [(usize, u64)]),
    Fee(u64),
    Start(u64),
    End(u64),
    /// Under a name of this many bytes 07 this quantity is minted.
    Mint(usize, i64),
    /// The key of 32 such bytes signs.
    Sign(u8, Signing),
    /// The script that asks for all of none, inside others of one member: this many scripts in one another.
    Supply(usize),
}

/// The policy of all assets.
fn policy() -> ScriptHash {
    ScriptHash::of_script(b"\x82\x01\x80")
}

/// A name of `size` bytes.
fn name(rt: &(impl Abort + AllocGlobal), size: usize) -> Vec<u8> {
    vec![in rt.alloc(); 7u8; size].expect(rt, MEMORY)
}

/// Adds an output of 910 lovelace with assets: of each how many bytes its name has, and its quantity.
fn pay<K: Signer + Drop>(
    rt: &(impl Abort + AllocGlobal),
    draft: &mut Draft<K>,
    told: &[(usize, u64)],
) -> Result<(), DraftFault> {
    let key = Credential::Key(KeyHash::of_key(&[1; 32]));
    let address = Address::new(0, key).expect(rt, "a network");
    let mut assets = Vec::new(rt.alloc());
    for (size, quantity) in told {
        let asset = AssetQuantity {
            policy: policy(),
            name: name(rt, *size),
            quantity: *quantity,
        };
        assets.push(asset).expect(rt, MEMORY);
    }
    draft.pay(address, 910, assets)
}

/// The output at this place of the transaction of 32 such bytes.
fn input(transaction: u8, index: u16) -> Input {
    let transaction = TxId::from_bytes([transaction; 32]);
    Input { transaction, index }
}

/// Adds a part.
fn add(
    rt: &(impl Abort + AllocGlobal),
    draft: &mut Draft<TestSigner>,
    part: Part,
) -> Result<(), DraftFault> {
    match part {
        Part::Spend(transaction, index) => draft.spend(input(transaction, index)),
        Part::Pay(told) => pay(rt, draft, told),
        Part::Fee(fee) => draft.set_fee(fee),
        Part::Start(slot) => draft.set_start(slot),
        Part::End(slot) => draft.set_end(slot),
        Part::Mint(size, quantity) => draft.mint(policy(), name(rt, size), quantity),
        Part::Sign(key, signing) => {
            let key = [key; 32];
            draft.sign(TestSigner { key, signing })
        }
        Part::Supply(deep) => draft.supply(&nested(rt.alloc(), deep).expect(rt, "a script")),
    }
}

/// Parts, each with whether it is added. The assets are all of one policy.
const PARTS: &[(Part, bool)] = &[
    // an input, the same one, another place, another transaction, and that place again
    (Part::Spend(0, 0), true),
    (Part::Spend(0, 0), false),
    (Part::Spend(0, 65_535), true),
    (Part::Spend(1, 0), true),
    (Part::Spend(0, 65_535), false),
    // a fee, a start and an end, each once more
    (Part::Fee(0), true),
    (Part::Fee(1), false),
    (Part::Start(0), true),
    (Part::Start(0), false),
    (Part::End(0), true),
    (Part::End(1), false),
    // a key, the same one, and another
    (Part::Sign(1, Signing::Good), true),
    (Part::Sign(1, Signing::Bad), false),
    (Part::Sign(2, Signing::Bad), true),
    // no assets, names of 0 and 32 bytes, one of 33, none of an asset, and an asset twice
    (Part::Pay(&[]), true),
    (Part::Pay(&[(32, 1), (0, u64::MAX)]), true),
    (Part::Pay(&[(33, 1)]), false),
    (Part::Pay(&[(0, 0)]), false),
    (Part::Pay(&[(1, 1), (0, 1), (1, 2)]), false),
    // a name of 32 bytes, the same one, another, none of an asset, and a name of 33 bytes
    (Part::Mint(32, i64::MIN), true),
    (Part::Mint(32, 1), false),
    (Part::Mint(31, i64::MAX), true),
    (Part::Mint(0, 0), false),
    (Part::Mint(33, 1), false),
    // scripts that nest 60 deep, the same one, 62 deep, and another: n of them in one another nest 2 n deep
    (Part::Supply(30), true),
    (Part::Supply(30), false),
    (Part::Supply(31), false),
    (Part::Supply(1), true),
];

/// Adds a part. Whether it is added.
fn is_added(rt: &(impl Abort + AllocGlobal), draft: &mut Draft<TestSigner>, part: Part) -> bool {
    let added = add(rt, draft, part);
    check(rt, "memory", added != Err(DraftFault::OutOfMemory));
    added.is_ok()
}

// Two outputs are there before the others.
#[test]
fn parts_of_drafts(rt: HostRuntime) {
    let mut draft = boxed(&rt, Draft::new(rt.alloc()));
    for (part, want) in PARTS {
        check(&rt, "a part", is_added(&rt, &mut draft, *part) == *want);
    }
    for _ in 0..65_534u64 {
        pay(&rt, &mut draft, &[]).expect(&rt, "65,536 outputs");
    }
    check(&rt, "one more", pay(&rt, &mut draft, &[]).is_err());
}

/// The payment of 910 lovelace for a fee of 290, signed by its key.
const PAYMENT: &[Part] = &[
    Part::Spend(0, 0),
    Part::Pay(&[]),
    Part::Fee(290),
    Part::Sign(1, Signing::Good),
];

/// Its text.
const PAYMENT_TEXT: &[&str] = &[
    "83",
    PAYING_BODY,
    "a1 0081825820",
    ONES,
    "5840",
    DIGEST,
    DIGEST,
    "f6",
];

/// Three inputs, two outputs, of which one has two assets, a fee, a start and an end; 3 of an asset burned, 5 of
/// another minted, two keys, of which the greater signs badly, and a script.
const WHOLE: &[Part] = &[
    Part::Spend(1, 0),
    Part::Spend(0, 65_535),
    Part::Spend(0, 0),
    Part::Pay(&[]),
    Part::Pay(&[(2, 1), (0, u64::MAX)]),
    Part::Fee(290),
    Part::Start(7),
    Part::End(9),
    Part::Mint(2, -3),
    Part::Mint(0, 5),
    Part::Sign(2, Signing::Bad),
    Part::Sign(1, Signing::Good),
    Part::Supply(1),
];

/// The SHA-256 digest of 32 bytes 01 followed by the identifier of that transaction, which is the digest of its body.
const WHOLE_DIGEST: &str = "32c76198dbcf6c880da5d409f1ab6887e64afaeff314f561ac58d76fcc2250c5";

/// Its text.
const WHOLE_TEXT: &[&str] = &[
    // the inputs, in rising order
    "83 a6 00 83 825820",
    ZEROS,
    "00 825820",
    ZEROS,
    "19ffff 825820",
    ONES,
    // the outputs, in the order in which they were added
    "00 01 82 82582160",
    KEY_HASH,
    "19038e 82582160",
    KEY_HASH,
    "8219038e a15820",
    POLICY,
    "a2 40 1bffffffffffffffff 420707 01",
    // the fee, the end, the start, and what is minted
    "02190122 0309 0807 09 a15820",
    POLICY,
    "a2 40 05 420707 22",
    // the signatures, by rising keys, and the script
    "a2 00 82 825820",
    ONES,
    "5840",
    WHOLE_DIGEST,
    WHOLE_DIGEST,
    "825820",
    TWOS,
    "5840",
    ZEROS,
    ZEROS,
    "01 81 820180 f6",
];

/// Drafts, and the texts of their transactions.
const DRAFTS: &[(&[Part], &[&str])] = &[
    (&[], &["83 a3 0080 0180 0200 a0 f6"]),
    (PAYMENT, PAYMENT_TEXT),
    (WHOLE, WHOLE_TEXT),
];

/// The transaction of a draft of these parts has this text.
fn is_drafted(rt: &(impl Abort + AllocGlobal), parts: &[Part], text: &[&str]) {
    let mut draft = Draft::new(rt.alloc());
    for part in parts {
        add(rt, &mut draft, *part).expect(rt, "a part");
    }
    let tx = boxed(rt, draft.finish().expect(rt, MEMORY));
    has_text(rt, &tx, text);
}

#[test]
fn texts_of_drafts(rt: HostRuntime) {
    for (parts, text) in DRAFTS {
        is_drafted(&rt, *parts, *text);
    }
}

#[test]
fn faults_of_drafts_shown(rt: HostRuntime) {
    let (not_built, no_memory) = (DraftFault::NotBuilt, DraftFault::OutOfMemory);
    let shown = format!(in rt.alloc(); "{not_built}; {no_memory}").expect(&rt, MEMORY);
    let want = "no transaction has this part beside the others; out of memory";
    check(&rt, "faults", shown.as_str() == want);
}

/// The same payment with a script, which nobody signed yet.
fn unsigned<K: Signer + Drop>(rt: &(impl Abort + AllocGlobal)) -> Draft<K> {
    let mut draft = Draft::new(rt.alloc());
    draft.spend(input(0, 0)).expect(rt, "an input");
    pay(rt, &mut draft, &[]).expect(rt, "an output");
    draft.set_fee(290).expect(rt, "a fee");
    draft
        .supply(&nested(rt.alloc(), 1).expect(rt, "a script"))
        .expect(rt, "no such script is there");
    draft
}

// It is signed by Ed25519: its text has the signature that OpenSSL makes.
#[test]
fn drafts_signed_by_ed25519(rt: HostRuntime) {
    let mut draft: Draft<SecretKey> = unsigned(&rt);
    draft
        .sign(SecretKey::from_seed([1; 32]))
        .expect(&rt, "a key");
    let again = draft.sign(SecretKey::from_seed([1; 32]));
    check(&rt, "again", again == Err(DraftFault::NotBuilt));
    let tx = boxed(&rt, draft.finish().expect(&rt, MEMORY));
    has_text(&rt, &tx, SIGNED_BY_ED25519);
}

/// The body and the identifier of a draft are those of the payment, which another program computed.
fn is_paying<K: Signer + Drop>(rt: &(impl Abort + AllocGlobal), draft: &Draft<K>) {
    is_spelled(rt, &[PAYING_BODY], &draft.body().expect(rt, MEMORY));
    is_spelled(rt, &[PAYING_ID], draft.id().expect(rt, MEMORY).as_bytes());
}

// It is signed elsewhere: with the signature that OpenSSL made of the identifier the same text comes out. Body and
// identifier are the same before and after it was added.
#[test]
fn drafts_signed_elsewhere(rt: HostRuntime) {
    let mut draft: Draft<KeyWitness> = unsigned(&rt);
    is_paying(&rt, &draft);
    let key = hex(&rt, &[ED25519_KEY]);
    let key = <[u8; 32]>::try_from(key.as_slice()).expect(&rt, "a key");
    let signature = hex(&rt, &[ED25519_R, ED25519_S]);
    let signature = <[u8; 64]>::try_from(signature.as_slice()).expect(&rt, "a signature");
    let id = draft.id().expect(&rt, MEMORY);
    check(
        &rt,
        "good",
        Ed25519::verify(&key, id.as_bytes(), &signature),
    );
    draft
        .add_signature(key, signature)
        .expect(&rt, "no signature by it is there");
    let again = draft.add_signature(key, [0; 64]);
    check(&rt, "again", again == Err(DraftFault::NotBuilt));
    is_paying(&rt, &draft);
    let tx = boxed(&rt, draft.finish().expect(&rt, MEMORY));
    has_text(&rt, &tx, SIGNED_BY_ED25519);
}
