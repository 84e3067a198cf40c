//! The program of docs/WALLET.md, which stands in `wallet.rt` word for word.

use super::fixture::boxed;
use super::library_tests::GENESIS;
use super::wallet::{Wallet, payment, signed, submit};
use chaindb::wallet::{Address, Credential, Draft, Input, KeyWitness};
use chaindb::{
    ArriveReply, Core, Ed25519, Genesis, Holder, Inclusion, KeyHash, Tip, TxId, Watch, Which,
};
use std::process::Abort;

/// The Ed25519 public key of the genesis, whose secret has 32 bytes 01.
const KEY: &[u8; 32] = b"\x8a\x88\xe3\xdd\x74\x09\xf1\x95\xfd\x52\xdb\x2d\x3c\xba\x5d\x72\
\xca\x67\x09\xbf\x1d\x94\x12\x1b\xf3\x74\x88\x01\xb4\x0f\x6f\x5c";

/// The identifier of the payment, computed by another SHA-256.
const ID: &[u8; 32] = b"\xaf\xd9\xff\xf1\xa7\xc8\x2f\x92\x59\xb2\x08\x65\x2b\x71\x86\x24\
\xb0\x6a\x46\x48\xea\xca\x72\x88\xe4\x1e\xa8\xf5\x64\x6e\x34\xe1";

/// Its signature by that key, made by OpenSSL 3.0 (`pkeyutl -sign -rawin`).
const SIGNATURE: &[u8; 64] = b"\xd4\xfb\x30\x55\x6f\x08\x11\x7f\x34\x76\x09\xfc\x15\xda\xce\xd4\
\xda\xd4\xfb\x91\x8d\x32\x53\x87\x0d\xcc\x1b\x0a\xb9\x68\x07\xe8\
\x71\x2d\x3e\xcf\xb2\x83\xf9\x56\xe8\xca\xaa\xc1\x13\x73\xce\xf4\
\x8f\x15\x5f\xb7\x08\x4b\x0b\x42\x50\x07\x9f\x90\xde\x2d\xc0\x08";

/// A core that has no block yet.
fn new_core(rt: &(impl Abort + AllocGlobal)) -> Box<Core<Ed25519>> {
    let genesis = Genesis::from_toml(rt.alloc(), GENESIS).expect(rt, "a genesis");
    boxed(rt, Core::new(rt.alloc(), genesis).expect(rt, "memory"))
}

/// The payment of 910 lovelace to the key of 32 bytes 01, for a fee of 290.
fn draft(rt: &(impl Abort + AllocGlobal)) -> Draft<KeyWitness> {
    let transaction = TxId::from_bytes([0; 32]);
    let input = Input {
        transaction,
        index: 0,
    };
    let owner = Credential::Key(KeyHash::of_key(&[1; 32]));
    let address = Address::new(0, owner).expect(rt, "a network");
    payment(rt, input, address, 910, 290).expect(rt, "a draft")
}

/// Forges the next block of a core in this slot, and has it arrive there. Its bytes.
fn forged(rt: &(impl Abort + AllocGlobal), core: &mut Core<Ed25519>, slot: u64) -> Vec<u8> {
    let forged = core.forge(slot).expect(rt, "a block");
    assert!(rt; core.arrive(&forged.bytes) == Ok(ArriveReply::Kept { back: 0, added: 1 }));
    forged.bytes
}

/// Whether the payment is settled.
fn is_settled(
    rt: &impl Abort,
    wallet: &mut Wallet,
    core: &mut Core<Ed25519>,
    bytes: &[u8],
) -> bool {
    let id = TxId::from_bytes(*ID);
    wallet.follow(core, &id, bytes).expect(rt, "news")
}

// A block has the payment, two others take its place, and the payment is submitted again; its block has two on it when
// it is settled, and not before.
#[test]
fn payment_of_the_wallet(rt: HostRuntime) {
    let mut core = new_core(&rt);
    let mut wallet = boxed(&rt, Wallet::new(&rt, &mut core, 2).expect(&rt, "a wallet"));
    let bytes = signed(draft(&rt), *KEY, *SIGNATURE).expect(&rt, "a good signature");
    submit(&mut core, &bytes).expect(&rt, "a payment");
    assert!(&rt; !is_settled(&rt, &mut wallet, &mut core, &bytes));
    forged(&rt, &mut core, 1);
    assert!(&rt; !is_settled(&rt, &mut wallet, &mut core, &bytes));
    assert!(&rt; core.fees() == 290);

    let mut other = new_core(&rt);
    let first = forged(&rt, &mut other, 2);
    let second = forged(&rt, &mut other, 3);
    assert!(&rt; core.arrive(&first) == Ok(ArriveReply::Kept { back: 0, added: 0 }));
    assert!(&rt; core.arrive(&second) == Ok(ArriveReply::Kept { back: 1, added: 2 }));
    assert!(&rt; core.mempool().is_empty());
    assert!(&rt; !is_settled(&rt, &mut wallet, &mut core, &bytes));
    assert!(&rt; core.mempool().len() == 1);

    for slot in 4..6 {
        forged(&rt, &mut core, slot);
        assert!(&rt; !is_settled(&rt, &mut wallet, &mut core, &bytes));
    }
    forged(&rt, &mut core, 6);
    assert!(&rt; is_settled(&rt, &mut wallet, &mut core, &bytes));
}

// What is signed is the identifier, and another key's signature isn't taken.
#[test]
fn signed_elsewhere(rt: HostRuntime) {
    let id = draft(&rt).id().expect(&rt, "memory");
    assert!(&rt; id.as_bytes() == ID);
    assert!(&rt; signed(draft(&rt), [1; 32], *SIGNATURE).is_err());
}

// An address of a key begins with 60 and has the key's hash behind it.
#[test]
fn answers_of_an_index_are_shown(rt: HostRuntime) {
    let at = Inclusion {
        number: 7,
        slot: 70,
        index: 2,
    };
    let shown = at.to_string(rt.alloc()).expect(&rt, "memory");
    assert!(&rt; shown.as_str() == "block 7 in slot 70 at 2");

    let owner = Credential::Key(KeyHash::from_bytes([1; 32]));
    let holder = Holder {
        address: Address::new(0, owner).expect(&rt, "a network"),
        amount: 18_446_744_073_709_551_616,
    };
    let shown = holder.to_string(rt.alloc()).expect(&rt, "memory");
    let wanted =
        "600101010101010101010101010101010101010101010101010101010101010101 18446744073709551616";
    assert!(&rt; shown.as_str() == wanted);
}

// How much there is of it, and not what.
#[test]
fn index_is_shown_short(rt: HostRuntime) {
    let core = new_core(&rt);
    let watch = Watch::new(rt.alloc(), Tip::genesis(), core.utxo(), 2, Which::all()).expect(
        &rt, "an index",
    );
    let shown = format!(in rt.alloc(); "{watch:?} {:?}", watch.which()).expect(&rt, "memory");
    assert!(&rt;
        shown.as_str() == "Watch { height: 0, depth: 0, outputs: 1, .. } Which { all: true, .. }"
    );
}
