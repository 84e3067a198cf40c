//! What is told of payments that are refused: with each reason the first thing that it is about.

use super::fixture::MEMORY;
use super::payments::{names_of, payment_of};
use super::unspent_tests::{no_outputs, put_unspent};
use ident::TxId;
use script::Names;
use std::process::Abort;
use tx::Input;
use utxo_rules::{Params, explain};

/// What the network of the worked examples asks.
const PARAMS: Params = Params {
    network: 0,
    min_fee_a: 1,
    min_fee_b: 100,
    min_utxo: 10,
    max_tx_size: 4096,
    max_body_size: 65_536,
    second_era: None,
};

/// Payments that differ from those of the other tests.
const LINES: &str = "script T 820280
tx Empty
out key K 910
fee 290
sign K
end
tx Cheap
in genesis 0
out key K 911
fee 289
sign K
end
tx Missing
in genesis 0
in genesis 2
in genesis 1
out key K 900
fee 400
sign K
end
tx Small
in genesis 0
out key K 500
out key K 9
out key K 8
fee 400
sign K
end
tx TwoAssets
in genesis 0
out key K 800 S 0a0b 5
mint S 0a0b 4
mint S 0c 3
fee 400
sign K
with S
end
tx Unsigned
in genesis 0
out key K 910
fee 290
end
tx Unsupplied
in genesis 0
out key K 800 S - 5
mint S - 5
fee 400
sign K
end
tx Supplied
in genesis 0
out key K 800
fee 400
sign K
with S
end
tx Failing
in genesis 0
out key K 800 T - 5
mint T - 5
fee 400
sign K
with T
end
";

/// What each payment is told.
const TOLD: &[(&str, &str)] = &[
    ("Good", "good"),
    (
        "Expiring",
        "slot 7 is outside the transaction's interval, before slot 7",
    ),
    ("Empty", "no inputs"),
    ("Cheap", "the fee is 289, where the least is 290"),
    (
        "Missing",
        "output 1 of transaction 0000000000000000000000000000000000000000000000000000000000000000 is not unspent",
    ),
    ("Small", "output 1 holds 9, where the least is 10"),
    (
        "Unbalanced",
        "of ada 1200 are consumed and 1199 are produced",
    ),
    (
        "TwoAssets",
        "of 310e8ad6fd176849a5667f8309d828a7aa48dd2d56e308ebe790babd1c7daf88.0c 3 are consumed and 0 are produced",
    ),
    (
        "BadlySigned",
        "the signature by key 0101010101010101010101010101010101010101010101010101010101010101 is not good",
    ),
    (
        "Unsigned",
        "key 72cd6e8422c407fb6d098690f1130b7ded7ec2f7f5e1d30bd9d521f015363793 has to sign and did not",
    ),
    (
        "Unsupplied",
        "script 310e8ad6fd176849a5667f8309d828a7aa48dd2d56e308ebe790babd1c7daf88 is needed and not supplied",
    ),
    (
        "Supplied",
        "script 310e8ad6fd176849a5667f8309d828a7aa48dd2d56e308ebe790babd1c7daf88 is supplied and not needed",
    ),
    (
        "Failing",
        "script 4fe508587f6e34eeaf6229b70c9e3d2dad87b2860ae1b21a991efac7309626f6 does not hold",
    ),
];

/// This is told of a payment at slot 7, where it spends 1200 lovelace and an output stands at these places.
fn is_told(
    rt: &(impl Abort + AllocGlobal),
    names: &Names,
    params: &Params,
    payment: &str,
    taken: Option<u16>,
    want: &str,
) {
    let tx = payment_of(rt, names, payment);
    let mut utxo = no_outputs(rt);
    let place = Input {
        transaction: TxId::from_bytes([0; 32]),
        index: 0,
    };
    put_unspent(rt, &mut utxo, &place, 1200);
    if let Some(index) = taken {
        let place = Input {
            transaction: tx.tx().id(),
            index,
        };
        put_unspent(rt, &mut utxo, &place, 10);
    }
    let told = explain(rt.alloc(), params, 7, &utxo, &tx).expect(rt, MEMORY);
    let text = match told {
        None => format!(in rt.alloc(); "good").expect(rt, MEMORY),
        Some(detail) => format!(in rt.alloc(); "{detail}").expect(rt, MEMORY),
    };
    assert!(rt; text.as_str() == want, "{payment}: {text}");
}

#[test]
fn what_payments_are_told(rt: HostRuntime) {
    let names = names_of(&rt, LINES);
    for (payment, want) in TOLD {
        is_told(&rt, &names, &PARAMS, *payment, None, *want);
    }
    is_told(
        &rt,
        &names,
        &PARAMS,
        "Good",
        Some(0),
        "an output stands where output 0 would",
    );
    let tight = Params {
        max_tx_size: 100,
        ..PARAMS
    };
    is_told(
        &rt,
        &names,
        &tight,
        "Good",
        None,
        "190 bytes, where there may be 100",
    );
    let other = Params {
        network: 1,
        ..PARAMS
    };
    is_told(
        &rt,
        &names,
        &other,
        "Good",
        None,
        "output 0 is of another network",
    );
}
