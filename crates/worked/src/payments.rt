//! Payments and blocks of them, made by the lines of scripts.

use super::fixture::{MEMORY, boxed};
use super::networks::{OUTPUT, genesis_of};
use block::CheckedBlock;
use genesis::Scheme;
use ident::BlockHash;
use script::{LinePlace, Names};
use std::process::Abort;
use witness_pool::{CheckedTx, TestScheme, plain};

/// The payments. All pay to the key of 32 bytes 01: `Good` is that of the worked example, of 190 bytes and so with a
/// least fee of 290, and the others differ from it.
const PAYMENTS: &str = "key K 0101010101010101010101010101010101010101010101010101010101010101
script S 820180
tx Good
in genesis 0
out key K 910
fee 290
sign K
end
tx Unbalanced
in genesis 0
out key K 909
fee 290
sign K
end
tx BadlySigned
in genesis 0
out key K 910
fee 290
badsign K
end
tx Other
in genesis 0
out key K 900
fee 300
sign K
end
tx Expiring
in genesis 0
out key K 900
fee 300
until 7
sign K
end
tx Minting
in genesis 0
out key K 800 S - 5
mint S - 5
fee 400
sign K
with S
end
tx Next
in Good 0
out key K 600
fee 310
sign K
end
";

/// The line gives a name, or is part of what does.
pub fn obey(rt: &impl Abort, names: &mut Names, line: &str) {
    let place = LinePlace {
        number: 1,
        before: 0,
    };
    let asked = names.obey(place, line.as_bytes());
    assert!(rt; asked.is_ok(), "{line}");
}

/// The lines give names.
fn obey_all(rt: &impl Abort, names: &mut Names, lines: &str) {
    for line in lines.lines() {
        obey(rt, names, line);
    }
}

/// The names of the payments, and those that these lines give.
pub fn names_of(rt: &(impl Abort + AllocGlobal), lines: &str) -> Box<Names> {
    let genesis = genesis_of(rt, OUTPUT);
    let mut names = boxed(rt, Names::new(rt.alloc(), &genesis, Scheme::Test));
    obey_all(rt, &mut names, PAYMENTS);
    obey_all(rt, &mut names, lines);
    names
}

/// The bytes of the block of this name.
pub fn bytes_of<'a>(rt: &impl Abort, names: &'a Names, name: &str) -> &'a [u8] {
    names.bytes_of(name.as_bytes()).expect(rt, "a block")
}

/// The hash of the block of this name.
pub fn hash_of(rt: &(impl Abort + AllocGlobal), names: &Names, name: &str) -> BlockHash {
    let bytes = bytes_of(rt, names, name);
    boxed(rt, block::read(rt.alloc(), bytes).expect(rt, name)).hash()
}

/// The block of this name.
pub fn block_of(
    rt: &(impl Abort + AllocGlobal),
    names: &Names,
    name: &str,
) -> Box<CheckedBlock<TestScheme>> {
    let bytes = bytes_of(rt, names, name);
    boxed(rt, CheckedBlock::read(rt.alloc(), bytes).expect(rt, name))
}

/// The blocks of these names.
pub fn blocks_of(
    rt: &(impl Abort + AllocGlobal),
    names: &Names,
    blocks: &[&str],
) -> Box<Vec<CheckedBlock<TestScheme>>> {
    let mut all = boxed(rt, Vec::new(rt.alloc()));
    for name in blocks {
        let block = Box::into_inner(block_of(rt, names, *name));
        all.push(block).expect(rt, MEMORY);
    }
    all
}

/// The payment of this name with its verdicts.
pub fn payment_of(
    rt: &(impl Abort + AllocGlobal),
    names: &Names,
    name: &str,
) -> Box<CheckedTx<TestScheme>> {
    let tx = names.tx_of(name.as_bytes()).expect(rt, "a payment");
    let copy = tx.try_clone().expect(rt, MEMORY);
    boxed(rt, plain(rt.alloc(), copy).expect(rt, MEMORY))
}
