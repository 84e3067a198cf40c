//! The network of the cores and scripts, and texts that are good: of genesis files, of scripts, and of the payments and
//! blocks that the lines of a script make.

use crate::changing::put;
use genesis::{Genesis, Scheme};
use script::{LinePlace, Names};
use std::alloc::Global;

/// The genesis of a network where 2 blocks may be rolled back and 8 live ones are kept.
pub const DOCUMENT: &str = "network = 0
k = 2
min_fee_a = 1
min_fee_b = 100
min_utxo = 10
max_tx_size = 4096
max_body_size = 65536
max_volatile = 8
max_mempool = 100
[[output]]
key = \"0101010101010101010101010101010101010101010101010101010101010101\"
coin = 1200
";

/// One with a second era, two outputs in one line, and as many coins as there may be.
pub const OTHER_DOCUMENT: &str = "network = 1
k = 10
min_fee_a = 0
min_fee_b = 0
min_utxo = 0
max_tx_size = 65536
max_body_size = 1048000
max_volatile = 100
max_mempool = 100
era2_slot = 5
per_asset = 7
output = [{ coin = 7, \
address = \"71aaaaaaaaaaaaaaaaaaaaaaaaaaaaaaaaaaaaaaaaaaaaaaaaaaaaaaaaaaaaaaaa\" }, \
{ \
address = \"61BBbbbbbbbbbbbbbbbbbbbbbbbbbbbbbbbbbbbbbbbbbbbbbbbbbbbbbbbbbbbbbb\", \
coin = 9223372036854775800 }]
";

/// A script that defines payments and blocks of two chains.
pub const DEFINING: &str = "key K 0101010101010101010101010101010101010101010101010101010101010101
script S 820180
tx Good
in genesis 0
out key K 910
fee 290
sign K
end
tx Next
in Good 0
out key K 600
fee 310
until 9
sign K
end
tx Minting
in genesis 0
out key K 800 S - 5 S 616263 65536
mint S - 5
mint S 616263 65536
fee 400
from 2
sign K
with S
end
block A1 genesis 1 Good
block A2 A1 2 Next
block A3 A2 3
block A4 A3 4
block B1 genesis 2 Minting
block B2 B1 3
block B3 B2 5
block B4 B3 6
";

/// What a script asks behind that.
pub const ASKING: &str = "open F
arrive A1
next F
submit Next
mempool
forge C 4
arrive B1
arrive-cut B2
arrive-ext B3
arrive B3
arrive B2
next F
next F
forward F A1 B1 genesis
utxo
tip
close F
";

/// The names of the blocks and of the payments.
const BLOCKS: [&str; 8] = ["A1", "A2", "A3", "A4", "B1", "B2", "B3", "B4"];

const PAYMENTS: [&str; 3] = ["Good", "Next", "Minting"];

/// The genesis.
pub fn genesis(alloc: Global) -> Option<Genesis> {
    Genesis::from_toml(alloc, DOCUMENT).ok()
}

/// No names, in a box, whose drop is a call.
fn no_names(alloc: Global) -> Option<Box<Names>> {
    let genesis = genesis(alloc)?;
    Box::new(alloc, Names::new(alloc, &genesis, Scheme::Test)).ok()
}

/// Whether each of the lines gave a name, or is part of what does.
fn obey_all(names: &mut Names) -> bool {
    let place = LinePlace {
        number: 1,
        before: 0,
    };
    let mut all = true;
    for line in DEFINING.lines() {
        all = all && names.obey(place, line.as_bytes()).is_ok();
    }
    all
}

/// The names of the payments and blocks.
fn names(alloc: Global) -> Option<Box<Names>> {
    let mut names = no_names(alloc)?;
    if obey_all(&mut names) {
        Some(names)
    } else {
        None
    }
}

/// A copy of some bytes.
pub fn copy(alloc: Global, bytes: &[u8]) -> Vec<u8> {
    let mut text = Vec::new(alloc);
    put(&mut text, bytes);
    text
}

/// The texts of the blocks.
pub fn blocks(alloc: Global) -> Option<Vec<Vec<u8>>> {
    let names = names(alloc)?;
    let mut texts = Vec::new(alloc);
    for name in &BLOCKS {
        texts
            .push(copy(alloc, names.bytes_of(name.as_bytes())?))
            .ok()?;
    }
    Some(texts)
}

/// The texts of the payments.
pub fn payments(alloc: Global) -> Option<Vec<Vec<u8>>> {
    let names = names(alloc)?;
    let mut texts = Vec::new(alloc);
    for name in &PAYMENTS {
        texts
            .push(names.tx_of(name.as_bytes())?.encode().ok()?)
            .ok()?;
    }
    Some(texts)
}
