//! The network on which calls are made, with its payments and blocks by the lines of scripts.

use genesis::{Genesis, Scheme};
use ident::Point;
use script::{LinePlace, Names};
use std::alloc::Global;

/// The genesis of a network where 3 blocks may be rolled back.
pub const DOCUMENT: &str = "network = 0
k = 3
min_fee_a = 1
min_fee_b = 100
min_utxo = 10
max_tx_size = 4096
max_body_size = 65536
max_volatile = 100
max_mempool = 100
[[output]]
key = \"0101010101010101010101010101010101010101010101010101010101010101\"
coin = 1200
[[output]]
key = \"0101010101010101010101010101010101010101010101010101010101010101\"
coin = 1000
";

/// Payments, all of them to the key that signs, and chains of blocks: of the first two outputs `Good` and `Other` spend
/// one, and `Stays` the other. `Next` spends what `Good` makes, and `Behind` what `Stays` makes. The chain of `C3` goes
/// on from `B2`, and that of `D2` from `A1`, on which its payment finds nothing to spend.
const LINES: &str = "key K 0101010101010101010101010101010101010101010101010101010101010101
script S 820180
tx Good
in genesis 0
out key K 910
fee 290
sign K
end
tx Next
in Good 0
out key K 600
fee 310
sign K
end
tx Other
in genesis 0
out key K 900
fee 300
sign K
end
tx Stays
in genesis 1
out key K 700
fee 300
sign K
end
tx Behind
in Stays 0
out key K 400
fee 300
sign K
end
tx BadlySigned
in genesis 0
out key K 800
fee 400
badsign K
end
tx Minting
in genesis 0
out key K 800 S - 5
mint S - 5
fee 400
sign K
with S
end
block A1 genesis 1 Good
block A2 A1 2 Next
block A3 A2 3
block B1 genesis 2 Other
block B2 B1 3
block B3 B2 4
block B4 B3 5
block C3 B2 6 Stays
block C4 C3 7
block C5 C4 8
block D2 A1 2 Other
block D3 D2 3
";

/// The genesis, where memory lasts.
pub fn genesis(alloc: Global) -> Option<Genesis> {
    Genesis::from_toml(alloc, DOCUMENT).ok()
}

/// Whether each of the lines gave a name, or is part of what does.
fn obey_all(names: &mut Names) -> bool {
    let place = LinePlace {
        number: 1,
        before: 0,
    };
    let mut all = true;
    for line in LINES.lines() {
        all = all && names.obey(place, line.as_bytes()).is_ok();
    }
    all
}

/// No names, in a box, whose drop is a call.
fn no_names(alloc: Global) -> Option<Box<Names>> {
    let genesis = genesis(alloc)?;
    Box::new(alloc, Names::new(alloc, &genesis, Scheme::Test)).ok()
}

/// The names of the payments and blocks, where memory lasts.
pub fn names(alloc: Global) -> Option<Box<Names>> {
    let mut names = no_names(alloc)?;
    if obey_all(&mut names) {
        Some(names)
    } else {
        None
    }
}

/// The bytes of the block of this name.
pub fn bytes_of(alloc: Global, names: &Names, name: &str) -> Option<Vec<u8>> {
    names.bytes_of(name.as_bytes())?.to_vec(alloc).ok()
}

/// The text of the transaction of this name.
pub fn text_of(names: &Names, name: &str) -> Option<Vec<u8>> {
    names.tx_of(name.as_bytes())?.encode().ok()
}

/// The point of the block of this name.
fn point_of(alloc: Global, names: &Names, name: &str) -> Option<Point> {
    match block::look(alloc, names.bytes_of(name.as_bytes())?) {
        Ok(Ok(found)) => Some(found.point()),
        Ok(Err(_)) | Err(_) => None,
    }
}

/// The point of the block of this name, and no other.
pub fn points_of(alloc: Global, names: &Names, name: &str) -> Option<Vec<Point>> {
    let point = point_of(alloc, names, name)?;
    let mut points = Vec::new(alloc);
    points.push(point).ok()?;
    Some(points)
}

/// A name as text.
pub fn shown(name: &[u8]) -> &str {
    str::from_utf8(name).unwrap_or("?")
}
