//! A small network, and blocks without transactions by their place on a chain.

use block::{Header, empty_body_hash, read, write_empty};
use chain_core::{ArriveReply, Core, RawEvent, Reply};
use genesis::Genesis;
use ident::BlockHash;
use std::process::Abort;
use witness_pool::TestScheme;

// Each way out of a function drops all that it owns, which makes its proof longer. So a lack of memory and what can't
// be otherwise end a test on the spot, and what has much to drop stands in a box, whose drop is a call.

/// What is said where memory runs out.
pub const MEMORY: &str = "memory";

/// The value in a box.
pub fn boxed<T: Drop>(rt: &(impl Abort + AllocGlobal), value: T) -> Box<T> {
    Box::new(rt.alloc(), value).expect(rt, MEMORY)
}

/// The genesis of a network where 2 blocks may be rolled back and 100 live ones are kept.
pub const SMALL_NETWORK: &str = "network = 0
k = 2
min_fee_a = 1
min_fee_b = 100
min_utxo = 10
max_tx_size = 4096
max_body_size = 65536
max_volatile = 100
max_mempool = 100
[[output]]
key = \"0101010101010101010101010101010101010101010101010101010101010101\"
coin = 1200
";

/// The same with 2,000 live blocks.
pub const MANY_LIVE_BLOCKS: &str = "network = 0
k = 2
min_fee_a = 1
min_fee_b = 100
min_utxo = 10
max_tx_size = 4096
max_body_size = 65536
max_volatile = 2000
max_mempool = 100
[[output]]
key = \"0101010101010101010101010101010101010101010101010101010101010101\"
coin = 1200
";

/// A block's text, with what the next block has to know of it.
#[derive(Drop)]
pub struct Made {
    pub text: Vec<u8>,
    pub number: u64,
    pub hash: BlockHash,
}

/// The header of the block without transactions that goes on from the parent, or of the first one, in this slot.
fn header_of(parent: Option<&Made>, slot: u64) -> Header {
    let (number, previous) = match parent {
        Some(made) => (made.number.saturating_add(1), Some(made.hash)),
        None => (1, None),
    };
    Header {
        number,
        slot,
        previous,
        body_hash: empty_body_hash(),
    }
}

/// That block.
pub fn make(rt: &(impl Abort + AllocGlobal), parent: Option<&Made>, slot: u64) -> Made {
    let header = header_of(parent, slot);
    let text = write_empty(rt.alloc(), &header).expect(rt, "a block");
    let hash = boxed(rt, read(rt.alloc(), &text).expect(rt, "a block")).hash();
    Made {
        text,
        number: header.number,
        hash,
    }
}

/// The block without transactions that goes on from this one, in this slot.
pub fn after(rt: &(impl Abort + AllocGlobal), parent: &Made, slot: u64) -> Made {
    make(rt, Some(parent), slot)
}

/// The blocks of a chain, in the slots from 1 on.
pub fn chain_of(rt: &(impl Abort + AllocGlobal), count: u64) -> Vec<Made> {
    let mut blocks: Vec<Made> = Vec::new(rt.alloc());
    for slot in 0..count {
        let next = make(rt, blocks.last(), slot.saturating_add(1));
        blocks.push(next).expect(rt, MEMORY);
    }
    blocks
}

/// A core that nothing has come to, on the network of this text.
pub fn core_on(rt: &(impl Abort + AllocGlobal), network: &str) -> Box<Core<TestScheme>> {
    let genesis = Genesis::from_toml(rt.alloc(), network).expect(rt, "a genesis");
    boxed(rt, Core::new(rt.alloc(), genesis).expect(rt, MEMORY))
}

/// What the core answers to bytes. It promises nothing, which keeps the proofs of the tests short, as those below do.
pub fn arrive_at(rt: &impl Abort, core: &mut Core<TestScheme>, bytes: &[u8]) -> ArriveReply {
    core.arrive(bytes).expect(rt, MEMORY)
}

/// The core answers these bytes so.
pub fn answers(rt: &impl Abort, core: &mut Core<TestScheme>, bytes: &[u8], want: ArriveReply) {
    let reply = arrive_at(rt, core, bytes);
    assert!(rt; reply == want);
}

/// What the core answers to events.
pub fn run_all(
    rt: &(impl Abort + AllocGlobal),
    core: &mut Core<TestScheme>,
    events: &[RawEvent],
) -> Box<Vec<Reply<TestScheme>>> {
    boxed(rt, core.run(events).expect(rt, MEMORY))
}

/// What is said of a block that is kept.
pub fn kept(back: u64, added: u64) -> ArriveReply {
    ArriveReply::Kept { back, added }
}

/// The number that this is said of is the one that is wanted.
pub fn same(rt: &impl Abort, about: &str, found: u64, want: u64) {
    assert!(rt; found == want, "{about}: {found} in place of {want}");
}
