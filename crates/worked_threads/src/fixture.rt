//! The small network, blocks and payments by the lines of scripts, and the parts of a shared core.

ghost use Rattle.std.specs.Prelude.{◌≡◌, []};
ghost use Rattle.model.specs.Chain.{IsOpening};
ghost use Rattle.model.specs.Signature.{test_verifies};
ghost use Rattle.shared.specs.Starts.{network_from};

use file_disk::FileDisk;
use flushing::Restart;
use genesis::{Genesis, Scheme};
use immlog::Log;
use inbox::{Mailroom, PEERS, PeerEnd};
use script::{LinePlace, Names};
use shared::{Adder, Caller, OpenFault, Opened, Room, Shared};
use std::fs::OpenFile;
use std::io::{Read, Seek, Write};
use std::process::Abort;
use std::sync::Wait;
use std::thread::Threads;
use witness_pool::{Gate, Pool, TestScheme};

// Each way out of a function drops all that it owns, which makes its proof longer. So a lack of memory and what can't
// be otherwise end a test on the spot, and what has much to drop stands in a box, whose drop is a call.

/// What is said where memory runs out.
pub const MEMORY: &str = "memory";

/// The value in a box.
pub fn boxed<T: Drop>(rt: &(impl Abort + AllocGlobal), value: T) -> Box<T> {
    Box::new(rt.alloc(), value).expect(rt, MEMORY)
}

/// The genesis of a network where 2 blocks may be rolled back and 100 live ones are kept.
pub const SMALL_NETWORK: &str = "network = 0
k = 2
min_fee_a = 1
min_fee_b = 100
min_utxo = 10
max_tx_size = 4096
max_body_size = 65536
max_volatile = 100
max_mempool = 100
[[output]]
key = \"0101010101010101010101010101010101010101010101010101010101010101\"
coin = 1200
";

/// The same with another line in place of one.
pub fn network_with(rt: &(impl Abort + AllocGlobal), line: &str, other: &str) -> String {
    SMALL_NETWORK
        .replace(rt.alloc(), line, other)
        .expect(rt, MEMORY)
}

/// Two payments, the second of what the first leaves.
const PAYMENTS: &str = "key K 0101010101010101010101010101010101010101010101010101010101010101
tx First
in genesis 0
out key K 910
fee 290
sign K
end
tx Second
in First 0
out key K 600
fee 310
sign K
end
";

/// The genesis of the small network.
pub fn genesis_of(rt: &(impl Abort + AllocGlobal)) -> Genesis {
    Genesis::from_toml(rt.alloc(), SMALL_NETWORK).expect(rt, "a genesis")
}

/// The core of the small network, for `callers` callers.
pub fn open(
    rt: &(impl Abort + AllocGlobal),
    callers: usize,
) -> Result<Opened<TestScheme>, OpenFault> {
    Opened::new(rt.alloc(), genesis_of(rt), callers)
}

/// The lines give names.
fn obey_all(rt: &impl Abort, names: &mut Names, lines: &str) {
    for line in lines.lines() {
        let place = LinePlace {
            number: 1,
            before: 0,
        };
        let asked = names.obey(place, line.as_bytes());
        assert!(rt; asked.is_ok(), "{line}");
    }
}

/// The names of the payments, and those that these lines give.
pub fn names_of(rt: &(impl Abort + AllocGlobal), lines: &str) -> Box<Names> {
    let genesis = genesis_of(rt);
    let names = Names::new(rt.alloc(), &genesis, Scheme::Test);
    let mut names = Box::new(rt.alloc(), names).expect(rt, MEMORY);
    obey_all(rt, &mut names, PAYMENTS);
    obey_all(rt, &mut names, lines);
    names
}

/// The bytes of the block of this name.
pub fn bytes_of<'a>(rt: &impl Abort, names: &'a Names, name: &str) -> &'a [u8] {
    names.bytes_of(name.as_bytes()).expect(rt, "a block")
}

/// A copy of the bytes.
pub fn copy(rt: &(impl Abort + AllocGlobal), bytes: &[u8]) -> Vec<u8> {
    bytes.to_vec(rt.alloc()).expect(rt, MEMORY)
}

/// A shared core of an adder and callers, and the peers of the adder's inbox.
#[derive(Drop)]
pub struct Parts<G, B: Room, M: Mailroom> {
    pub shared: Shared<TestScheme, B>,
    pub adder: Adder<TestScheme, G, B, M>,
    pub peers: [PeerEnd<M>; PEERS],
    pub callers: Vec<Caller<B>>,
}

/// The core and the inbox under their names, with an adder that has its blocks checked by two workers of a pool that
/// tells this gate. It is the last of the callers.
pub fn parts_of<G: Gate + Drop, B: Room, M: Mailroom>(
    rt: &(impl Abort + AllocGlobal),
    gate: G,
    opened: Opened<TestScheme>,
    inbox: inbox::Opened,
) -> Box<Parts<G, B, M>>
    requires table { opened.table ≡ B.table }
    requires start { opened.start ≡ B.start }
    requires queue { inbox.table ≡ M.table }
    requires capacity { inbox.capacity ≡ M.capacity }
    // What the core begins from is sound.
    ensures { IsOpening (network_from B.start test_verifies) }
{
    let (shared, mut callers) = opened.named::<B>().expect(rt, MEMORY);
    let (peers, end) = inbox.named::<M>().expect(rt, MEMORY);
    let caller = next_of(rt, &mut callers);
    let parts = Parts {
        shared,
        adder: Adder::new(rt.alloc(), end, caller, Pool::new(gate), 2),
        peers,
        callers,
    };
    Box::new(rt.alloc(), parts).expect(rt, MEMORY)
}

/// The number that this is said of is the one that is wanted.
pub fn same(rt: &impl Abort, about: &str, found: u64, want: u64) {
    assert!(rt; found == want, "{about}: {found} in place of {want}");
}

/// The next of the callers.
pub fn next_of<B: Room>(rt: &impl Abort, callers: &mut Vec<Caller<B>>) -> Caller<B> {
    callers.pop().expect(rt, "another caller")
}

/// The peer sends these bytes, for which there has to be room.
pub fn sends<M: Mailroom, R: Wait + Abort + AllocGlobal>(
    rt: &R,
    peer: &mut PeerEnd<M>,
    bytes: &[u8],
) {
    let sent = peer.send(rt, copy(rt, bytes));
    assert!(rt; sent.is_ok());
}

/// The adder brings `want` arrivals in `turns` turns.
pub fn adds<G, B, M, R>(
    rt: &R,
    adder: &mut Adder<TestScheme, G, B, M>,
    shared: &Shared<TestScheme, B>,
    turns: u64,
    want: u64,
)
where
    G: Gate,
    B: Room,
    M: Mailroom,
    R: Threads + Wait + Abort + Sync,
{
    let many = adder.run(rt, shared, turns).expect(rt, MEMORY);
    same(rt, "arrivals", many, want);
}

/// The adder brings what is left of what the peers sent.
pub fn drains<G, B, M, R>(
    rt: &R,
    adder: &mut Adder<TestScheme, G, B, M>,
    shared: &Shared<TestScheme, B>,
    peers: &mut [PeerEnd<M>; PEERS],
)
where
    G: Gate,
    B: Room,
    M: Mailroom,
    R: Threads + Wait + Abort + Sync,
{
    adder.drain(rt, shared, peers).expect(rt, MEMORY);
}

/// A chain of `blocks` blocks, by lines of scripts.
pub fn chain_lines(rt: &(impl Abort + AllocGlobal), blocks: usize) -> String {
    let mut lines = String::new(rt.alloc());
    lines.push_str("block B1 genesis 1\n").expect(rt, MEMORY);
    for number in 2..=blocks {
        let before = number.saturating_sub(1);
        let line = format!(in rt.alloc(); "block B{number} B{before} {number}\n");
        lines.push_str(&line.expect(rt, MEMORY)).expect(rt, MEMORY);
    }
    lines
}

/// The peers send the blocks of these numbers in turns, each the next one.
pub fn send_blocks<M: Mailroom, R: Wait + Abort + AllocGlobal>(
    rt: &R,
    peers: &mut [PeerEnd<M>; PEERS],
    names: &Names,
    first: usize,
    last: usize,
) {
    for number in first..=last {
        let name = format!(in rt.alloc(); "B{number}").expect(rt, MEMORY);
        sends(rt, &mut peers[number % PEERS], bytes_of(rt, names, &name));
    }
}

/// A log without blocks, on this file.
pub fn log_on<F: Read + Write + Seek + OpenFile + Drop>(
    rt: &(impl Abort + AllocGlobal),
    file: F,
) -> Log<FileDisk<F>>
    ensures { result.blocks ≡ [] }
{
    let disk = FileDisk::open(rt.alloc(), file).expect(rt, MEMORY);
    match Log::create(rt.alloc(), disk) {
        Ok(log) => log,
        Err(_) => rt.abort(),
    }
}

/// A node that begins, on no block.
pub fn restart_of(rt: &(impl Abort + AllocGlobal)) -> Restart<TestScheme>
    ensures { result.blocks ≡ [] }
{
    Restart::new(rt.alloc(), genesis_of(rt)).expect(rt, MEMORY)
}

/// The log that is in the file of this one, with a node that begins on its blocks.
pub fn again<F: Read + Write + Seek + OpenFile + Drop>(
    rt: &(impl Abort + AllocGlobal + Threads + Sync),
    log: Log<FileDisk<F>>,
) -> (Log<FileDisk<F>>, Restart<TestScheme>)
    ensures { result.1.blocks ≡ result.0.blocks }
{
    let disk = FileDisk::open(rt.alloc(), log.into_disk().into_file()).expect(rt, MEMORY);
    let mut restart = restart_of(rt);
    match Log::open(rt, rt.alloc(), disk, &mut restart) {
        Ok(log) => (log, restart),
        Err(_) => rt.abort(),
    }
}
