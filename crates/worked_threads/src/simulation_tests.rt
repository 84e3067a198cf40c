//! Simulations: peers that send from threads of their own.

use crate::fixture::{MEMORY, network_with};
use genesis::{Genesis, Scheme};
use inbox::PEERS;
use reception::WhenFull;
use scenario::{LineFault, ScenarioFault};
use simulation::{Clients, Setup, sim};
use std::process::Abort;
use std::sync::Wait;
use std::sync::atomic::{AtomicBool, AtomicU64, Ordering};
use std::thread;
use std::thread::Threads;
use witness_pool::{Gate, OpenGate, TestScheme};

/// How many threads a simulation of `clients` clients has: the adder's, the peers', and the clients'.
fn threads_of(clients: usize) -> usize {
    clients.saturating_add(PEERS + 1)
}

/// A block that arrives twice, and one that is none.
const REPEATED: &str = "block A1 genesis 1
raw Z 82840101f65820000000000000000000000000000000000000000000000000000000000000000080
send 1 A1
send 2 Z
send 3 A1
";

const REPEATED_TOLD: &str = "height 1
arrivals 3
peer 1 1
peer 2 1
peer 3 1
peer 4 0
peer 5 0
peer 6 0
peer 7 0
peer 8 0
heights ok
follower 1
";

/// The same with three clients.
const REPEATED_TOLD_TO_THREE: &str = "height 1
arrivals 3
peer 1 1
peer 2 1
peer 3 1
peer 4 0
peer 5 0
peer 6 0
peer 7 0
peer 8 0
heights ok
follower 1
follower 1
follower 1
";

/// What comes of 40 blocks of one chain, ten from each of the first four peers.
const FORTY_OF_FOUR_TOLD: &str = "height 40
arrivals 40
peer 1 10
peer 2 10
peer 3 10
peer 4 10
peer 5 0
peer 6 0
peer 7 0
peer 8 0
heights ok
follower 40
";

/// The same with three clients.
const FORTY_OF_FOUR_TOLD_TO_THREE: &str = "height 40
arrivals 40
peer 1 10
peer 2 10
peer 3 10
peer 4 10
peer 5 0
peer 6 0
peer 7 0
peer 8 0
heights ok
follower 40
follower 40
follower 40
";

/// The same of five from each peer, with one client.
const FORTY_TOLD: &str = "height 40
arrivals 40
peer 1 5
peer 2 5
peer 3 5
peer 4 5
peer 5 5
peer 6 5
peer 7 5
peer 8 5
heights ok
follower 40
";

/// Three blocks that nothing connects to the chain, as many as may be live, and then two of a chain.
const FLOOD: &str = "block X1 genesis 1
block X2 X1 2
block X3 X2 3
block X4 X3 4
block A1 genesis 5
block A2 A1 6
send 1 X2
send 1 X3
send 1 X4
send 1 A1
send 1 A2
";

/// What comes of it where such blocks stay: both are refused.
const FLOODED: &str = "height 0
arrivals 5
peer 1 5
peer 2 0
peer 3 0
peer 4 0
peer 5 0
peer 6 0
peer 7 0
peer 8 0
heights ok
follower 0
";

/// Where they are discarded: X4 for A1, and X3 for A2, since one of three is to be free.
const FREED: &str = "height 2
arrivals 5
peer 1 5
peer 2 0
peer 3 0
peer 4 0
peer 5 0
peer 6 0
peer 7 0
peer 8 0
discarded 2
heights ok
follower 2
";

/// The genesis of the small network, with another line in place of one.
fn changed(rt: &(impl Abort + AllocGlobal), line: &str, other: &str) -> Genesis {
    let text = network_with(rt, line, other);
    Genesis::from_toml(rt.alloc(), text.as_str()).expect(rt, "a genesis")
}

/// The same, with this line in place of that which says how many blocks may be rolled back.
fn genesis_of(rt: &(impl Abort + AllocGlobal), back: &str) -> Genesis {
    changed(rt, "k = 2\n", back)
}

/// So many clients, and nothing is discarded.
fn clients_of(rt: &impl Abort, clients: usize) -> Setup {
    Setup {
        clients: Clients::new(clients).expect(rt, "1 to 8 clients"),
        when_full: WhenFull::Refuse,
    }
}

/// A chain of 40 blocks, which `peers` peers send in turn: the first one the first block, and so on.
fn forty_blocks(rt: &(impl Abort + AllocGlobal), peers: u64) -> String {
    let mut lines = String::new(rt.alloc());
    lines.push_str("block N1 genesis 1\n").expect(rt, MEMORY);
    for number in 2..41u64 {
        let parent = number - 1;
        write!(lines, "block N{number} N{parent} {number}\n").expect(rt, MEMORY);
    }
    for number in 1..41u64 {
        let turn = (number - 1).checked_rem(peers).unwrap_or(0);
        let peer = turn.saturating_add(1);
        write!(lines, "send {peer} N{number}\n").expect(rt, MEMORY);
    }
    lines
}

/// A simulation of this script, on this genesis and set up so, prints this.
fn simulates_on<G: Gate>(
    rt: &(impl Abort + Threads + Wait + Sync + AllocGlobal),
    genesis: Genesis,
    script: &str,
    setup: Setup,
    gate: &G,
    told: &str,
) {
    let mut reader = script.as_bytes();
    let mut out = Vec::new(rt.alloc());
    let ended = sim::<TestScheme, _, _, _, _>(
        rt,
        genesis,
        Scheme::Test,
        &mut reader,
        &mut out,
        setup,
        gate,
    );
    assert!(rt; ended == Ok(()));
    assert!(rt; out.as_slice() == told.as_bytes());
}

/// The same with `clients` clients, where the line says how many blocks may be rolled back.
fn simulates<G: Gate>(
    rt: &(impl Abort + Threads + Wait + Sync + AllocGlobal),
    back: &str,
    script: &str,
    clients: usize,
    gate: &G,
    told: &str,
) {
    let setup = clients_of(rt, clients);
    simulates_on(rt, genesis_of(rt, back), script, setup, gate, told);
}

// Whatever the schedule.
#[test]
fn forty_blocks_from_eight_peers(rt: HostRuntime) {
    let script = forty_blocks(&rt, 8);
    for _ in 0..50u64 {
        simulates(&rt, "k = 50\n", &script, 1, &OpenGate, FORTY_TOLD);
    }
}

#[test]
fn forty_blocks_from_four_peers(rt: HostRuntime) {
    let script = forty_blocks(&rt, 4);
    for _ in 0..50u64 {
        simulates(&rt, "k = 50\n", &script, 1, &OpenGate, FORTY_OF_FOUR_TOLD);
    }
}

#[test]
fn several_clients(rt: HostRuntime) {
    let script = forty_blocks(&rt, 4);
    for _ in 0..50u64 {
        simulates(
            &rt,
            "k = 50\n",
            &script,
            3,
            &OpenGate,
            FORTY_OF_FOUR_TOLD_TO_THREE,
        );
    }
}

#[test]
fn repeated_arrivals(rt: HostRuntime) {
    for _ in 0..50u64 {
        simulates(&rt, "k = 2\n", REPEATED, 1, &OpenGate, REPEATED_TOLD);
    }
}

// One peer sends all of it, so the order is that of the script.
#[test]
fn a_flood_is_ended(rt: HostRuntime) {
    let line = "max_volatile = 100\n";
    let few = "max_volatile = 3\n";
    let stays = clients_of(&rt, 1);
    let genesis = changed(&rt, line, few);
    simulates_on(&rt, genesis, FLOOD, stays, &OpenGate, FLOODED);
    let goes = Setup {
        clients: stays.clients,
        when_full: WhenFull::Discard,
    };
    let genesis = changed(&rt, line, few);
    simulates_on(&rt, genesis, FLOOD, goes, &OpenGate, FREED);
}

/// A gate at which each thread waits for all the others to begin.
#[derive(Drop)]
struct Gathering {
    begun: Vec<AtomicBool>,
    gathered: AtomicU64,
    ended: AtomicU64,
}

impl Gathering {
    /// None of `threads` threads has begun.
    fn new(rt: &(impl Abort + AllocGlobal), threads: usize) -> Gathering {
        let mut begun = Vec::new(rt.alloc());
        for _ in 0..threads {
            begun.push(AtomicBool::new(false)).expect(rt, MEMORY);
        }
        Gathering {
            begun,
            gathered: AtomicU64::new(0),
            ended: AtomicU64::new(0),
        }
    }

    /// Whether all threads have begun.
    fn is_complete(&self) -> bool {
        self.begun.iter().all(|begun| begun.load(Ordering::SeqCst))
    }
}

impl Gate for Gathering {
    fn start(&self, job: usize) {
        if let Some(begun) = self.begun.get(job.wrapping_sub(1)) {
            begun.store(true, Ordering::SeqCst);
        }
        for _ in 0..1_000_000u32 {
            if self.is_complete() {
                self.gathered.fetch_add(1, Ordering::SeqCst);
                return;
            }
            thread::yield_now();
        }
    }

    fn done(&self, _job: usize) {
        self.ended.fetch_add(1, Ordering::SeqCst);
    }
}

/// All threads of a simulation with `clients` clients begin before any of them goes on.
fn gathers(rt: &(impl Abort + Threads + Wait + Sync + AllocGlobal), clients: usize, told: &str) {
    let threads = threads_of(clients);
    let gate = Gathering::new(rt, threads);
    simulates(rt, "k = 2\n", REPEATED, clients, &gate, told);
    assert!(rt; gate.gathered.load(Ordering::SeqCst) == threads as u64);
    assert!(rt; gate.ended.load(Ordering::SeqCst) == threads as u64);
}

#[test]
fn all_threads_start(rt: HostRuntime) {
    gathers(&rt, 1, REPEATED_TOLD);
    gathers(&rt, 3, REPEATED_TOLD_TO_THREE);
}

// The fault of a script is told before any thread starts.
#[test]
fn fault_before_any_thread(rt: HostRuntime) {
    let gate = Gathering::new(&rt, threads_of(1));
    let setup = clients_of(&rt, 1);
    let genesis = genesis_of(&rt, "k = 2\n");
    let mut reader = b"block A1 genesis 1\nsend 1 A1\narrive A1\n".as_slice();
    let mut out = Vec::new(rt.alloc());
    let fault = ScenarioFault::Line {
        number: 3,
        fault: LineFault::BadLine,
    };
    let ended = sim::<TestScheme, _, _, _, _>(
        &rt,
        genesis,
        Scheme::Test,
        &mut reader,
        &mut out,
        setup,
        &gate,
    );
    assert!(&rt; ended == Err(fault));
    assert!(&rt; out.is_empty());
    assert!(&rt; !gate.is_complete());
    assert!(&rt; gate.ended.load(Ordering::SeqCst) == 0);
}
