//! An adder has its blocks' transactions checked by the workers of its pool.

ghost use Rattle.std.specs.Prelude.{◌≡◌};

use super::fixture::{
    MEMORY, Parts, adds, bytes_of, names_of, next_of, open, parts_of, same, sends,
};
use inbox::Mailroom;
use shared::{Opened, Room};
use std::alloc::Global;
use std::marker::Brand;
use std::process::Abort;
use std::sync::atomic::{AtomicBool, AtomicU64, Ordering};
use std::sync::{Arc, Wait};
use std::thread::{self, Threads};
use witness_pool::{Gate, TestScheme};

/// A gate at which each of the first two jobs waits for the other to begin.
#[derive(Drop)]
struct Meeting {
    begun: [AtomicBool; 2],
    met: AtomicU64,
}

impl Gate for Meeting {
    fn start(&self, job: usize) {
        let [first, second] = &self.begun;
        let (mine, other) = match job {
            1 => (first, second),
            2 => (second, first),
            _ => return,
        };
        mine.store(true, Ordering::SeqCst);
        for _ in 0..1_000_000u32 {
            if other.load(Ordering::SeqCst) {
                self.met.fetch_add(1, Ordering::SeqCst);
                return;
            }
            thread::yield_now();
        }
    }

    fn done(&self, _job: usize) {}
}

/// A way in through a gate that the test keeps.
#[derive(Drop)]
struct Way {
    gate: Arc<Meeting, Global>,
}

impl Gate for Way {
    fn start(&self, job: usize) {
        self.gate.start(job);
    }

    fn done(&self, job: usize) {
        self.gate.done(job);
    }
}

/// The adder takes the block that the peer sent, and the height is then 1.
fn takes_one<B: Room, M: Mailroom, R: Threads + Wait + Abort + AllocGlobal + Sync>(
    rt: &R,
    parts: &mut Parts<Way, B, M>,
    bytes: &[u8],
) {
    let Parts {
        shared,
        adder,
        peers,
        callers,
    } = parts;
    let mut caller = next_of(rt, callers);
    sends(rt, &mut peers[0], bytes);
    adds(rt, adder, shared, 1, 1);
    same(rt, "height", shared.height(&mut caller), 1);
}

/// A block of two payments is brought by an adder with two workers, each of which waits for the other.
fn checked_by_two<B: Room, M: Mailroom, R: Threads + Wait + Abort + AllocGlobal + Sync>(
    rt: &R,
    gate: Way,
    opened: Opened<TestScheme>,
    inbox: inbox::Opened,
)
    requires table { opened.table ≡ B.table }
    requires start { opened.start ≡ B.start }
    requires queue { inbox.table ≡ M.table }
    requires capacity { inbox.capacity ≡ M.capacity }
{
    let names = names_of(rt, "block A1 genesis 1 First Second");
    let mut parts = parts_of::<Way, B, M>(rt, gate, opened, inbox);
    takes_one(rt, &mut parts, bytes_of(rt, &names, "A1"));
}

#[test]
fn adder_uses_its_pool(rt: HostRuntime) {
    let meeting = Meeting {
        begun: [AtomicBool::new(false), AtomicBool::new(false)],
        met: AtomicU64::new(0),
    };
    let gate = Arc::new(rt.alloc(), meeting).expect(&rt, MEMORY);
    let way = Way {
        gate: Arc::try_clone(&gate).expect(&rt, MEMORY),
    };
    let opened = open(&rt, 2).expect(&rt, "a shared core");
    let inbox = inbox::Opened::new(rt.alloc(), 8).expect(&rt, "an inbox");
    checked_by_two::<Brand, Brand, _>(&rt, way, opened, inbox);
    assert!(rt; gate.met.load(Ordering::SeqCst) == 2);
}
