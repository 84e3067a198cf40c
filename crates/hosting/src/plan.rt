//! What a node is started with.

ghost use Rattle.std.specs.Prelude.{◌≡◌, IfSome};
ghost use Rattle.witness_pool.specs.Workers.{AreWorkers};

use peering::Framing;
use reception::{Places, WhenFull};

/// The most lanes of clients that a node has: each has a caller of its own, and the node has four more.
pub const MAX_CLIENT_LANES: usize = 60;

/// A client's lane.
#[derive(Debug, Drop)]
pub enum ClientLane {
    /// Files, named pipes, or open descriptors of the process under `/dev/fd`, by their paths.
    Paths {
        /// Where the client's lines are read.
        input: String,
        /// Where the replies are written, behind what is there.
        output: String,
    },
    /// Standard input and output.
    Standard,
}

/// A peer's lane.
#[derive(Debug, Drop)]
pub struct PeerLane {
    /// The path of what it sends.
    pub input: String,
    pub framing: Framing,
}

/// The most workers that check signatures of one block at once.
pub const MAX_WORKERS: usize = 16;

/// How many workers check the signatures of a block that arrives, 1 to 16.
#[derive(Clone, Copy, Debug, PartialEq, Eq)]
pub struct Workers {
    pub many: usize,
    pub ghost range: { AreWorkers many },
}

impl Workers {
    /// So many; None where they are fewer or more.
    pub fn new(many: usize) -> Option<Workers>
        ensures { IfSome result (λ workers. workers.many ≡ many) }
    {
        if many == 0 || many > MAX_WORKERS {
            return None;
        }
        Some(Workers { many })
    }
}

/// What a node is started with.
#[derive(Debug, Drop)]
pub struct Plan {
    /// At most `MAX_CLIENT_LANES`.
    pub clients: Vec<ClientLane>,
    /// At most as many as an inbox has peers; the lanes behind are left out.
    pub peers: Vec<PeerLane>,
    pub workers: Workers,
    /// Whether the node ends when nobody is left who could send a block or ask for something, and not only where a
    /// client asks it to.
    pub until_closed: bool,
    /// What is done where a block has no place among the live ones.
    pub when_full: WhenFull,
    /// How much may be live.
    pub places: Places,
    /// The path of the file in which what the node counts is written down each second, if it is to be: that file, and
    /// the one of the same name with `.next` behind it, are overwritten. [`begin_figures`](crate::begin_figures) looks
    /// whether they may be.
    pub metrics: Option<String>,
}

impl Plan {
    /// How many callers the node's core has: one for each client, and four for the node itself.
    pub fn callers(&self) -> usize {
        self.clients.len().saturating_add(4)
    }
}
