//! How much a core holds, in numbers.

ghost use Rattle.model.specs.History.{State};
ghost use Rattle.chain_core.specs.Held.{network_held, Stands};
ghost use Rattle.chain_core.specs.Census.{IsCensus};

use crate::node_core::Core;
use witness_pool::SigScheme;

/// How much a core holds: what whoever runs a node watches.
#[derive(Clone, Copy, Debug, Drop, PartialEq, Eq)]
pub struct Census {
    /// How many blocks the selected chain has.
    pub height: u64,
    /// The slot of its last block, and 0 where it has none.
    pub slot: u64,
    /// How many of its blocks are never rolled back.
    pub immutable: u64,
    /// How many live blocks there are, those of the selected chain that may be rolled back among them.
    pub live: u64,
    /// How many transactions wait in the mempool.
    pub waiting: u64,
    /// How many bytes their texts have together.
    pub waiting_bytes: u64,
    /// How many outputs are unspent.
    pub outputs: u64,
    /// How many followers are open.
    pub followers: u64,
}

impl<S: SigScheme> Core<S> {
    /// How much the core holds now. In constant time; takes no memory.
    pub fn census(&self) -> Census
        // It is so in every state of the definitions that the core stands for.
        ensures { (s : State) → Stands self.now s → IsCensus (network_held self.now S.verifies) s result }
    {
        let mempool = self.mempool();
        Census {
            height: self.height(),
            slot: self.slot(),
            immutable: self.immutable(),
            live: self.live_blocks(),
            waiting: mempool.len() as u64,
            waiting_bytes: mempool.bytes(),
            outputs: self.utxo().len() as u64,
            followers: self.followers.count() as u64,
        }
    }
}
