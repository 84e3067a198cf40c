//! Indexes beside followers.

ghost use Rattle.std.specs.Prelude.{◌≡◌, ◌++◌, Some, None, IfOk, OnOk, Option, List, ℕ, map, option_map};
ghost use Rattle.chain_core.specs.Views.{close_reply_of, forward_reply_of, next_reply_of};
ghost use Rattle.script.specs.RequestView.{key_address_of};
ghost use Rattle.scenario.specs.Indexes.{Indexes as PlainIndexes, KeyIndex as Index, IsIndexAfter, IsIndexText};
ghost use Rattle.scenario.specs.Indexes.{first_index, indexes_closed, indexes_forwarded, no_indexes, with_index};
ghost use Rattle.scenario.specs.IndexView.{AreIndexes, key_index_of};

use crate::key_index::KeyIndex;
use chain_core::{Instruction, NextFault, UnknownFollower};
use genesis::Genesis;
use ident::Point;
use script::KeyAddress;
use std::alloc::{AllocError, Global};
use std::collections::BTreeMap;
use watching::WatchFault;
use witness_pool::SigScheme;

/// The indexes beside followers, by the numbers of these, and the genesis with which each begins.
#[derive(Drop)]
pub struct Indexes<'g> {
    genesis: &'g Genesis,
    by_follower: BTreeMap<u64, KeyIndex>,
}

/// Appends that an index was given up.
fn print_lost(line: &mut Vec<u8>, name: &[u8]) -> Result<(), AllocError>
    ensures { OnOk result ((index : Index) → (text : List ℕ)
        × IsIndexText name.now (Some index) None text × (line.new.items ≡ line.old.items ++ text)) }
{
    line.extend_from_slice(b"watch ")?;
    line.extend_from_slice(name)?;
    line.extend_from_slice(b": lost\n")
}

impl<'g> Indexes<'g> {
    /// No follower has an index beside it.
    pub fn new(alloc: Global, genesis: &'g Genesis) -> Indexes<'g>
        ensures { AreIndexes result (no_indexes genesis.now) }
    {
        Indexes {
            genesis,
            by_follower: BTreeMap::new(alloc),
        }
    }

    /// An index of what these keys have, before the first block.
    pub fn first_index(&self, alloc: Global, keys: Vec<KeyAddress>) -> Result<KeyIndex, AllocError>
        ensures { IfOk result (λ index. (indexes : PlainIndexes) → AreIndexes self.now indexes
            → key_index_of index ≡ first_index indexes.genesis (map key_address_of keys.items)) }
    {
        KeyIndex::new(alloc, self.genesis, keys)
    }

    /// The follower of this number has this index beside it.
    pub fn put(&mut self, id: u64, index: KeyIndex) -> Result<(), AllocError>
        ensures { OnOk result ((indexes : PlainIndexes) → AreIndexes self.old indexes
            → AreIndexes self.new (with_index id (Some (key_index_of index)) indexes)) }
    {
        self.by_follower.insert(id, index)?;
        Ok(())
    }

    /// The follower of this number has no index any more: answers the one that it had, if it had one. A look-up; takes
    /// no memory.
    fn remove(&mut self, id: u64) -> Option<KeyIndex>
        ensures { (indexes : PlainIndexes) → AreIndexes self.old indexes
            → (option_map key_index_of result ≡ indexes.of_follower id)
            × AreIndexes self.new (with_index id None indexes) }
    {
        self.by_follower.remove(&id)
    }

    /// A follower of this number was to be set to a point, and was answered so: if it was, it has no index any more.
    pub fn forwarded(&mut self, id: u64, reply: Result<Option<Point>, UnknownFollower>)
        ensures { (indexes : PlainIndexes) → AreIndexes self.old indexes
            → AreIndexes self.new (indexes_forwarded id indexes (forward_reply_of reply)) }
    {
        if let Ok(Some(_)) = reply {
            self.remove(id);
        }
    }

    /// A follower of this number was to be closed, and was answered so: if it was, it has no index any more.
    pub fn closed(&mut self, id: u64, reply: Result<(), UnknownFollower>)
        ensures { (indexes : PlainIndexes) → AreIndexes self.old indexes
            → AreIndexes self.new (indexes_closed id indexes (close_reply_of reply)) }
    {
        if let Ok(()) = reply {
            self.remove(id);
        }
    }

    /// The index beside the follower of this number takes what that was told, and what its keys have then is appended;
    /// or it can't take it and is given up, which is appended. Nothing is, where there is no index. Two look-ups, and
    /// what the index takes. Where memory runs out the index is gone.
    pub fn tell<S: SigScheme>(
        &mut self,
        alloc: Global,
        line: &mut Vec<u8>,
        name: &[u8],
        id: u64,
        reply: &Result<Option<Instruction<S>>, NextFault>,
    ) -> Result<(), AllocError>
        ensures { OnOk result ((indexes : PlainIndexes) → AreIndexes self.old indexes
            → (new : Option Index) × (text : List ℕ)
            × IsIndexAfter (indexes.of_follower id) (next_reply_of reply.now) new
            × IsIndexText name.now (indexes.of_follower id) new text × (line.new.items ≡ line.old.items ++ text)
            × AreIndexes self.new (with_index id new indexes)) }
    {
        let Some(mut index) = self.remove(id) else {
            return Ok(());
        };
        match index.take(reply) {
            Ok(()) => {
                index.print(alloc, line)?;
                self.put(id, index)
            }
            Err(WatchFault::OutOfMemory) => Err(AllocError),
            Err(WatchFault::NotNext) => print_lost(line, name),
            Err(WatchFault::UnknownPoint) => print_lost(line, name),
        }
    }
}
