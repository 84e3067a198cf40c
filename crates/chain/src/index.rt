//! The first blocks of a chain, found by their hashes.

ghost use Rattle.std.specs.Prelude.{◌≡◌, ◌↔◌, ◌<◌, ◌≤◌, length, option_map, vec_capacity, Some, IsTrue};
ghost use Rattle.model.specs.Block.{block_hash_of};
ghost use Rattle.chain.specs.Chained.{chain_of, block_numbered};
ghost use Rattle.chain.specs.Indexed.{first_hashes};
ghost use Rattle.chain.specs.Searches.{bit_of, child_by, with_child_by, IsRising, IsSearched, IsHung};

use crate::chain::Chain;
use http_server::Log;
use ident::BlockHash;
use std::alloc::{AllocError, Global};
use std::marker::Model;
use witness_pool::SigScheme;

/// The children of a block in the tree, by a clear and a set bit: the numbers of the blocks to which the search for a
/// hash goes on from it, 0 where there is none.
#[derive(Clone, Copy)]
struct Node {
    clear: u32,
    set: u32,
}

/// Where the search for a hash ends.
#[derive(Clone, Copy)]
enum Seek {
    /// At the block of this number, which has it.
    Found(u32),
    /// At the block of this number, from which it would go on by this bit.
    Ends(u32, bool),
}

/// The bit of a hash by which the search goes on at this depth.
fn bit_at(hash: BlockHash, depth: usize) -> bool
    ensures { result ≡ bit_of hash.bytes depth }
{
    (hash.as_bytes()[depth % 32] >> (depth / 32 % 8)) % 2 == 1
}

/// The child by this bit.
fn child_of(node: Node, bit: bool) -> u32
    ensures { result ≡ child_by node bit }
{
    if bit { node.set } else { node.clear }
}

/// The node with this child by this bit.
fn with_child(node: Node, bit: bool, number: u32) -> Node
    ensures { result ≡ with_child_by node bit number }
{
    if bit {
        Node {
            set: number,
            ..node
        }
    } else {
        Node {
            clear: number,
            ..node
        }
    }
}

/// Whether the block of this number has the hash.
fn has_hash<S: SigScheme>(chain: &Chain<S>, number: u64, hash: BlockHash) -> bool
    ensures { IsTrue result ↔
        (option_map block_hash_of (block_numbered (chain_of chain.now) number) ≡ Some hash.bytes) }
{
    match chain.hash_of(number) {
        Some(other) => other == hash,
        None => false,
    }
}

/// Searches for a hash from the first block on.
fn search<S: SigScheme>(nodes: &[Node], chain: &Chain<S>, hash: BlockHash) -> Seek
    requires some { 0 < length nodes.now }
    requires within { length nodes.now ≤ length (chain_of chain.now) }
    requires rising { IsRising nodes.now }
    ensures { IsSearched nodes.now (first_hashes (length nodes.now) (chain_of chain.now)) hash.bytes result }
{
    let mut number = 1u32;
    let mut depth = 0usize;
    'down: loop {
        if has_hash(chain, number as u64, hash) {
            return Seek::Found(number);
        }
        let bit = bit_at(hash, depth);
        let next = child_of(nodes[number as usize - 1], bit);
        if next == 0 {
            return Seek::Ends(number, bit);
        }
        number = next;
        depth += 1;
    }
}

/// Where the search for a hash ends at a block without it, makes it go on from there to the block behind the last one
/// indexed.
fn hang<S: SigScheme>(nodes: &mut Vec<Node>, chain: &Chain<S>, hash: BlockHash)
    requires few { length nodes.old.items < 4294967295 }
    requires within { length nodes.old.items ≤ length (chain_of chain.now) }
    requires rising { IsRising nodes.old.items }
    ensures hung { IsHung nodes.old.items (first_hashes (length nodes.old.items) (chain_of chain.now)) hash.bytes
        nodes.new.items }
    ensures room { vec_capacity nodes.new ≡ vec_capacity nodes.old }
{
    if nodes.is_empty() {
        return;
    }
    let next = nodes.len() as u32 + 1;
    if let Seek::Ends(last, bit) = search(nodes, chain, hash) {
        let place = last as usize - 1;
        nodes[place] = with_child(nodes[place], bit, next);
    }
}

/// The numbers of the first blocks of a chain by the blocks' hashes, which the chain keeps: 8 bytes for each block.
///
/// It is a digital search tree: the search goes from the first block on to later ones, at each by one bit more of the
/// hash, until a block has it. Of hashes that look random, a look-up takes a few steps more than the logarithm of how
/// many blocks there are, and compares one hash at each. To make it take one step more one has to try twice as many
/// blocks.
///
/// In contracts it is the list of the hashes, and how many there is memory for: at most 2^32 - 1.
#[derive(Drop)]
pub struct HashIndex {
    nodes: Vec<Node>,
    noted: Log<BlockHash, ()>, // what only proofs read
}

impl Model for HashIndex {
    ghost use Rattle.chain.specs.Indexed.{Indexed, coded_indexed};

    ghost Value = { Indexed };

    ghost coded = { coded_indexed };

    ghost use Rattle.chain.specs.InsideIndex.{indexed, IsIndex};

    ghost view = { indexed };

    ghost invariant = { IsIndex };
}

impl HashIndex {
    ghost use Rattle.std.specs.Prelude.{◌≡◌, ◌<◌, ◌≤◌, ◌+◌, [], length, take, max, OnOk, OnErr, MatchOption, Some};
    ghost use Rattle.model.specs.Block.{Block, block_hash_of};
    ghost use Rattle.model.specs.Chain.{NoneHas};
    ghost use Rattle.chain.specs.Chained.{chain_of, block_numbered};
    ghost use Rattle.chain.specs.Indexed.{first_hashes};

    /// Without a block. Takes no memory.
    pub fn new(alloc: Global) -> HashIndex
        ensures { result ≡ record { hashes = []; room = 0 } }
    {
        HashIndex {
            nodes: Vec::new(alloc),
            noted: Log::new(),
        }
    }

    /// How many blocks are indexed. In constant time.
    pub fn len(&self) -> usize
        ensures { result ≡ length self.now.hashes }
    {
        self.nodes.len()
    }

    /// Makes room for `more` blocks more, 8 bytes each. Err where memory runs out, or they would be 2^32 or more:
    /// nothing changes then.
    pub fn reserve(&mut self, more: usize) -> Result<(), AllocError>
        ensures room { OnOk result (length self.new.hashes + more ≤ self.new.room) }
        ensures frame { self.new ≡ record self.old { room = self.new.room } }
        ensures err { OnErr result (self.new ≡ self.old) }
    {
        if more > u32::MAX as usize - self.nodes.len() {
            return Err(AllocError);
        }
        self.nodes.reserve(more)
    }

    /// Indexes the next block of the chain, of which the first ones are indexed, and for which there is room. A
    /// look-up; takes no memory.
    pub fn push<S: SigScheme>(&mut self, chain: &Chain<S>)
        requires noted { self.old.hashes ≡ first_hashes (length self.old.hashes) (chain_of chain.now) }
        requires next { length self.old.hashes < length (chain_of chain.now) }
        requires room { length self.old.hashes < self.old.room }
        ensures { self.new ≡ record self.old {
          hashes = first_hashes (length self.old.hashes + 1) (chain_of chain.now);
        } }
    {
        let number = self.nodes.len() as u64 + 1;
        let Some(hash) = chain.hash_of(number) else {
            unreachable!();
        };
        hang(&mut self.nodes, chain, hash);
        self.nodes.push_reserved(Node { clear: 0, set: 0 });
        self.noted = self.noted.and(&hash, &());
    }

    /// Indexes the next blocks of the chain up to the number `up_to`, for which there is room; none where as many or more
    /// are indexed. A look-up for each; takes no memory.
    pub fn push_up_to<S: SigScheme>(&mut self, chain: &Chain<S>, up_to: usize)
        requires noted { self.old.hashes ≡ first_hashes (length self.old.hashes) (chain_of chain.now) }
        requires within { up_to ≤ length (chain_of chain.now) }
        requires room { up_to ≤ self.old.room }
        ensures { self.new ≡ record self.old {
          hashes = first_hashes (max (length self.old.hashes) up_to) (chain_of chain.now);
        } }
    {
        for _number in self.len()..up_to {
            self.push(chain);
        }
    }

    /// The number of a block of this hash, among the first blocks of the chain, which are indexed. A look-up: takes no
    /// memory.
    pub fn number_of<S: SigScheme>(&self, chain: &Chain<S>, hash: BlockHash) -> Option<u64>
        requires { self.now.hashes ≡ first_hashes (length self.now.hashes) (chain_of chain.now) }
        ensures { MatchOption result (NoneHas (take (length self.now.hashes) (chain_of chain.now)) hash.bytes)
            (λ n. (n ≤ length self.now.hashes) × ((b : Block)
            × (block_numbered (chain_of chain.now) n ≡ Some b) × (block_hash_of b ≡ hash.bytes))) }
    {
        if self.nodes.is_empty() {
            return None;
        }
        match search(&self.nodes, chain, hash) {
            Seek::Found(number) => Some(number as u64),
            Seek::Ends(_, _) => None,
        }
    }
}
