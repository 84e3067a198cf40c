//! The live blocks that no way leads to, one after the other.

ghost use Rattle.std.specs.Iterator.{YieldsFirstRef, item_count};

use crate::hash_key::HashKey;
use crate::keys::Age;
use crate::placed_block::PlacedBlock;
use block::Block;
use std::collections::BTreeMap;
use std::collections::btree_set::Iter;
use std::marker::Model;
use witness_pool::SigScheme;

/// The live blocks that are still to come of those that have a mark or that no way leads to, those with the greatest
/// numbers first: no chain of live blocks without marks goes from the place that all chains go through up to them.
/// Takes no memory; each step takes a look-up, and one more for each block that it passes over since a way leads to it.
#[derive(Drop)]
pub struct Unconnected<'a, S: SigScheme> {
    pub(crate) blocks: &'a BTreeMap<HashKey, PlacedBlock<S>>,
    /// The ages of the blocks that are still to be looked at, the last one first.
    pub(crate) ages: Iter<'a, Age>,
}

impl<'a, S: SigScheme> Model for Unconnected<'a, S> {
    ghost use Rattle.std.specs.Prelude.{List};
    ghost use Rattle.std.specs.Coded.{coded_list};
    ghost use Rattle.model.specs.Block.{Block};
    ghost use Rattle.model.specs.Codes.{coded_block};
    ghost use Rattle.blockstore.specs.OffWays.{unnoted_at};

    ghost Value = { List Block };

    ghost coded = { coded_list coded_block };

    ghost view = { λ u. unnoted_at u.blocks.now u.ages };
}

impl<'a, S: SigScheme> Iterator for Unconnected<'a, S> {
    type Item = &'a Block;

    ghost next_gives = { YieldsFirstRef (λ blocks. blocks) };

    ghost remaining = { item_count (λ blocks. blocks) };

    /// The next of them, or None where no more is to come.
    fn next(&mut self) -> Option<&'a Block> {
        while let Some(age) = self.ages.next_back() {
            let Some(placed) = self.blocks.get(&age.hash) else {
                continue;
            };
            if !placed.is_reached() {
                return Some(placed.block());
            }
        }
        None
    }
}
