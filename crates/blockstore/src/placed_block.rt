//! A block as a shelf has it.

ghost use Rattle.std.specs.Prelude.{◌≡◌, ◌↔◌, true, false, option_map, IsTrue};
ghost use Rattle.block.specs.View.{tip_of};
ghost use Rattle.blockstore.specs.Stored.{marked};
ghost use Rattle.blockstore.specs.Placed.{place_of, cleared};
ghost use Rattle.blockstore.specs.Ways.{IsLed, HasTurned, HasStayed};

use crate::stored_block::StoredBlock;
use block::{Block, CheckedBlock, Tip};
use std::marker::Model;
use witness_pool::SigScheme;

/// A live block, and whether it has no mark and a way leads to it: live blocks without marks, each following the one
/// before it, the first of them following the root.
#[derive(Drop)]
pub struct PlacedBlock<S: SigScheme> {
    stored: StoredBlock<S>,
    reached: bool,
}

impl<S: SigScheme> Model for PlacedBlock<S> {
    ghost use Rattle.blockstore.specs.Placed.{Placed, coded_placed};

    ghost Value = { Placed };

    ghost coded = { coded_placed };

    ghost use Rattle.blockstore.specs.HeldPlaced.{placed_of};

    ghost view = { placed_of };
}

impl<S: SigScheme> PlacedBlock<S> {
    /// The block, and whether it has no mark and a way leads to it.
    pub fn new(stored: StoredBlock<S>, reached: bool) -> PlacedBlock<S>
        ensures { result ≡ record { stored = stored; reached = reached } }
    {
        PlacedBlock { stored, reached }
    }

    /// The block with its mark, if it has one.
    pub fn stored(&self) -> &StoredBlock<S>
        ensures { result.now ≡ self.now.stored }
    {
        &self.stored
    }

    /// The block without its transactions.
    pub fn block(&self) -> &Block
        ensures { result.now ≡ self.now.stored.block }
    {
        self.stored.block()
    }

    /// Whether it has no mark and a way leads to it.
    pub fn is_reached(&self) -> bool
        ensures { result ≡ self.now.reached }
    {
        self.reached
    }

    /// Where it stands, if it has no mark and a way leads to it.
    pub fn place(&self) -> Option<Tip>
        ensures { option_map tip_of result ≡ place_of self.now }
    {
        if self.reached {
            Some(Tip::at(self.stored.block()))
        } else {
            None
        }
    }

    /// Marks the block, so that no way leads on by it. Answers where it stands, if one led to it until then.
    pub fn mark(&mut self) -> Option<Tip>
        ensures marked { self.new ≡ record { stored = marked self.old.stored; reached = false } }
        ensures place { option_map tip_of result ≡ place_of self.old }
    {
        let place = self.place();
        self.stored.mark();
        self.reached = false;
        place
    }

    /// Holds the block with its transactions from now on, if it is this one, held as its text alone, and a way leads to
    /// it.
    pub fn hold(&mut self, block: CheckedBlock<S>)
        ensures { self.new ≡ self.old }
    {
        if self.reached {
            self.stored.hold(block);
        }
    }

    /// Takes the mark off, and notes that no way leads to the block. Answers that it stays.
    pub fn clear(&mut self) -> bool
        ensures cleared { self.new ≡ cleared self.old }
        ensures stays { result ≡ true }
    {
        self.stored.unmark();
        self.reached = false;
        true
    }

    /// Whether a way leads to the block, which follows a place to which one leads (`reached`) or none does: it has no
    /// mark, and in the second case follows the root.
    fn is_led(&self, root: Option<Tip>, reached: bool) -> bool
        ensures { IsTrue result ↔ IsLed (option_map tip_of root) reached self.now.stored }
    {
        !self.stored.is_invalid()
            && (reached || root.is_some_and(|root| root.precedes(self.stored.block())))
    }

    /// Turns the note to `reached`, if it says otherwise, the block follows this place, and it is then right. Answers
    /// whether it turned.
    pub fn turn(&mut self, before: &Tip, root: Option<Tip>, reached: bool) -> bool
        ensures stored { self.new.stored ≡ self.old.stored }
        ensures turned { IsTrue result → HasTurned (tip_of before.now) (option_map tip_of root) reached self.old.stored
            self.old.reached self.new.reached }
        ensures stayed { result ≡ false → HasStayed (tip_of before.now) (option_map tip_of root) reached self.old.stored
            self.old.reached self.new.reached }
    {
        let turns = self.reached != reached
            && before.precedes(self.stored.block())
            && self.is_led(root, reached) == reached;
        if turns {
            self.reached = reached;
            if !reached {
                self.stored.let_go();
            }
        }
        turns
    }
}
