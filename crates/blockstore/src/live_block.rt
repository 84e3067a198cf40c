//! What is held of a live block.

ghost use Rattle.std.specs.Prelude.{◌≡◌, IfOk};

use block::{Block, CheckedBlock};
use std::alloc::{AllocError, Global};
use std::marker::Model;
use witness_pool::SigScheme;

/// The two forms of a live block.
#[derive(Drop)]
enum Form<S: SigScheme> {
    /// With its transactions and the verdicts on them.
    Checked(CheckedBlock<S>),
    /// As its text alone, with what its header says.
    Unread(Block),
}

/// A live block: with its transactions and the verdicts on them, or, where no way leads to it, as its text alone. A
/// transaction that was read takes many times its bytes, so who sends blocks that nothing connects, or bad ones, fills
/// no more memory than their bytes.
#[derive(Drop)]
pub struct LiveBlock<S: SigScheme> {
    form: Form<S>,
}

impl<S: SigScheme> Model for LiveBlock<S> {
    ghost use Rattle.model.specs.Block as model;
    ghost use Rattle.model.specs.Codes.{coded_block};

    ghost Value = { model.Block };

    ghost coded = { coded_block };

    ghost use Rattle.blockstore.specs.HeldLive.{live_of};

    ghost view = { live_of };
}

impl<S: SigScheme> LiveBlock<S> {
    /// The block with its transactions.
    pub fn checked(block: CheckedBlock<S>) -> LiveBlock<S>
        ensures { result ≡ block }
    {
        LiveBlock {
            form: Form::Checked(block),
        }
    }

    /// The block as its text alone.
    pub fn unread(block: Block) -> LiveBlock<S>
        ensures { result ≡ block }
    {
        LiveBlock {
            form: Form::Unread(block),
        }
    }

    /// The block without its transactions. Copies nothing.
    pub fn block(&self) -> &Block
        ensures { result.now ≡ self.now }
    {
        match &self.form {
            Form::Checked(block) => block.block(),
            Form::Unread(block) => block,
        }
    }

    /// Whether it is held as its text alone.
    pub(crate) fn is_unread(&self) -> bool {
        matches!(self.form, Form::Unread(_))
    }

    /// Holds it as its text alone from now on. Takes no memory.
    pub(crate) fn let_go(&mut self)
        ensures { self.new ≡ self.old }
    {
        if let Form::Checked(checked) = &self.form {
            if let Ok(block) = checked.block().try_clone() {
                self.form = Form::Unread(block);
            }
        }
    }

    /// One more owner of the block, in the same form, in constant time and with no allocation. Err where 2^63 - 1
    /// owners are reached.
    pub fn try_clone(&self) -> Result<LiveBlock<S>, AllocError>
        ensures same { IfOk result (λ b. b ≡ self.now) }
    {
        match &self.form {
            Form::Checked(block) => Ok(LiveBlock::checked(block.try_clone()?)),
            Form::Unread(block) => Ok(LiveBlock::unread(block.try_clone()?)),
        }
    }

    /// The block with its transactions: one more owner of it where they are held, and else as they are read from its
    /// text ([`CheckedBlock::from_block`]). Err where memory runs out.
    pub fn read(&self, alloc: Global) -> Result<CheckedBlock<S>, AllocError>
        ensures { IfOk result (λ block. block ≡ self.now) }
    {
        match &self.form {
            Form::Checked(block) => block.try_clone(),
            Form::Unread(block) => CheckedBlock::from_block(alloc, block),
        }
    }
}
