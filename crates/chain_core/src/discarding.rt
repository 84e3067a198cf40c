//! A live block that is kept no more.

use crate::node_core::Core;
use ident::BlockHash;
use thiserror::Error;
use witness_pool::SigScheme;

/// There is no block of this hash beside the selected chain: none is live, or the chain has it.
#[derive(Clone, Copy, Debug, PartialEq, Eq, Error)]
#[error("no block of this hash is beside the selected chain")]
pub struct NotBeside {}

impl<S: SigScheme> Core<S> {
    ghost use Rattle.std.specs.Prelude.{◌≡◌, OnErr};
    ghost use Rattle.model.specs.History.{Discard};
    ghost use Rattle.chain_core.specs.Views.{discard_reply_of};
    ghost use Rattle.chain_core.specs.Steps.{Steps, KeepsStart};

    /// The live block with this hash is kept no more, if it is beside the selected chain: so a store is emptied that is
    /// full of blocks which nothing connects. The chain, the mempool and the followers stay as they are, and the block
    /// may arrive again. Where there is none, or the chain has it, nothing changes.
    ///
    /// Takes no memory. A few look-ups, and one more for each live block to which a way led only by this one. Blocks
    /// that are known to be invalid are forgotten to be so, and judged once more where they are looked at: where one
    /// was found since the last such call, all live blocks are looked at once.
    pub fn discard(&mut self, hash: BlockHash) -> Result<(), NotBeside>
        ensures step { Steps S.verifies self.old (Discard hash.bytes) (discard_reply_of result) self.new }
        ensures start { KeepsStart self.old self.new }
        ensures err { OnErr result (self.new ≡ self.old) }
    {
        if self.chain_db.discard(hash) {
            Ok(())
        } else {
            Err(NotBeside {})
        }
    }
}
