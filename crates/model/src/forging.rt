//! Laws of forged blocks.
ghost use Rattle.std.specs.Prelude.{◌≡◌, ◌≤◌, ◌++◌, [], ◌∷◌, ℕ, List};
ghost use Rattle.model.specs.Limits.{block_size_limit};
ghost use Rattle.model.specs.Transaction.{Transaction};
ghost use Rattle.model.specs.Genesis.{IsGenesis};
ghost use Rattle.model.specs.Block.{Block, SpellsBlock};
ghost use Rattle.model.specs.Ledger.{Network};
ghost use Rattle.model.specs.Chain.{IsValidChain, IsOpening};
ghost use Rattle.model.specs.History.{State, Entry, IsLegal};
ghost use Rattle.model.specs.Forging.{IsForged, ArrivesNext};

/// What a forged block is to the chain on which it was forged.
pub fn forged_blocks()
    // With it the chain is valid.
    ensures valid { (network : Network) (chain : List Block) (waiting : List Transaction) (slot : ℕ) (b : Block)
        → IsGenesis network.genesis → IsValidChain network chain → IsForged network chain waiting slot b
        → IsValidChain network (chain ++ b ∷ []) }
    // Where it arrives next it is put on that chain.
    ensures arrives { (network : Network) (history : List Entry) (s : State) (slot : ℕ) (b : Block) (bytes : List ℕ)
        → IsGenesis network.genesis → IsOpening network → IsLegal network history s
        → IsForged network s.chain s.mempool slot b → SpellsBlock b bytes → ArrivesNext network s b bytes }
{}
