//! Laws of the ledger of a chain, and of blocks that are applied one after the other.
ghost use Rattle.std.specs.Prelude.{◌≡◌, ◌+◌, ◌++◌, [], ◌∷◌, List, Some};
ghost use Rattle.std.specs.List.{AllByRecursion};
ghost use Rattle.model.specs.Signature.{Verifies};
ghost use Rattle.model.specs.Utxo.{outputs_of, coin_of};
ghost use Rattle.model.specs.Genesis.{supply_of};
ghost use Rattle.model.specs.Block.{Block, IsBlock};
ghost use Rattle.model.specs.Ledger.{Network, Ledger, ledger_of};
ghost use Rattle.model.specs.Applying.{LedgerState, BlockFault, opening_state, HasFault, IsFirstFault, IsApplied};
ghost use Rattle.model.specs.Applying.{IsStateOf};

/// On every chain the unspent outputs and the fees are the supply of the genesis: no ada is made or lost.
pub fn supply_conserved()
    ensures { (network : Network) (chain : List Block) (ledger : Ledger) → AllByRecursion IsBlock chain
        → ledger_of network chain ≡ Some ledger
        → coin_of (outputs_of ledger.utxo) + ledger.fees ≡ supply_of network.genesis }
{}

/// A block has at most one answer on a state.
pub fn one_answer_to_a_block()
    // What is applied has no fault.
    ensures applied { (verifies : Verifies) (s : LedgerState) (b : Block) (t : LedgerState) (fault : BlockFault)
        → IsApplied verifies s b t → HasFault verifies s b fault → ⊥ }
    // A block has one first fault at most,
    ensures fault { (verifies : Verifies) (s : LedgerState) (b : Block) (fault other : BlockFault)
        → IsFirstFault verifies s b fault → IsFirstFault verifies s b other → fault ≡ other }
    // and makes one state at most.
    ensures state { (verifies : Verifies) (s : LedgerState) (b : Block) (t u : LedgerState)
        → IsApplied verifies s b t → IsApplied verifies s b u → t ≡ u }
{}

/// The state of a chain is what its blocks make of the opening state, one after the other.
pub fn states_of_chains()
    ensures opening { (network : Network) → IsStateOf network [] (opening_state network.genesis) }
    // One more block that is applied to it gives the state of the longer chain,
    ensures more { (network : Network) (chain : List Block) (s : LedgerState) (b : Block) (t : LedgerState)
        → IsStateOf network chain s → IsApplied network.verifies s b t → IsStateOf network (chain ++ b ∷ []) t }
    // and there is no other way to it.
    ensures last { (network : Network) (chain : List Block) (b : Block) (t : LedgerState)
        → IsStateOf network (chain ++ b ∷ []) t
        → (s : LedgerState) × IsStateOf network chain s × IsApplied network.verifies s b t }
    ensures one { (network : Network) (chain : List Block) (s t : LedgerState)
        → IsStateOf network chain s → IsStateOf network chain t → s ≡ t }
{}
