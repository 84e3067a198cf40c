//! What the indexes of a script tell, beside the ledger of the node's chain.

ghost use Rattle.scenario.specs.Indexes.{BalancesAreTheNodes, IndexesGoOn};
ghost use Rattle.scenario.specs.Run.{IndexesFollow};

use watching::{index_is_the_nodes, told_are_taken};

/// After whatever first lines of a script, on a node that was opened on a valid chain, each index has followed what its
/// follower was told.
pub fn indexes_follow()
    ensures { IndexesFollow }
{}

/// Once nothing is left to tell the follower of such an index, each of the index's keys has by it just the outputs that
/// it has by the ledger of the selected chain: what is then printed of the index is what `balance` prints of them.
pub fn balances_are_the_nodes()
    ensures { BalancesAreTheNodes }
{
    index_is_the_nodes();
}

/// Such an index can take whatever its follower is told next, so that it is never lost.
pub fn indexes_go_on()
    ensures { IndexesGoOn }
{
    told_are_taken();
}
