//! What an index tells, beside the ledger of its chain and beside what a follower is told.

ghost use Rattle.watching.specs.Ledgers.{OutputsAreTheLedgers, OutputsAreTheChains, FollowsTheTold, OutputsAreTheTolds};
ghost use Rattle.watching.specs.Ledgers.{WhichStays};
ghost use Rattle.watching.specs.Due.{NextAreTaken, PointsAreKept, ReachStays};
ghost use Rattle.watching.specs.Holders.{HoldersAreOne};
ghost use Rattle.watching.specs.Settled.{IndexIsTheNodes, ToldAreTaken};
ghost use Rattle.watching.specs.Told.{HistoriesAreTheChains, InclusionsAreTheChains};
ghost use Rattle.watching.specs.Which.{WatchedAreMeant, WatchedAreLeft, NoneIsLeftOut};

/// What the blocks of a chain leave of the genesis outputs is the UTXO of its ledger, where it has a ledger.
pub fn outputs_are_the_ledgers()
    ensures { OutputsAreTheLedgers }
{}

/// Of outputs whose values have a text those are watched that are meant: all, those of the addresses, or those that
/// hold an amount of an asset of one of the policies.
pub fn watched_are_meant()
    ensures { WatchedAreMeant }
{}

/// Of unspent outputs those are left that are watched, each at its input.
pub fn watched_are_left()
    ensures { WatchedAreLeft }
{}

/// Where all outputs are kept, none is left out: what is told of watched outputs is then told of all.
pub fn none_is_left_out()
    ensures { NoneIsLeftOut }
{}

/// The outputs of an index are the watched ones of what its chain leaves: the blocks before it began, and those since.
pub fn outputs_are_the_chains()
    ensures { OutputsAreTheChains }
{}

/// Whatever instructions an index takes, it watches what it watched before.
pub fn which_stays()
    ensures { WhichStays }
{}

/// An index that takes each instruction of a follower is that of the chain that the follower was told.
pub fn follows_the_told()
    ensures { FollowsTheTold }
{}

/// So its outputs are the watched ones of the UTXO of that chain's ledger, where the chain has one.
pub fn outputs_are_the_tolds()
    ensures { OutputsAreTheTolds }
{}

/// Of a node of which the chain theorem holds, and an index that began where a follower was last set and took each
/// instruction that it was given since: once nothing is left to tell that follower, the index's outputs are those that
/// it watches of the UTXO of the selected chain. So an address of which it watches each output, as where it watches all
/// outputs, or this address among others, has by [`crate::Watch::outputs`] just the outputs that it has by the node.
pub fn index_is_the_nodes()
    ensures { IndexIsTheNodes }
{}

/// What an index tells of an owner are the transactions that spent a watched output of it or made one, in the blocks
/// since the index began, the newest first.
pub fn histories_are_the_chains()
    ensures { HistoriesAreTheChains }
{}

/// What an index tells of a transaction is where it was put on last, in the blocks since the index began, if it spent a
/// watched output there or made one; of each transaction, where all outputs are watched.
pub fn inclusions_are_the_chains()
    ensures { InclusionsAreTheChains }
{}

/// A block that goes on from the chain of an index is put on, where memory doesn't run out.
pub fn next_are_taken()
    ensures { NextAreTaken }
{}

/// An index can be rolled back to each point of its chain that is no further back than as many blocks as it can roll
/// back.
pub fn points_are_kept()
    ensures { PointsAreKept }
{}

/// Whatever it is told, an index of a chain can be rolled back to where it began, or to where the last k blocks of the
/// furthest chain begin that it ever had.
pub fn reach_stays()
    ensures { ReachStays }
{}

/// One list alone is that of the holders of an asset.
pub fn holders_are_one()
    ensures { HoldersAreOne }
{}

/// Of a node that was opened on a valid chain: an index that began when a follower was opened, with the network's k,
/// and took each instruction that the follower was given since, can take whatever the follower is told next.
pub fn told_are_taken()
    ensures { ToldAreTaken }
{}
