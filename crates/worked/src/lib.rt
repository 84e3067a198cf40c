//! Worked examples that a file of cases can't say, of maps, of the rules of transactions, of the unspent outputs, of
//! genesis files, of blocks that are applied, of the chains of such blocks, of the mempool, of the core and of scripts:
//! each is a test, with what is to come out written by hand.
#![tactic(auto)]

#[cfg(test)]
mod asking_tests;
#[cfg(test)]
mod chain_tests;
#[cfg(test)]
mod chainsel_tests;
#[cfg(test)]
mod explaining_tests;
#[cfg(test)]
mod fault_tests;
#[cfg(test)]
mod fixture;
#[cfg(test)]
mod follower_tests;
#[cfg(test)]
mod genesis_tests;
#[cfg(test)]
mod ledgerdb_tests;
#[cfg(test)]
mod map_tests;
#[cfg(test)]
mod mempool_tests;
#[cfg(test)]
mod networks;
#[cfg(test)]
mod payments;
#[cfg(test)]
mod reopen_tests;
#[cfg(test)]
mod rules_tests;
#[cfg(test)]
mod script_follower_tests;
#[cfg(test)]
mod script_from_tests;
#[cfg(test)]
mod script_io_tests;
#[cfg(test)]
mod script_tests;
#[cfg(test)]
mod seen_tests;
#[cfg(test)]
mod text_tests;
#[cfg(test)]
mod unspent_tests;
