//! What data can't say of disks, of logs, of an inbox, and of a shared core: its callers and its adder, on one thread
//! and on several, and simulations.
#![tactic(auto)]

#[cfg(test)]
mod adder_tests;
#[cfg(test)]
mod asking_tests;
#[cfg(test)]
mod caller_tests;
#[cfg(test)]
mod disk_tests;
#[cfg(test)]
mod fake_file;
#[cfg(test)]
mod fixture;
#[cfg(test)]
mod flush_tests;
#[cfg(test)]
mod gated_file;
#[cfg(test)]
mod inbox_tests;
#[cfg(test)]
mod inbox_threads_tests;
#[cfg(test)]
mod kept_disk;
#[cfg(test)]
mod library_tests;
#[cfg(test)]
mod log_tests;
#[cfg(test)]
mod node_tests;
#[cfg(test)]
mod pool_tests;
#[cfg(test)]
mod readme;
#[cfg(test)]
mod resuming_tests;
#[cfg(test)]
mod simulation_tests;
#[cfg(test)]
mod wallet;
#[cfg(test)]
mod wallet_tests;
