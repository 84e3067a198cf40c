//! What data can't say of the program `node`, by the call that does all its work: command lines, files and statuses.
#![tactic(auto)]

#[cfg(test)]
mod check_tests;
#[cfg(test)]
mod ed25519_tests;
#[cfg(test)]
mod explain_tests;
#[cfg(test)]
mod genesis_tests;
#[cfg(test)]
mod id_tests;
#[cfg(test)]
mod log_tests;
#[cfg(test)]
mod serve_tests;
#[cfg(test)]
mod show_tests;
#[cfg(test)]
mod sim_tests;
#[cfg(test)]
mod start_tests;
