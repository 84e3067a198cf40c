//! Scripts run on a node: each event and each question of a script prints one line, and a balance more. Where that is
//! asked for, a line more tells why something was refused or isn't selected.
#![tactic(auto)]

mod answers;
mod balance;
mod fault;
mod form;
mod indexes;
mod key_index;
mod laws;
mod notes;
mod options;
mod output;
mod print;
mod runner;
mod send_lines;
mod sending;
mod session;

pub use fault::ScenarioFault;
pub use laws::{balances_are_the_nodes, indexes_follow, indexes_go_on};
pub use options::Options;
pub use runner::{run, run_from};
pub use script::{LineFault, MAX_SCRIPT_SIZE};
pub use send_lines::sends;
pub use sending::Sending;
