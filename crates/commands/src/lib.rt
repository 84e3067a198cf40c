//! The commands of the program `node`: what the words of a command line ask for is done, and told by a status.
#![tactic(auto)]

mod command_line;
mod descriptors;
mod failure;
mod genesis_file;
mod jobs;
mod log_file;
mod log_listing;
mod log_runs;
mod program;
mod recorded;
mod runs;
mod script_file;
mod serve_command;
mod serving_node;
mod text_file;
mod texts;

pub use command_line::job;
pub use descriptors::hold_descriptors;
pub use genesis_file::{MAX_GENESIS_SIZE, NoGenesis, read_genesis};
pub use jobs::{Base, Job, Serving, Source, Task, TextAt};
pub use program::start;
pub use text_file::MAX_TEXT_SIZE;
