//! Blocks: from bytes to a block with its hash, or to the exact reason why there is none.
#![tactic(auto)]

mod block;
mod block_ref;
mod checked_block;
mod facts;
mod fault;
mod full;
mod header;
mod laws;
mod reading;
mod seen;
mod shown;
mod tip;
mod writing;

pub use block::{Block, read};
pub use block_ref::{BlockRef, MAX_BLOCK_SIZE, look};
pub use checked_block::CheckedBlock;
pub use fault::{BadBytes, NoText, NotRead, ReadFault, WriteFault};
pub use full::{write, write_with_body, write_with_hash};
pub use header::{Header, NUMBER_LIMIT};
pub use laws::one_answer;
pub use seen::Seen;
pub use tip::Tip;
pub use writing::{empty_body_hash, write_empty};
