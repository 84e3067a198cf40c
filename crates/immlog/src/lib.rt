//! The immutable log: the blocks that no rollback can reach any more, on a disk that may stop at any moment.
//!
//! ```text
//! let seen = look_at(alloc, &mut reader)?; // whether a log left these bytes; changes none
//! let mut log = Log::open(rt, alloc, disk, &mut sink)?; // or the disk again, beside why not
//! log.append(&blocks)?;                  // once it answers Ok, each crash leaves them all
//! println!(rt; "{}", log.durable())?;
//! let block = log.block(1)?;             // the first one, read again
//! let mut blocks = log.into_blocks();     // all of them, one after the other
//! let disk = blocks.into_log().into_disk();
//! ```
#![tactic(auto)]

mod blocks;
mod disk;
mod faults;
mod fetching;
mod frames;
mod index;
mod log;
mod log_blocks;
mod look;
mod part;
mod put;
mod records;
mod recover;
mod shown;
mod sink;

pub use blocks::{Blocks, note_bytes};
pub use disk::{Disk, DiskFailed};
pub use faults::{AppendFault, CreateFault, OpenLogFault, ReadFault};
pub use log::Log;
pub use log_blocks::LogBlocks;
pub use look::{Look, LookFault, look_at};
pub use part::{LogEnd, LogPart, PART_ROOM, block_in, fill, read_part};
pub use sink::{Nobody, Sink};
