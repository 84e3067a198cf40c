//! The blocks of a core that no rollback can reach any more go onto the log, and a core begins on them again.
//!
//! ```text
//! let mut restart = Restart::<TestScheme>::new(alloc, genesis)?;
//! let mut log = Log::open(rt, alloc, disk, &mut restart)?;
//! let mut core = restart.core()?;
//! core.arrive(&bytes)?;
//! flush(&mut log, &core)?; // after a crash a core is opened on these blocks again
//! ```
//!
//! The same of a core that threads share, in a function for every `B: Room`, which a program calls with `Brand`:
//!
//! ```text
//! let opened = restart.shared(3)?; // for three callers
//! let (shared, mut callers) = opened.named::<B>()?;
//! flush_shared(rt, &mut log, &shared, &mut callers[0])?;
//! ```
#![tactic(auto)]

mod copying;
mod fault;
pub mod laws;
mod restart;
mod sharing;
mod shown;

pub use copying::flush;
pub use fault::SharedOnFault;
pub use restart::Restart;
pub use sharing::flush_shared;
