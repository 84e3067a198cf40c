//! A node that stays: peers send blocks and clients ask, each on a lane and in a thread of its own, while what no
//! rollback reaches any more goes onto a log.
//!
//! ```text
//! let opened = restart.shared(plan.callers())?;
//! // Until a client asks it to stop, or nobody is left who could ask.
//! host_on_log(rt, rt.system(), opened, &mut log, plan)?;
//! ```
#![tactic(auto)]

mod adding;
mod client_lane;
mod floor;
mod hosting;
mod lane_host;
mod news;
mod peer_lane;
mod plan;
mod process;
mod recording;
mod store;
mod streams;
mod tally;
mod timing;

pub use hosting::{HostFault, host, host_on_log};
pub use plan::{ClientLane, MAX_CLIENT_LANES, MAX_WORKERS, PeerLane, Plan, Workers};
pub use process::Process;
pub use recording::begin_figures;
