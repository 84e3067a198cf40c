//! Conversations with a node's clients, as text: a line asks (JSON-RPC 2.0, https://www.jsonrpc.org/specification), a
//! line answers, and who asked for news waits until there is some. What the node is and does is no part of this crate.
//!
//! ```text
//! match read_request(alloc, line) {
//!     Ok(request) => .., // what is asked, with the id that the reply bears
//!     Err(fault) => fault_line(alloc, &fault)?, // the error reply; no byte to a notification
//! }
//! attend(alloc, &mut desk, &mut reader, &mut writer)?; // a lane: each line is answered once and in order
//! station.arrive(bytes)?; // nobody waits then to whom something is to be told
//! ```
#![tactic(auto)]

mod block_point;
mod call;
mod call_fault;
mod desk;
mod found;
mod lane;
mod lane_line;
mod listed;
mod method;
mod numbers;
mod outcome;
mod output_place;
mod params;
mod reply;
mod request;
mod request_fault;
mod request_id;
mod shown;
mod source;
mod station;
mod texts;
mod told;

pub use block_point::BlockPoint;
pub use call::{BlockName, Call, OutputsOf};
pub use desk::Desk;
pub use found::{Cause, Found, Standing, ToldAsset, ToldOutput};
pub use lane::{LaneEnd, attend};
pub use lane_line::{LaneLine, MAX_LINE, read_line};
pub use listed::MAX_LISTED;
pub use numbers::PLAIN_NUMBER_LIMIT;
pub use outcome::{Outcome, Reason};
pub use output_place::OutputPlace;
pub use reply::{fault_line, lost_line, reply_line};
pub use request::{Request, read_request};
pub use request_fault::RequestFault;
pub use request_id::RequestId;
pub use source::Source;
pub use station::{Answer, Arrived, Notice, Station};
pub use told::{ChainTip, ToldBlock};
