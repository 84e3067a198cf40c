//! One event, one step: the node's chain, from the bytes of blocks in any order to the selected chain, and the mempool
//! beside it.
#![tactic(auto)]

mod arrival;
mod asking;
mod census;
mod chain_db;
mod discarding;
mod event;
mod finding;
mod follower;
mod forging;
mod judging;
mod live_form;
mod node_core;
mod place;
mod refusal;
mod reopening;
mod shown;
mod standing;
mod why;

pub use arrival::ArriveReply;
pub use blockstore::Unconnected;
pub use census::Census;
pub use discarding::NotBeside;
pub use event::{RawEvent, Reply};
pub use finding::Place;
pub use follower::{Instruction, NextFault};
pub use followers::{FollowerId, OpenFollowerFault, UnknownFollower};
pub use forging::{ForgeFault, Forged};
pub use node_core::Core;
pub use refusal::Refusal;
pub use reopening::{ReopenFault, Reopening};
pub use standing::TxPlace;
pub use why::Why;
