//! The open followers of a chain, each as two lengths: of the chain that it was told, and of what the selected chain
//! still has of that. No block is kept here: which blocks they are, the selected chain and what a client was told say.
//!
//! ```text
//! let id = followers.open()?; // it stands at genesis
//! match followers.next(id, chain.len())? {
//!     Some(Due::Add { after }) => .., // the block behind the first `after`
//!     Some(Due::RollBack { to }) => .., // to the end of the first `to`
//!     None => .., // it was told the whole chain
//! }
//! followers.moved(common); // of the old chain the new one has `common` blocks
//! ```
#![tactic(auto)]

mod fault;
mod follower_id;
mod followers;
mod laws;
mod place;
mod shown;

pub use fault::{OpenFollowerFault, UnknownFollower};
pub use follower_id::{FollowerId, MAX_FOLLOWERS};
pub use followers::Followers;
pub use laws::lengths_stand_for_followers;
pub use place::Due;
