//! The chain database of a node, with its ledger and its chain followers: the one crate to name. It has nothing of its
//! own, and passes on what stands in the crates below.
//!
//! # A way through it
//!
//! A network begins with a [`Genesis`], which [`Genesis::from_toml`] reads. [`Core::new`] makes a node of it, under the
//! scheme of signatures that the type names: [`Ed25519`], or [`TestScheme`], by which anyone can sign. Which of them
//! the file names is read by [`GenesisDocument::from_toml`]; to choose the type by it is the caller's part.
//!
//! - **Blocks** come in as bytes: [`Core::arrive`] answers how many blocks were rolled back and how many put on, or a
//!   [`Refusal`]. [`Core::tip`], [`Core::block`], [`Core::utxo`] and [`Core::fees`] tell of the selected chain,
//!   [`Core::place`] and [`Core::why`] of any block; [`Core::discard`] lets one go that isn't on it, and
//!   [`Core::unconnected`] walks those that no way leads to from it.
//! - **Transactions** come in as bytes too: [`Core::submit`] puts them into the mempool, and [`Core::forge`] makes the
//!   next block of it. [`wallet`] has what they are made with.
//! - **Followers** are told how the selected chain changes: [`Core::open`] opens one, and [`Core::next`] tells the next
//!   [`Instruction`], to put a block on or to go back to a point.
//! - **An index** that is told the same has the unspent outputs of each address, its history, who holds an
//!   asset, and where each transaction stands: [`Watch`].
//! - **Threads** share a core, and peers send it blocks: [`threads`] and [`peers`].
//! - **A log** on a disk has the blocks that are never rolled back, also after a crash: [`log`].
//!
//! What each call promises stands at the call, as a contract that it is proved to meet. Nothing here does network
//! input or output.
#![tactic(auto)]

pub mod log;
pub mod peers;
pub mod threads;
pub mod wallet;

pub use block::{BadBytes, Block, CheckedBlock, MAX_BLOCK_SIZE, NotRead, Seen, Tip};
pub use chain_core::{
    ArriveReply, Core, FollowerId, ForgeFault, Forged, Instruction, NextFault, NotBeside,
    OpenFollowerFault, Place, RawEvent, Refusal, ReopenFault, Reopening, Reply, TxPlace,
    Unconnected, UnknownFollower, Why,
};
pub use genesis::{Genesis, GenesisDocument, GenesisFault, Grant, Params, Scheme, SecondEra};
pub use ident::{BlockHash, KeyHash, Point, ScriptHash, TxId};
pub use ledger::BlockFault;
pub use mempool::{Evaluation, Mempool, SubmitReply};
pub use utxo_rules::{Detail, Reason, Utxo};
pub use watching::{History, HistoryEntries, Holder, Inclusion, Watch, WatchFault, Which};
pub use witness_pool::{
    CheckedTx, Ed25519, Gate, OpenGate, Pool, PoolFault, SigScheme, TestScheme,
};
