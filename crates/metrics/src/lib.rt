//! A node's figures as text, in the exposition format of Prometheus, version 0.0.4
//! (<https://prometheus.io/docs/instrumenting/exposition_formats/>): of each metric a line that says what it is for,
//! one that says of which kind it is, and a line with its value, or one for each of its values.
//!
//! ```text
//! let figures = Figures { height: 12, slot: 40, .. };
//! let text = metrics_text(alloc, &figures)?;
//! // # HELP chaindb_chain_height Blocks of the selected chain.
//! // # TYPE chaindb_chain_height gauge
//! // chaindb_chain_height 12
//! // # HELP chaindb_chain_slot Slot of the selected chain's last block.
//! // ..
//! ```
#![tactic(auto)]

mod figures;
mod metric;
mod tables;
mod text;

pub use figures::Figures;
pub use text::metrics_text;
