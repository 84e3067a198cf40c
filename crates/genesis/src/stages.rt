//! The stages in which a genesis is read, each by itself. Who has to tell more of a fault than its name asks them which
//! key or output it is of.

pub use crate::document::{ENTRY_KEYS, Entry, EraNumbers, GENESIS_KEYS, Lock, Numbers, Written};
pub use crate::placing::Placed;
pub use crate::settings::{Settings, within};
pub use crate::table::{has_only, number_at, value_at};
