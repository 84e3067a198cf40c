//! Snapshots, and their texts. A snapshot is a ledger's state at the end of a chain: where that ends, the fees, the
//! digest of what its network agrees on, and the unspent outputs. Its text is deterministic CBOR (RFC 8949, section
//! 4.2.1) in parts of at most 1 MiB, and no state has two lists of parts, so that two texts can be compared byte by
//! byte.
//!
//! The first part is one array: where the chain ends, the fees, the digest, and how many outputs follow. Each part
//! after it is a sequence (RFC 8742) of outputs with the inputs that would spend them, `[input, output]`, in the order
//! of the inputs, as many as it has room for.
//!
//! ```text
//! let digest = GenesisHash::from_bytes(sha256_of_the_parameters);
//! let mut writer = SnapshotWriter::new(alloc, tip, fees, digest, &utxo).ok_or("no chain ends so")?;
//! while let Some(part) = writer.next_part()? {
//!     file.write_all(&part)?; // one part at a time is in memory
//! }
//!
//! let mut reader = SnapshotReader::new(alloc, supply, digest); // the lovelace that the genesis grants
//! for part in parts {
//!     reader.push(&part)?; // whatever the bytes are
//! }
//! let state = reader.finish()?; // the one state whose text these parts are
//! ```
//!
//! A reader refuses what is no text of a state, an end where no chain ends, the digest of another network, and more or
//! less lovelace than there is, which no transaction makes or takes. That some chain has this state is said by no
//! bytes: who begins from a text has to know where it is from.
#![tactic(auto)]

mod fault;
mod front;
mod laws;
mod outputs;
mod pair;
mod reader;
mod shown;
mod snapshot;
mod writer;

pub use fault::{SnapshotFault, WriteFault};
pub use laws::{each_has_a_text, each_has_one_text, each_is_one_snapshot, ends_of_chains};
pub use pair::PART_LIMIT;
pub use reader::SnapshotReader;
pub use snapshot::{GenesisHash, GenesisKind, Snapshot};
pub use writer::SnapshotWriter;
