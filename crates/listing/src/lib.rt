//! A log, record by record, as lines for people or as one JSON document for programs. Nothing of it is changed.
//!
//! ```text
//! let mut reader = BufReader::new(alloc, File::open(rt, "blocks.log")?)?;
//! list_log(alloc, Form::Lines, &mut reader, &mut out)?; // record 1, and indented place 0, size 40, .. end clean
//! ```
#![tactic(auto)]

mod list_fault;
mod records;

pub use list_fault::ListFault;
pub use records::list_log;
