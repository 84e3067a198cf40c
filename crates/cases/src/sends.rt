//! Scripts in which peers send bytes.

use genesis::GenesisDocument;
use inbox::PEERS;
use scenario::Sending;
use std::alloc::{AllocError, Global};

/// Tells what a peer sends.
fn put_sending(alloc: Global, sending: &Sending, came: &mut String) -> Result<(), AllocError> {
    let digits = hex::encode(alloc, sending.bytes.as_slice())?;
    write!(came, "peer {} sends {digits}\n", sending.peer)
}

/// Tells what peers send, one after the other.
fn put_all(alloc: Global, sends: &[Sending], came: &mut String) -> Result<(), AllocError> {
    for sending in sends {
        put_sending(alloc, sending, came)?;
    }
    Ok(())
}

/// Puts a line for each line of a script in which a peer sends bytes behind a text, or the fault that ends the script.
pub fn put_run(
    alloc: Global,
    document: &GenesisDocument,
    script: &[u8],
    came: &mut String,
) -> Result<(), AllocError> {
    let mut reader = script;
    match scenario::sends(
        alloc,
        &document.genesis,
        document.scheme,
        &mut reader,
        PEERS as u64,
    ) {
        Ok(sends) => put_all(alloc, &sends, came),
        Err(fault) => write!(came, "! {fault}\n"),
    }
}
