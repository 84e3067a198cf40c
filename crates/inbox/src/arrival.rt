//! What is taken from an inbox.

use std::marker::Model;

/// Bytes that a peer sent. A contract sees the number of the peer and the list of the bytes.
#[derive(Debug, Drop)]
pub struct Arrival {
    /// The number of the peer, from 1 on.
    pub peer: u64,
    /// What it sent.
    pub bytes: Vec<u8>,
}

impl Model for Arrival {
    ghost use Rattle.inbox.specs.Arrivals as model;
    ghost use Rattle.inbox.specs.Codes.{coded_arrival};

    ghost Value = { model.Arrival };

    ghost coded = { coded_arrival };

    ghost use Rattle.inbox.specs.Ends.{arrival_view};

    ghost view = { arrival_view };
}
