//! What the parts of a transaction and the blocks may name.

ghost use Rattle.std.specs.Prelude.{◌<◌};
ghost use Rattle.model.specs.Limits.{network_limit};

use crate::key::Key;
use crate::name_table::NameTable;
use genesis::Scheme;
use std::alloc::Global;
use timelock::Script;
use tx::Tx;

/// Keys, scripts and transactions that have names, by which scheme keys sign, and the network of addresses.
#[derive(Drop)]
pub struct Known {
    pub alloc: Global,
    pub scheme: Scheme,
    pub network: u8,
    pub keys: NameTable<Key>,
    pub scripts: NameTable<Script>,
    pub txs: NameTable<Tx>,
    pub ghost in_range: { network < network_limit },
}
