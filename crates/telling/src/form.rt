//! How a text is shown.

ghost use Rattle.std.specs.Prelude.{◌≡◌, IfOk, string_bytes};
ghost use Rattle.telling.specs.Shown.{transaction_in, block_in, script_in, value_in, genesis_in, IsRecordIn};

use block::CheckedBlock;
use describing::{
    block_json, genesis_json, record_json, script_json, transaction_json, value_json,
};
use genesis::GenesisDocument;
use showing::{show_block, show_genesis, show_record, show_script, show_transaction, show_value};
use std::alloc::{AllocError, Global};
use timelock::Script;
use value::Value;
use witness_pool::{CheckedTx, SigScheme};

/// How a text is shown. Each of its methods gives the whole text in memory: Err where that runs out. They take time in
/// proportion to what is shown and to the text.
#[derive(Clone, Copy, Debug, PartialEq, Eq)]
pub enum Form {
    /// Line by line, for people.
    Lines,
    /// As a JSON document (RFC 8259) on one line, for programs.
    Json,
}

impl Form {
    /// A transaction in this form, with its signatures judged by the scheme.
    pub fn transaction<S: SigScheme>(
        self,
        alloc: Global,
        tx: &CheckedTx<S>,
    ) -> Result<String, AllocError>
        ensures { IfOk result (λ text. string_bytes text ≡ transaction_in self S.verifies tx.now) }
    {
        match self {
            Form::Lines => show_transaction(alloc, tx),
            Form::Json => transaction_json(alloc, tx),
        }
    }

    /// A block in this form, with the signatures of its transactions judged by the scheme.
    pub fn block<S: SigScheme>(
        self,
        alloc: Global,
        block: &CheckedBlock<S>,
    ) -> Result<String, AllocError>
        ensures { IfOk result (λ text. string_bytes text ≡ block_in self S.verifies block.now) }
    {
        match self {
            Form::Lines => show_block(alloc, block),
            Form::Json => block_json(alloc, block),
        }
    }

    /// A native script in this form.
    pub fn script(self, alloc: Global, script: &Script) -> Result<String, AllocError>
        ensures { IfOk result (λ text. string_bytes text ≡ script_in self script.now) }
    {
        match self {
            Form::Lines => show_script(alloc, script),
            Form::Json => script_json(alloc, script),
        }
    }

    /// A value in this form.
    pub fn value(self, alloc: Global, value: &Value) -> Result<String, AllocError>
        ensures { IfOk result (λ text. string_bytes text ≡ value_in self value.now) }
    {
        match self {
            Form::Lines => show_value(alloc, value),
            Form::Json => value_json(alloc, value),
        }
    }

    /// A genesis in this form, with the scheme of its network.
    pub fn genesis(self, alloc: Global, document: &GenesisDocument) -> Result<String, AllocError>
        ensures { IfOk result (λ text. string_bytes text
            ≡ genesis_in self document.now.scheme document.now.genesis) }
    {
        match self {
            Form::Lines => show_genesis(alloc, document),
            Form::Json => genesis_json(alloc, document),
        }
    }

    /// A record of a log in this form, with this number, at this place, in bytes from 0, and with these bytes for its
    /// block, of which it is told where they are none. As JSON it is an object alone, without a line feed.
    pub fn record(
        self,
        alloc: Global,
        number: u64,
        place: u64,
        block: &[u8],
    ) -> Result<String, AllocError>
        ensures { IfOk result (λ text. IsRecordIn self number place block.now (string_bytes text)) }
    {
        match self {
            Form::Lines => show_record(alloc, number, place, block),
            Form::Json => record_json(alloc, number, place, block),
        }
    }
}
