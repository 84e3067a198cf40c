//! What questions find.

ghost use Rattle.std.specs.Prelude.{◌≡◌, ◌++◌, map, OnOk};
ghost use Rattle.conversing.specs.Found.{asset_text, assets_text, cause_text, found_text, hash_text, ids_text};
ghost use Rattle.conversing.specs.Found.{named_text, output_text, outputs_text, refused_text, standing_text};

use crate::numbers::put_number;
use crate::outcome::Reason;
use crate::texts::{put_hex, put_text};
use crate::told::{ToldBlock, put_block};
use std::alloc::{AllocError, Global};

/// An asset of an output, other than ada.
#[derive(Clone, Copy, Debug)]
pub struct ToldAsset<'a> {
    /// The hash of the policy's script.
    pub policy: [u8; 32],
    /// The asset name, 0 to 32 bytes.
    pub name: &'a [u8],
    pub quantity: u64,
}

/// An unspent output, with the input that would spend it.
#[derive(Clone, Copy, Debug)]
pub struct ToldOutput<'a> {
    /// The identifier of its transaction.
    pub transaction: [u8; 32],
    /// Its place among the outputs of that, counted from 0.
    pub index: u64,
    /// The bytes of its address.
    pub address: &'a [u8],
    /// In lovelace.
    pub coin: u64,
    pub assets: &'a [ToldAsset<'a>],
}

/// Where a transaction stands.
#[derive(Clone, Copy, Debug, PartialEq, Eq)]
pub enum Standing {
    /// In the mempool, at this position, counted from 0.
    Waits(u64),
    /// In the block of this number of the selected chain, at this place, counted from 0.
    Block { number: u64, index: u64 },
    Unknown,
}

/// Why a block isn't selected.
#[derive(Clone, Copy, Debug)]
pub enum Cause<'a> {
    /// No such block is kept.
    Unknown,
    /// It is.
    Selected,
    /// The block of this hash is missing on its way.
    Waits([u8; 32]),
    /// The block of this hash on its way doesn't fit behind the one before it.
    Misfit([u8; 32]),
    /// The ledger refuses the block of this hash on its way.
    Invalid {
        hash: [u8; 32],
        reason: Reason<'a>,
    },
    /// The ledger refuses a transaction of the block of this hash on its way, at this place, counted from 0.
    InvalidTransaction {
        hash: [u8; 32],
        index: u64,
        reason: Reason<'a>,
    },
    /// Its chain isn't longer than the selected one.
    NotLonger,
}

/// What a question finds, by the method that asks it.
#[derive(Clone, Copy, Debug)]
pub enum Found<'a> {
    /// `evaluate`: the transaction would be added.
    Acceptable,
    /// `evaluate`: it would be refused.
    Unacceptable(Reason<'a>),
    /// `queryUtxo`: these outputs.
    Outputs(&'a [ToldOutput<'a>]),
    /// `queryBlock`: this block.
    Block(ToldBlock<'a>),
    /// `queryBlock`: there is none.
    NoBlock,
    /// `queryTransaction`: where it stands.
    Transaction(Standing),
    /// `queryMempool`: the identifiers of these transactions, in the order in which they came.
    Mempool(&'a [[u8; 32]]),
    /// `why`.
    Why(Cause<'a>),
}

/// Appends a reason's number, its name and its sentence, as members.
fn put_named(alloc: Global, line: &mut Vec<u8>, reason: &Reason<'_>) -> Result<(), AllocError>
    ensures { OnOk result (line.new.items ≡ line.old.items ++ named_text reason.now) }
{
    line.extend_from_slice(b",\"number\":")?;
    put_number(line, reason.number)?;
    line.extend_from_slice(b",\"name\":")?;
    put_text(alloc, line, reason.name)?;
    line.extend_from_slice(b",\"sentence\":")?;
    put_text(alloc, line, reason.sentence)?;
    line.extend_from_slice(b"}")
}

/// Appends an asset.
fn put_asset(alloc: Global, line: &mut Vec<u8>, asset: &ToldAsset<'_>) -> Result<(), AllocError>
    ensures { OnOk result (line.new.items ≡ line.old.items ++ asset_text asset.now) }
{
    line.extend_from_slice(b"{\"policy\":")?;
    put_hex(alloc, line, asset.policy.as_slice())?;
    line.extend_from_slice(b",\"name\":")?;
    put_hex(alloc, line, asset.name)?;
    line.extend_from_slice(b",\"quantity\":")?;
    put_number(line, asset.quantity)?;
    line.extend_from_slice(b"}")
}

/// Appends the list of these assets.
fn put_assets(alloc: Global, line: &mut Vec<u8>, assets: &[ToldAsset<'_>]) -> Result<(), AllocError>
    ensures { OnOk result (line.new.items ≡ line.old.items ++ assets_text assets.now) }
{
    line.extend_from_slice(b"[")?;
    let mut separator = b"".as_slice();
    for asset in assets {
        line.extend_from_slice(separator)?;
        put_asset(alloc, line, asset)?;
        separator = b",".as_slice();
    }
    line.extend_from_slice(b"]")
}

/// Appends an output.
fn put_output(alloc: Global, line: &mut Vec<u8>, output: &ToldOutput<'_>) -> Result<(), AllocError>
    ensures { OnOk result (line.new.items ≡ line.old.items ++ output_text output.now) }
{
    line.extend_from_slice(b"{\"transaction\":")?;
    put_hex(alloc, line, output.transaction.as_slice())?;
    line.extend_from_slice(b",\"index\":")?;
    put_number(line, output.index)?;
    line.extend_from_slice(b",\"address\":")?;
    put_hex(alloc, line, output.address)?;
    line.extend_from_slice(b",\"coin\":")?;
    put_number(line, output.coin)?;
    line.extend_from_slice(b",\"assets\":")?;
    put_assets(alloc, line, output.assets)?;
    line.extend_from_slice(b"}")
}

/// Appends the list of these outputs.
fn put_outputs(
    alloc: Global,
    line: &mut Vec<u8>,
    outputs: &[ToldOutput<'_>],
) -> Result<(), AllocError>
    ensures { OnOk result (line.new.items ≡ line.old.items ++ outputs_text outputs.now) }
{
    line.extend_from_slice(b"[")?;
    let mut separator = b"".as_slice();
    for output in outputs {
        line.extend_from_slice(separator)?;
        put_output(alloc, line, output)?;
        separator = b",".as_slice();
    }
    line.extend_from_slice(b"]")
}

/// Appends the list of these identifiers.
fn put_ids(alloc: Global, line: &mut Vec<u8>, ids: &[[u8; 32]]) -> Result<(), AllocError>
    ensures { OnOk result (line.new.items ≡ line.old.items ++ ids_text ids.now) }
{
    line.extend_from_slice(b"[")?;
    let mut separator = b"".as_slice();
    for id in ids {
        line.extend_from_slice(separator)?;
        put_hex(alloc, line, id.as_slice())?;
        separator = b",".as_slice();
    }
    line.extend_from_slice(b"]")
}

/// Appends where a transaction stands.
fn put_standing(line: &mut Vec<u8>, standing: &Standing) -> Result<(), AllocError>
    ensures { OnOk result (line.new.items ≡ line.old.items ++ standing_text standing.now) }
{
    match standing {
        Standing::Waits(position) => {
            line.extend_from_slice(b"{\"waits\":")?;
            put_number(line, *position)?;
            line.extend_from_slice(b"}")
        }
        Standing::Block { number, index } => {
            line.extend_from_slice(b"{\"block\":")?;
            put_number(line, *number)?;
            line.extend_from_slice(b",\"index\":")?;
            put_number(line, *index)?;
            line.extend_from_slice(b"}")
        }
        Standing::Unknown => line.extend_from_slice(b"null"),
    }
}

/// Appends a word and the hash of a block.
fn put_hash(
    alloc: Global,
    line: &mut Vec<u8>,
    head: &[u8],
    hash: &[u8; 32],
) -> Result<(), AllocError>
    ensures { OnOk result (line.new.items ≡ line.old.items ++ hash_text head.now hash.now) }
{
    line.extend_from_slice(head)?;
    put_hex(alloc, line, hash.as_slice())
}

/// Appends that the ledger refuses a transaction of a block.
fn put_refused(
    alloc: Global,
    line: &mut Vec<u8>,
    hash: &[u8; 32],
    index: u64,
    reason: &Reason<'_>,
) -> Result<(), AllocError>
    ensures { OnOk result (line.new.items ≡ line.old.items ++ refused_text hash.now index reason.now) }
{
    put_hash(alloc, line, b"{\"why\":\"invalid\",\"hash\":", hash)?;
    line.extend_from_slice(b",\"index\":")?;
    put_number(line, index)?;
    put_named(alloc, line, reason)
}

/// Appends why a block isn't selected.
fn put_cause(alloc: Global, line: &mut Vec<u8>, cause: &Cause<'_>) -> Result<(), AllocError>
    ensures { OnOk result (line.new.items ≡ line.old.items ++ cause_text cause.now) }
{
    match cause {
        Cause::Unknown => line.extend_from_slice(b"{\"why\":\"unknown\"}"),
        Cause::Selected => line.extend_from_slice(b"{\"why\":\"selected\"}"),
        Cause::Waits(hash) => {
            put_hash(alloc, line, b"{\"why\":\"waits\",\"hash\":", hash)?;
            line.extend_from_slice(b"}")
        }
        Cause::Misfit(hash) => {
            put_hash(alloc, line, b"{\"why\":\"misfit\",\"hash\":", hash)?;
            line.extend_from_slice(b"}")
        }
        Cause::Invalid { hash, reason } => {
            put_hash(alloc, line, b"{\"why\":\"invalid\",\"hash\":", hash)?;
            put_named(alloc, line, reason)
        }
        Cause::InvalidTransaction {
            hash,
            index,
            reason,
        } => put_refused(alloc, line, hash, *index, reason),
        Cause::NotLonger => line.extend_from_slice(b"{\"why\":\"not longer\"}"),
    }
}

/// Appends what a question finds.
pub fn put_found(alloc: Global, line: &mut Vec<u8>, found: &Found<'_>) -> Result<(), AllocError>
    ensures { OnOk result (line.new.items ≡ line.old.items ++ found_text found.now) }
{
    match found {
        Found::Acceptable => line.extend_from_slice(b"{\"accepted\":true}"),
        Found::Unacceptable(reason) => {
            line.extend_from_slice(b"{\"accepted\":false")?;
            put_named(alloc, line, reason)
        }
        Found::Outputs(outputs) => put_outputs(alloc, line, outputs),
        Found::Block(block) => put_block(alloc, line, block),
        Found::NoBlock => line.extend_from_slice(b"null"),
        Found::Transaction(standing) => put_standing(line, standing),
        Found::Mempool(ids) => put_ids(alloc, line, ids),
        Found::Why(cause) => put_cause(alloc, line, cause),
    }
}
