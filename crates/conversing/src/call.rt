//! What a client asks for.

ghost use Rattle.std.specs.Prelude.{◌≡◌, ok_or, option_map};
ghost use Rattle.serde_json.specs.View.{view};
ghost use Rattle.conversing.specs.declared.call_fault.CallFault.TheVariants.{InvalidParams};
ghost use Rattle.conversing.specs.Steps.{Gives};
ghost use Rattle.conversing.specs.Requests.{asked_by, block_asked, outputs_asked};
ghost use Rattle.conversing.specs.RequestView.{call_view};

use crate::block_point::BlockPoint;
use crate::call_fault::CallFault;
use crate::listed::list_at;
use crate::method::Method;
use crate::numbers::number_of;
use crate::output_place::OutputPlace;
use crate::params::{bytes_at, hash_at, hash_of, number_at, param};
use serde_json::Value;
use std::alloc::Global;

/// Whose outputs are asked for.
#[derive(Debug, Drop)]
pub enum OutputsOf {
    /// Those at these places, at most 1,000.
    Places(Vec<OutputPlace>),
    /// Those of these addresses, at most 1,000, each as its bytes.
    Addresses(Vec<Vec<u8>>),
}

/// Which block is asked for.
#[derive(Clone, Copy, Debug, PartialEq, Eq)]
pub enum BlockName {
    /// That of this number on the selected chain.
    Number(u64),
    /// That of this hash.
    Hash([u8; 32]),
}

/// What a client asks for.
#[derive(Debug, Drop)]
pub enum Call {
    /// `findIntersection`: the first of these points, at most 1,000, that is on the selected chain, where the one who
    /// asks is to stand from now on.
    FindIntersection(Vec<BlockPoint>),
    /// `nextBlock`: what comes next for the one who asks.
    NextBlock,
    /// `submitTransaction`: a transaction of these bytes is to wait.
    SubmitTransaction(Vec<u8>),
    /// `evaluate`: what a submission of these bytes would be answered.
    Evaluate(Vec<u8>),
    /// `queryTip`: where the selected chain ends.
    QueryTip,
    /// `queryHeight`: how many blocks the selected chain has.
    QueryHeight,
    /// `queryUtxo`: unspent outputs.
    QueryUtxo(OutputsOf),
    /// `queryBlock`: a block.
    QueryBlock(BlockName),
    /// `queryTransaction`: where the transaction of this identifier stands.
    QueryTransaction([u8; 32]),
    /// `queryMempool`: which transactions wait.
    QueryMempool,
    /// `why`: why the block of this hash isn't selected.
    Why([u8; 32]),
    /// `forge`: a block is to be made in this slot.
    Forge(u64),
    /// `flush`: what is immutable is to be durable.
    Flush,
    /// `stop`: the node is to end.
    Stop,
}

/// Which unspent outputs are asked for: those of places or of addresses, just one of which is given.
#[tactic(auto, unfolding(crate::specs::Requests::outputs_asked))]
fn outputs_asked(alloc: Global, request: &Value) -> Result<Call, CallFault>
    ensures { Gives call_view result (ok_or (outputs_asked (view request.now)) InvalidParams) }
{
    match (param(request, "inputs"), param(request, "addresses")) {
        (Some(_), None) => match list_at::<OutputPlace>(alloc, request, "inputs") {
            Ok(places) => Ok(Call::QueryUtxo(OutputsOf::Places(places))),
            Err(fault) => Err(fault),
        },
        (None, Some(_)) => match list_at::<Vec<u8>>(alloc, request, "addresses") {
            Ok(addresses) => Ok(Call::QueryUtxo(OutputsOf::Addresses(addresses))),
            Err(fault) => Err(fault),
        },
        _ => Err(CallFault::InvalidParams),
    }
}

/// Which block is asked for: that of a number or of a hash, just one of which is given.
#[tactic(auto, unfolding(crate::specs::Requests::block_asked))]
fn block_asked(request: &Value) -> Option<Call>
    ensures { option_map call_view result ≡ block_asked (view request.now) }
{
    match (param(request, "number"), param(request, "hash")) {
        (Some(number), None) => Some(Call::QueryBlock(BlockName::Number(number_of(number)?))),
        (None, Some(hash)) => Some(Call::QueryBlock(BlockName::Hash(hash_of(hash)?))),
        _ => None,
    }
}

/// What a method asks, if its parameters are there.
pub fn asked_by(alloc: Global, method: Method, request: &Value) -> Result<Call, CallFault>
    ensures { Gives call_view result (ok_or (asked_by method (view request.now)) InvalidParams) }
{
    match method {
        Method::QueryTip => Ok(Call::QueryTip),
        Method::QueryHeight => Ok(Call::QueryHeight),
        Method::QueryUtxo => outputs_asked(alloc, request),
        Method::QueryBlock => block_asked(request).ok_or(CallFault::InvalidParams),
        Method::QueryTransaction => {
            let id = hash_at(request, "id").ok_or(CallFault::InvalidParams)?;
            Ok(Call::QueryTransaction(id))
        }
        Method::QueryMempool => Ok(Call::QueryMempool),
        Method::Why => {
            let hash = hash_at(request, "hash").ok_or(CallFault::InvalidParams)?;
            Ok(Call::Why(hash))
        }
        Method::FindIntersection => {
            let points = list_at::<BlockPoint>(alloc, request, "points")?;
            Ok(Call::FindIntersection(points))
        }
        Method::NextBlock => Ok(Call::NextBlock),
        Method::SubmitTransaction => {
            let bytes = bytes_at(alloc, request, "transaction")?;
            Ok(Call::SubmitTransaction(bytes))
        }
        Method::Evaluate => {
            let bytes = bytes_at(alloc, request, "transaction")?;
            Ok(Call::Evaluate(bytes))
        }
        Method::Forge => {
            let slot = number_at(request, "slot").ok_or(CallFault::InvalidParams)?;
            Ok(Call::Forge(slot))
        }
        Method::Flush => Ok(Call::Flush),
        Method::Stop => Ok(Call::Stop),
    }
}
