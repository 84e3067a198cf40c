//! Requests, each of which is a line.

ghost use Rattle.std.specs.Prelude.{◌≡◌, IfOk, IfErr, option_map};
ghost use Rattle.serde_json.specs.View.{view};
ghost use Rattle.conversing.specs.Steps.{Gives};
ghost use Rattle.conversing.specs.Requests.{asked_in, call_in, has_structure, has_version, name_in};
ghost use Rattle.conversing.specs.RequestView.{call_view, request_view, Asks, GivesRequest, IsFaultOf};

use crate::call::{Call, asked_by};
use crate::call_fault::CallFault;
use crate::method::Method;
use crate::request_fault::RequestFault;
use crate::request_id::RequestId;
use serde_json::Value;
use std::alloc::Global;

/// A request: what is asked, and the id that the reply bears.
#[derive(Debug, Drop)]
pub struct Request {
    /// None for a notification, which gets no reply.
    pub id: Option<RequestId>,
    pub call: Call,
}

/// Whether the value has the version of JSON-RPC that is spoken here.
fn has_version(request: &Value) -> bool
    ensures { result ≡ has_version (view request.now) }
{
    match request.get("jsonrpc").and_then(Value::as_str) {
        Some(version) => version.as_bytes() == b"2.0".as_slice(),
        None => false,
    }
}

/// Whether the parameters are an object, an array, or left out.
fn has_structure(request: &Value) -> bool
    ensures { result ≡ has_structure (view request.now) }
{
    match request.get("params") {
        Some(params) => params.is_object() || params.is_array(),
        None => true,
    }
}

/// The name of the method that a request calls, if the value is a request.
#[tactic(auto, unfolding(crate::specs::Requests::name_in))]
fn name_in(request: &Value) -> Option<&str>
    ensures { option_map (λ name. name.now) result ≡ name_in (view request.now) }
{
    if !has_version(request) {
        return None;
    }
    if !has_structure(request) {
        return None;
    }
    request.get("method").and_then(Value::as_str)
}

/// What a request asks, or the first of its faults.
#[tactic(auto, unfolding(crate::specs::Requests::call_in))]
fn call_in(alloc: Global, request: &Value) -> Result<Call, CallFault>
    ensures { Gives call_view result (call_in (view request.now)) }
{
    let Some(name) = name_in(request) else {
        return Err(CallFault::InvalidRequest);
    };
    let Some(method) = Method::of_name(name) else {
        return Err(CallFault::MethodNotFound);
    };
    asked_by(alloc, method, request)
}

/// The request that a value is.
fn request_in(alloc: Global, value: &Value) -> Result<Request, RequestFault>
    ensures { GivesRequest result (asked_in (view value.now)) }
{
    let id = match RequestId::of_request(alloc, value) {
        Ok(id) => id,
        Err(fault) => return Err(RequestFault::of_call(fault, None)),
    };
    match call_in(alloc, value) {
        Ok(call) => Ok(Request { id, call }),
        Err(fault) => Err(RequestFault::of_call(fault, id)),
    }
}

/// The request that a line is: JSON-RPC 2.0 with parameters by name, one request a line, without batches. White space
/// around it is passed over, a line feed too. Of a member that stands in an object more than once the last one counts,
/// and members without a meaning are passed over. The text may nest 127 deep. Err is the first fault of the line:
/// ParseError, InvalidRequest, MethodNotFound, InvalidParams; or OutOfMemory. Takes time and memory in proportion to
/// the line.
pub fn read_request(alloc: Global, line: &[u8]) -> Result<Request, RequestFault>
    ensures ok { IfOk result (λ request. Asks line.now (request_view request)) }
    ensures fault { IfErr result (IsFaultOf line.now) }
{
    match Value::from_slice(alloc, line) {
        Ok(value) => request_in(alloc, &value),
        Err(error) if error.is_memory() => Err(RequestFault::OutOfMemory),
        Err(_) => Err(RequestFault::ParseError),
    }
}
