//! Replies, each of which is a line.

ghost use Rattle.std.specs.Prelude.{◌≡◌, ◌++◌, IfOk};
ghost use Rattle.conversing.specs.RequestView.{id_view};
ghost use Rattle.conversing.specs.Replies.{fault_text, line_if, line_with, lost_text, or_null, outcome_text};
ghost use Rattle.conversing.specs.Replies.{reply_text};

use crate::outcome::{Outcome, put_outcome};
use crate::request_fault::RequestFault;
use crate::request_id::RequestId;
use std::alloc::{AllocError, Global};

/// The line of an error with this id.
fn error_line(alloc: Global, error: &[u8], id: &[u8]) -> Result<Vec<u8>, AllocError>
    ensures { IfOk result (λ line. line.items ≡ line_with error.now id.now) }
{
    let mut line = Vec::new(alloc);
    line.extend_from_slice(b"{\"jsonrpc\":\"2.0\",")?;
    line.extend_from_slice(error)?;
    line.extend_from_slice(b",\"id\":")?;
    line.extend_from_slice(id)?;
    line.extend_from_slice(b"}\n")?;
    Ok(line)
}

/// The line of an error, unless it is about a notification.
fn error_if(alloc: Global, error: &[u8], id: &Option<RequestId>) -> Result<Vec<u8>, AllocError>
    ensures { IfOk result (λ line. line.items ≡ line_if (id_view id.now) error.now) }
{
    match id {
        Some(id) => error_line(alloc, error, id.as_bytes()),
        None => Ok(Vec::new(alloc)),
    }
}

/// The id, and `null` where there is none.
fn or_null(id: &Option<RequestId>) -> &[u8]
    ensures { result.now ≡ or_null (id_view id.now) }
{
    match id {
        Some(id) => id.as_bytes(),
        None => b"null",
    }
}

/// The reply to a line that asks nothing: an error with the number of its fault, and with the id of the request, or
/// with `null` where none was read. It is empty where a notification names no method or has other parameters, since a
/// notification gets no reply (JSON-RPC 2.0, section 4.1).
pub fn fault_line(alloc: Global, fault: &RequestFault) -> Result<Vec<u8>, AllocError>
    ensures { IfOk result (λ line. line.items ≡ fault_text fault.now) }
{
    match fault {
        RequestFault::ParseError => error_line(
            alloc,
            b"\"error\":{\"code\":-32700,\"message\":\"Parse error\"}",
            b"null",
        ),
        RequestFault::InvalidRequest { id } => error_line(
            alloc,
            b"\"error\":{\"code\":-32600,\"message\":\"Invalid Request\"}",
            or_null(id),
        ),
        RequestFault::MethodNotFound { id } => error_if(
            alloc,
            b"\"error\":{\"code\":-32601,\"message\":\"Method not found\"}",
            id,
        ),
        RequestFault::InvalidParams { id } => error_if(
            alloc,
            b"\"error\":{\"code\":-32602,\"message\":\"Invalid params\"}",
            id,
        ),
        RequestFault::OutOfMemory => error_line(
            alloc,
            b"\"error\":{\"code\":-32603,\"message\":\"Internal error\"}",
            b"null",
        ),
    }
}

/// The reply to a request that was read and whose call can't be carried out, or for whose reply there is no memory: the
/// error -32603 with the request's id. It is empty for a notification.
pub fn lost_line(alloc: Global, id: &Option<RequestId>) -> Result<Vec<u8>, AllocError>
    ensures { IfOk result (λ line. line.items ≡ lost_text (id_view id.now)) }
{
    error_if(
        alloc,
        b"\"error\":{\"code\":-32603,\"message\":\"Internal error\"}",
        id,
    )
}

/// The line of a reply with this id.
fn outcome_line(alloc: Global, id: &[u8], outcome: &Outcome<'_>) -> Result<Vec<u8>, AllocError>
    ensures { IfOk result (λ line. line.items ≡ line_with (outcome_text outcome.now) id.now) }
{
    let mut line = Vec::new(alloc);
    line.extend_from_slice(b"{\"jsonrpc\":\"2.0\",")?;
    put_outcome(alloc, &mut line, outcome)?;
    line.extend_from_slice(b",\"id\":")?;
    line.extend_from_slice(id)?;
    line.extend_from_slice(b"}\n")?;
    Ok(line)
}

/// The reply to a request with this id, empty for a notification. Takes time and memory in proportion to what it tells,
/// for a block about four times its bytes.
pub fn reply_line(
    alloc: Global,
    id: &Option<RequestId>,
    outcome: &Outcome<'_>,
) -> Result<Vec<u8>, AllocError>
    ensures { IfOk result (λ line. line.items ≡ reply_text (id_view id.now) outcome.now) }
{
    match id {
        Some(id) => outcome_line(alloc, id.as_bytes(), outcome),
        None => Ok(Vec::new(alloc)),
    }
}
