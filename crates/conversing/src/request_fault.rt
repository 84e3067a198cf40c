//! Why a line asks nothing.

ghost use Rattle.std.specs.Prelude.{◌≡◌};
ghost use Rattle.conversing.specs.RequestView.{fault_with};

use crate::call_fault::CallFault;
use crate::request_id::RequestId;
use thiserror::Error;

/// Why a line asks nothing (JSON-RPC 2.0, section 5.1), with the id of the request, where one was read.
#[derive(Debug, Drop, Error)]
pub enum RequestFault {
    /// The line is no JSON text, or no UTF-8, or it nests more than 127 deep. Number -32700.
    #[error("parse error")]
    ParseError,
    /// The JSON text is no request. Number -32600.
    #[error("invalid request")]
    InvalidRequest { id: Option<RequestId> },
    /// There is no method of this name. Number -32601.
    #[error("method not found")]
    MethodNotFound { id: Option<RequestId> },
    /// The method takes other parameters. Number -32602.
    #[error("invalid params")]
    InvalidParams { id: Option<RequestId> },
    /// Memory ran out before it was known what is asked. Number -32603.
    #[error("out of memory")]
    OutOfMemory,
}

impl RequestFault {
    /// The fault of a request with this id.
    pub(crate) fn of_call(fault: CallFault, id: Option<RequestId>) -> RequestFault
        ensures { result ≡ fault_with fault id }
    {
        match fault {
            CallFault::InvalidRequest => RequestFault::InvalidRequest { id },
            CallFault::MethodNotFound => RequestFault::MethodNotFound { id },
            CallFault::InvalidParams => RequestFault::InvalidParams { id },
            CallFault::OutOfMemory => RequestFault::OutOfMemory,
        }
    }
}
