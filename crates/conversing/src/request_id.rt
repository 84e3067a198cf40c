//! The id of a request, which its reply bears.

ghost use Rattle.std.specs.Prelude.{◌≡◌, ok_or};
ghost use Rattle.serde_json.specs.View.{view};
ghost use Rattle.conversing.specs.declared.call_fault.CallFault.TheVariants.{InvalidRequest};
ghost use Rattle.conversing.specs.Steps.{Gives};
ghost use Rattle.conversing.specs.Requests.{is_id, id_of, id_in};
ghost use Rattle.conversing.specs.RequestView.{id_text, id_view};

use crate::call_fault::CallFault;
use serde_json::Value;
use std::alloc::Global;

/// The id of a request as JSON: `null`, a whole number below 2^64, or a string.
#[derive(Debug, Drop)]
pub struct RequestId {
    text: Vec<u8>,
}

/// Whether a value may be an id.
fn is_id(value: &Value) -> bool
    ensures { result ≡ is_id (view value.now) }
{
    value.is_null() || value.is_u64() || value.is_string()
}

impl RequestId {
    /// The id as JSON, without a space and with the shortest escapes.
    pub fn as_bytes(&self) -> &[u8]
        ensures { result.now ≡ id_text self.now }
    {
        &self.text
    }

    /// The id that a value is.
    fn of_value(alloc: Global, value: &Value) -> Result<RequestId, CallFault>
        ensures { Gives id_text result (ok_or (id_of (view value.now)) InvalidRequest) }
    {
        if !is_id(value) {
            return Err(CallFault::InvalidRequest);
        }
        Ok(RequestId {
            text: value.to_vec(alloc)?,
        })
    }

    /// The id of a request, if it has one.
    pub(crate) fn of_request(alloc: Global, request: &Value) -> Result<Option<RequestId>, CallFault>
        ensures { Gives id_view result (ok_or (id_in (view request.now)) InvalidRequest) }
    {
        match request.get("id") {
            None => Ok(None),
            Some(value) => match RequestId::of_value(alloc, value) {
                Ok(id) => Ok(Some(id)),
                Err(fault) => Err(fault),
            },
        }
    }
}
