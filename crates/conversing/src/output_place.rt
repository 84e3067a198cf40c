//! Places of outputs, as a client names them.

ghost use Rattle.std.specs.Prelude.{◌≡◌, option_map};
ghost use Rattle.serde_json.specs.View.{view};
ghost use Rattle.conversing.specs.Requests.{Place, place_of};
ghost use Rattle.conversing.specs.RequestView.{place_view};

use crate::call_fault::CallFault;
use crate::listed::Listed;
use crate::numbers::number_of;
use crate::params::hash_of;
use serde_json::Value;
use std::alloc::Global;

/// The transaction that made an output, and which of its outputs it is, from 0.
#[derive(Clone, Copy, Debug, PartialEq, Eq)]
pub struct OutputPlace {
    pub transaction: [u8; 32],
    pub index: u64,
}

impl OutputPlace {
    /// The place that an object with the members `transaction` and `index` is.
    #[tactic(auto, unfolding(crate::specs::Requests::place_of))]
    fn of_value(value: &Value) -> Option<OutputPlace>
        ensures { option_map place_view result ≡ place_of (view value.now) }
    {
        let transaction = hash_of(value.get("transaction")?)?;
        let index = number_of(value.get("index")?)?;
        Some(OutputPlace { transaction, index })
    }
}

impl Listed for OutputPlace {
    ghost Plain = { Place };

    ghost plain = { place_view };

    ghost read_as = { place_of };

    fn read(_alloc: Global, value: &Value) -> Result<OutputPlace, CallFault> {
        OutputPlace::of_value(value).ok_or(CallFault::InvalidParams)
    }
}
