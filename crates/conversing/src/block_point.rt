//! Points on a chain, as a client names them.

ghost use Rattle.std.specs.Prelude.{◌≡◌, option_map};
ghost use Rattle.serde_json.specs.View.{view};
ghost use Rattle.conversing.specs.Requests.{Point, point_of};
ghost use Rattle.conversing.specs.RequestView.{point_view};

use crate::call_fault::CallFault;
use crate::listed::Listed;
use crate::numbers::number_of;
use crate::params::hash_of;
use serde_json::Value;
use std::alloc::Global;

/// A block's number and its hash; the point before the first block has number 0 and 32 zero bytes.
#[derive(Clone, Copy, Debug, PartialEq, Eq)]
pub struct BlockPoint {
    pub number: u64,
    pub hash: [u8; 32],
}

impl BlockPoint {
    /// The point that an object with the members `number` and `hash` is.
    #[tactic(auto, unfolding(crate::specs::Requests::point_of))]
    fn of_value(value: &Value) -> Option<BlockPoint>
        ensures { option_map point_view result ≡ point_of (view value.now) }
    {
        let number = number_of(value.get("number")?)?;
        let hash = hash_of(value.get("hash")?)?;
        Some(BlockPoint { number, hash })
    }
}

impl Listed for BlockPoint {
    ghost Plain = { Point };

    ghost plain = { point_view };

    ghost read_as = { point_of };

    fn read(_alloc: Global, value: &Value) -> Result<BlockPoint, CallFault> {
        BlockPoint::of_value(value).ok_or(CallFault::InvalidParams)
    }
}
