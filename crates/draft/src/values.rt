//! The values of outputs.

ghost use Rattle.std.specs.Prelude.{◌≡◌, map, false, IfOk, IfErr, OnOk};
ghost use Rattle.value.specs.Parts.{IsValueOf};
ghost use Rattle.value.specs.View.{asset_of};
ghost use Rattle.draft.specs.Draft.{is_at_fault};
ghost use Rattle.draft.specs.Refusal.{IsFaultRefusal, draft_fault_of};

use crate::draft_fault::DraftFault;
use std::alloc::Global;
use value::{AssetFault, AssetQuantity, Value};

/// What is told of a fault of assets.
fn as_draft_fault(fault: AssetFault) -> DraftFault
    ensures { result ≡ draft_fault_of fault }
{
    match fault {
        AssetFault::NameTooLong | AssetFault::ZeroQuantity | AssetFault::Repeated => {
            DraftFault::NotBuilt
        }
        AssetFault::OutOfMemory => DraftFault::OutOfMemory,
    }
}

/// The value of coin and assets. NotBuilt where no value has them.
pub fn value_with(
    alloc: Global,
    coin: u64,
    assets: Vec<AssetQuantity<u64>>,
) -> Result<Value, DraftFault>
    ensures made { IfOk result (λ value. IsValueOf value coin (map asset_of assets.items)) }
    ensures sound { OnOk result (is_at_fault (map asset_of assets.items) ≡ false) }
    ensures refused { IfErr result (IsFaultRefusal (is_at_fault (map asset_of assets.items))) }
{
    match Value::new(alloc, coin, assets) {
        Ok(value) => {
            // The value has a text, so the assets are those of an output.
            let _nesting = value.nesting();
            Ok(value)
        }
        Err(fault) => Err(as_draft_fault(fault)),
    }
}
