//! A quantity of one asset, and how such quantities stand in a text.

ghost use Rattle.std.specs.Prelude.{◌≡◌};
ghost use Rattle.value.specs.View.{asset_of};
ghost use Rattle.value.specs.Order.{asset_cmp};

use ident::ScriptHash;
use std::cmp::Ordering;

/// How much there is of one asset, or is minted of it.
#[derive(Debug, PartialEq, Eq, Drop)]
pub struct AssetQuantity<Q> {
    /// The hash of the policy's script.
    pub policy: ScriptHash,
    /// The asset name, 0 to 32 bytes.
    pub name: Vec<u8>,
    pub quantity: Q,
}

impl<Q> AssetQuantity<Q> {
    /// Which of two assets stands first in a text: by policy, then shorter names first, then by their bytes.
    pub(crate) fn order(&self, other: &AssetQuantity<Q>) -> Ordering
        ensures { result ≡ asset_cmp (asset_of self.now) (asset_of other.now) }
    {
        self.policy
            .cmp(&other.policy)
            .then_with(|| self.name.len().cmp(&other.name.len()))
            .then_with(|| self.name.cmp(&other.name))
    }
}
