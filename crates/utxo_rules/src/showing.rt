//! The parts of a detail as they are shown.

ghost use Rattle.std.specs.Prelude.{Some};
ghost use Rattle.utxo_rules.specs.DetailView.{asset_of};
ghost use Rattle.utxo_rules.specs.Sentences.{asset_text, interval_text};

use crate::detail::AssetId;
use ident::Hex;
use std::fmt;

/// The slots in which a transaction holds.
#[derive(Drop)]
pub struct Span {
    pub start: Option<u64>,
    pub end: Option<u64>,
}

impl fmt::Display for Span {
    ghost output = { λ span. Some (interval_text span.start span.end) };

    fn fmt<W: fmt::Write>(&self, f: &mut fmt::Formatter<W>) -> fmt::Result {
        match (self.start, self.end) {
            (Some(start), Some(end)) => write!(f, "from slot {start} on and before slot {end}"),
            (Some(start), None) => write!(f, "from slot {start} on"),
            (None, Some(end)) => write!(f, "before slot {end}"),
            (None, None) => f.write_str("all slots"),
        }
    }
}

/// An asset: `ada`, or the policy, and after it a dot and the name, where that is not empty.
#[derive(Drop)]
pub struct Name<'a> {
    pub asset: &'a Option<AssetId>,
}

impl<'a> fmt::Display for Name<'a> {
    ghost output = { λ name. Some (asset_text (asset_of name.asset.now)) };

    fn fmt<W: fmt::Write>(&self, f: &mut fmt::Formatter<W>) -> fmt::Result {
        match self.asset {
            None => f.write_str("ada"),
            Some(asset) => {
                let policy = asset.policy;
                if asset.name.is_empty() {
                    return write!(f, "{policy}");
                }
                let name = Hex(&asset.name);
                write!(f, "{policy}.{name}")
            }
        }
    }
}
