//! Values of several assets and what is minted (Shelley-MA): made of assets in any order, read from their text and
//! written, copied, and added up in whole numbers.
#![tactic(auto)]

mod amounts;
mod asset_fault;
mod asset_quantity;
mod assets;
mod copying;
mod grouping;
mod laws;
mod mint;
mod quantity;
mod reader;
mod showing;
mod shown;
mod side;
mod totals;
mod value;
mod writer;

pub use amounts::Amounts;
pub use asset_fault::AssetFault;
pub use asset_quantity::AssetQuantity;
pub use assets::{MAX_NAME, Policy, Token};
pub use laws::{one_mint_of_parts, one_value_of_parts};
pub use mint::Mint;
pub use totals::Totals;
pub use value::Value;
