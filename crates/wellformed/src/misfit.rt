//! What is wrong with bytes that are to be the text of an item.

ghost use Rattle.std.specs.Prelude.{◌≡◌, IfSome, IfNone, OnSome};
ghost use Rattle.model.specs.Cbor.{Item, Spells};
ghost use Rattle.model.specs.Limits.{nesting_limit};
ghost use Rattle.wellformed.specs.Misfits.{IsMisfitOf};
ghost use Rattle.wellformed.specs.Walks.{FindsItem};

use crate::stop::Stop;
use crate::walk::{Walk, item};
use thiserror::Error;

/// Why bytes are not the text of an item, and at which place, an index into them. The order of keys is looked at last:
/// but for `Order`, the bytes before the place begin the text of some item whose maps may have their keys in any order,
/// and twice, and with the byte at the place they begin none.
#[derive(Clone, Copy, Debug, PartialEq, Eq, Error)]
pub enum Misfit {
    /// The bytes begin the text of such an item, and end before it does.
    #[error("the text ends before its item does")]
    Ends,
    /// An item is to begin at the place, and none that may stand there begins with the byte: it would be a text string,
    /// a tag, a float or a simple value other than null, of indefinite length, with a head of reserved bits, or an
    /// array or a map with something in it that would nest deeper than 64.
    #[error("byte {place} begins no item")]
    Initial { place: usize },
    /// With the byte at the place a number, or the count of a byte string, an array or a map, has a shorter form,
    /// whatever follows.
    #[error("byte {place} makes a number that has a shorter form")]
    Argument { place: usize },
    /// The bytes before the place are the text of such an item, and more stand behind it.
    #[error("the text goes on at byte {place} behind its item")]
    Trailing { place: usize },
    /// The bytes are the text of an item but for the order of keys: the key whose text begins at the place is the first
    /// that does not stand after the key before it, in the bytewise order of texts.
    #[error("the key at byte {place} is not after the key before it")]
    Order { place: usize },
}

/// How deep an item may nest, which bounds the recursion.
const MAX_NESTING: u8 = 64;

/// Why the bytes are not the text of an item that nests at most 64 deep (RFC 8949, section 4.2.1), or None where they
/// are. Linear in the bytes: each is read once, and compared at most twice for each map of which it stands in a key,
/// which are 63 at most. No memory is taken, and at most 64 items are open at a time, one in another.
pub fn first_misfit(bytes: &[u8]) -> Option<Misfit>
    ensures whole { IfNone result ((item : Item) × Spells item bytes.now) }
    ensures misfit { IfSome result (λ misfit. IsMisfitOf bytes.now misfit) }
    ensures no_text { OnSome result ((item : Item) → Spells item bytes.now → ⊥) }
    ensures only { (misfit : Misfit) → IsMisfitOf bytes.now misfit → result ≡ Some misfit }
{
    match item(MAX_NESTING, bytes) {
        Ok(walk) => behind(bytes, walk),
        Err(Stop::Ends) => Some(Misfit::Ends),
        Err(Stop::Initial(left)) => Some(Misfit::Initial {
            place: bytes.len() - left,
        }),
        Err(Stop::Argument(left)) => Some(Misfit::Argument {
            place: bytes.len() - left,
        }),
    }
}

/// The same, where this was found.
fn behind(bytes: &[u8], walk: Walk<'_>) -> Option<Misfit>
    requires { FindsItem nesting_limit bytes.now walk.rest.now walk.late }
    ensures whole { IfNone result ((item : Item) × Spells item bytes.now) }
    ensures misfit { IfSome result (λ misfit. IsMisfitOf bytes.now misfit) }
    ensures no_text { OnSome result ((item : Item) → Spells item bytes.now → ⊥) }
    ensures only { (misfit : Misfit) → IsMisfitOf bytes.now misfit → result ≡ Some misfit }
{
    if !walk.rest.is_empty() {
        return Some(Misfit::Trailing {
            place: bytes.len() - walk.rest.len(),
        });
    }
    let left = walk.late?;
    Some(Misfit::Order {
        place: bytes.len() - left,
    })
}
