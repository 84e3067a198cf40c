//! Blocks of a script.

ghost use Rattle.std.specs.Prelude.{◌≡◌, List, option_map};
ghost use Rattle.script.specs.Names.{Binding};
ghost use Rattle.script.specs.NamesView.{AreBound, bound_of};
ghost use Rattle.script.specs.PlaceView.{place_of};
ghost use Rattle.script.specs.Meaning.{base_after, built};
ghost use Rattle.script.specs.BaseView.{base_of};
ghost use Rattle.script.specs.Answer.{Answers};

use crate::bound_names::{Bound, BoundNames};
use crate::fault::LineFault;
use crate::place_words::NamedPlace;
use crate::stop::Stop;
use block::NoText;
use ident::{BlockHash, Point};
use std::alloc::Global;
use tx::Tx;

/// What a block goes on from: how many blocks there are up to here, and the hash of the last one.
#[derive(Clone, Copy)]
pub struct Base {
    number: u64,
    hash: Option<BlockHash>,
}

/// The parent of a block, if it is known.
pub fn base_after(names: &BoundNames, parent: NamedPlace<'_>) -> Option<Base>
    ensures { (bound : List Binding) → AreBound names.now bound
        → option_map base_of result ≡ base_after bound (place_of parent.entry) }
{
    match parent {
        NamedPlace::Genesis => Some(Base {
            number: 0,
            hash: None,
        }),
        NamedPlace::Block(name) => {
            let bound = names.get(name.text)?;
            let place = bound.place?;
            Some(Base {
                number: place.number,
                hash: Some(place.hash),
            })
        }
    }
}

/// The block of these transactions that goes on from here. Its text is written once, and its body and its header are
/// hashed once.
pub fn build(alloc: Global, base: Base, slot: u64, txs: &[Tx]) -> Result<Bound, Stop>
    ensures { Answers bound_of (built (base_of base) slot txs.now) result }
{
    let Some(number) = base.number.checked_add(1) else {
        return Err(Stop::Fault(LineFault::NotBuilt));
    };
    match block::write_with_hash(alloc, number, slot, base.hash, txs) {
        Ok((bytes, hash)) => Ok(Bound {
            bytes,
            place: Some(Point { number, hash }),
        }),
        Err(NoText::OutOfRange) => Err(Stop::Fault(LineFault::NotBuilt)),
        Err(NoText::TooDeep(_)) => Err(Stop::Fault(LineFault::NotBuilt)),
        Err(NoText::OutOfMemory) => Err(Stop::OutOfMemory),
    }
}
