//! What is told of a fault of a genesis file beside its name.

ghost use Rattle.std.specs.Prelude.{◌≡◌, IfOk, IsOk, map, option_map};
ghost use Rattle.toml.specs.Errors.{IsMemory, IsWithin};
ghost use Rattle.hints.specs.HintView.{IsOfSpot, IsStop, TellsOrNot};
ghost use Rattle.hints.specs.SpotView.{spot_view};

use crate::genesis_place::spot_place;
use crate::genesis_spot::{Spot, Trouble, document_spot};
use crate::place::Place;
use std::alloc::{AllocError, Global};
use std::fmt;
use toml::Table;
use toml::de::Error;

/// What a fault of a genesis file is about, in a sentence.
#[derive(Debug, Drop)]
pub enum GenesisHint {
    /// The reader of TOML stops at this place.
    NotToml {
        place: Place,
        why: String,
    },
    /// Something is wrong at this key of an output, counted from 0, or of the document itself. It stands at this place,
    /// if anywhere.
    Key {
        place: Option<Place>,
        output: Option<usize>,
        key: String,
        trouble: Trouble,
    },
}

impl fmt::Display for GenesisHint {
    fn fmt<W: fmt::Write>(&self, f: &mut fmt::Formatter<W>) -> fmt::Result {
        match self {
            GenesisHint::NotToml { place, why } => write!(f, "{place}: {why}"),
            GenesisHint::Key {
                place,
                output,
                key,
                trouble,
            } => {
                if let Some(place) = place {
                    write!(f, "{place}: ")?;
                }
                write!(f, "{key:?}")?;
                if let Some(output) = output {
                    write!(f, " of output {output}")?;
                }
                write!(f, " {trouble}")
            }
        }
    }
}

impl GenesisHint {
    /// Of a text that is no TOML.
    fn of_error(alloc: Global, bytes: &[u8], error: &Error) -> Result<GenesisHint, AllocError>
        requires { IsWithin bytes.now error.now }
        ensures stop { IfOk result (IsStop bytes.now error.now) }
        ensures memory { IsOk result → ¬ IsMemory error.now }
    {
        let Some(span) = error.span() else {
            return Err(AllocError);
        };
        let (before, _) = bytes.split_at(span.start.min(bytes.len()));
        Ok(GenesisHint::NotToml {
            place: Place::after(before),
            why: String::from_str(alloc, error.message())?,
        })
    }

    /// Of a document that is no genesis.
    fn of_spot(alloc: Global, bytes: &[u8], spot: &Spot<'_>) -> Result<GenesisHint, AllocError>
        ensures { IfOk result (IsOfSpot (spot_view spot.now)) }
    {
        Ok(GenesisHint::Key {
            place: spot_place(alloc, bytes, spot)?,
            output: spot.output,
            key: String::from_str(alloc, spot.key)?,
            trouble: spot.trouble,
        })
    }

    /// What is told of the bytes of a genesis file. None where they are a genesis, Err where memory runs out. Takes
    /// time and memory in proportion to them.
    pub fn of_bytes(alloc: Global, bytes: &[u8]) -> Result<Option<GenesisHint>, AllocError>
        ensures { IfOk result (TellsOrNot bytes.now) }
    {
        let table = match toml::table_from_slice(alloc, bytes) {
            Ok(table) => table,
            Err(error) => return Ok(Some(GenesisHint::of_error(alloc, bytes, &error)?)),
        };
        match document_spot(alloc, &table)? {
            Some(spot) => Ok(Some(GenesisHint::of_spot(alloc, bytes, &spot)?)),
            None => Ok(None),
        }
    }
}
