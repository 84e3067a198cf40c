//! Points on a chain that lines name.

ghost use Rattle.std.specs.Prelude.{◌≡◌, List, is_some, option_map};
ghost use Rattle.ident.specs.PointView.{point_of};
ghost use Rattle.script.specs.Adding.{AreFound, AreGathered};
ghost use Rattle.script.specs.Line.{said_places};
ghost use Rattle.script.specs.Meaning.{point_at, points_at};
ghost use Rattle.script.specs.Names.{Binding};
ghost use Rattle.script.specs.NamesView.{AreBound};
ghost use Rattle.script.specs.PlaceView.{place_of};
ghost use Rattle.script.specs.WordsView.{words_left};

use crate::bound_names::BoundNames;
use crate::fault::LineFault;
use crate::place_words::{NamedPlace, PlaceWords};
use crate::stop::Stop;
use ident::Point;

impl BoundNames {
    /// The point of a place that is known.
    pub fn point_at(&self, place: NamedPlace<'_>) -> Option<Point>
        ensures { (names : List Binding) → AreBound self.now names
            → option_map point_of result ≡ point_at names (place_of place.entry) }
    {
        match place {
            NamedPlace::Genesis => Some(Point::genesis()),
            NamedPlace::Block(name) => {
                let bound = self.get(name.text)?;
                bound.place
            }
        }
    }

    /// Whether all places are known. Takes no memory.
    fn knows_places(&self, places: PlaceWords<'_>) -> bool
        ensures { (names : List Binding) → AreBound self.now names
            → result ≡ is_some (points_at names (said_places (words_left places.entry.words))) }
    {
        let mut left = places;
        while let Some(place) = left.next_place() {
            if self.point_at(place).is_none() {
                return false;
            }
        }
        true
    }

    /// The points of the places, in their order.
    fn gather_points(&self, places: PlaceWords<'_>) -> Result<Vec<Point>, Stop>
        ensures { (names : List Binding) → AreBound self.now names
            → AreGathered point_of (points_at names (said_places (words_left places.entry.words))) result }
    {
        let mut gathered = Vec::new(self.alloc);
        let mut left = places;
        while let Some(place) = left.next_place() {
            let Some(point) = self.point_at(place) else {
                return Err(Stop::Fault(LineFault::UnknownName));
            };
            gathered.push(point)?;
        }
        Ok(gathered)
    }

    /// The points of the places, in their order. That one is not known is told before memory is asked for. Each name is
    /// looked up twice.
    pub fn points_at(&self, places: PlaceWords<'_>) -> Result<Vec<Point>, Stop>
        ensures { (names : List Binding) → AreBound self.now names
            → AreFound point_of (points_at names (said_places (words_left places.entry.words))) result }
    {
        if !self.knows_places(places) {
            return Err(Stop::Fault(LineFault::UnknownName));
        }
        self.gather_points(places)
    }
}
