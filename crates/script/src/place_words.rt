//! Places on a chain in a line, one after the other.

ghost use Rattle.std.specs.Prelude.{◌≡◌, IsTrue, None, Some, drop, if◌then◌else◌, option_map};
ghost use Rattle.std.specs.List.{list_all};
ghost use Rattle.script.specs.Line.{is_place, parse_place, said_place};
ghost use Rattle.script.specs.PlaceView.{place_of};
ghost use Rattle.script.specs.Text.{first_word};
ghost use Rattle.script.specs.WordsView.{words_left};

use crate::name::Name;
use crate::words::{self, Words};

/// A place on a chain.
#[derive(Clone, Copy)]
pub enum NamedPlace<'a> {
    Genesis,
    /// The block of a name.
    Block(Name<'a>),
}

/// Whether the word says a place: it is `genesis`, or a name.
fn is_place(word: &[u8]) -> bool
    ensures { result ≡ is_place word.now }
{
    word == b"genesis".as_slice() || words::is_name(word)
}

impl<'a> NamedPlace<'a> {
    /// The place that a word says.
    pub fn of_word(word: &'a [u8]) -> Option<NamedPlace<'a>>
        ensures { option_map place_of result ≡ parse_place word.entry.now }
    {
        if word == b"genesis".as_slice() {
            return Some(NamedPlace::Genesis);
        }
        let name = Name::of_word(word)?;
        Some(NamedPlace::Block(name))
    }
}

/// Words each of which says a place.
#[derive(Clone, Copy)]
pub struct PlaceWords<'a> {
    pub words: Words<'a>,
    pub ghost places: { IsTrue (list_all is_place (words_left words)) },
}

impl<'a> PlaceWords<'a> {
    /// The places that words say, if each of them says one. Takes time in proportion to the words, and no memory.
    pub fn of(words: Words<'a>) -> Option<PlaceWords<'a>>
        ensures { option_map (λ places. words_left places.words) result ≡
            (if list_all is_place (words_left words.entry) then Some (words_left words.entry) else None) }
    {
        let mut left = words;
        while let Some(word) = left.next_word() {
            if !is_place(word) {
                return None;
            }
        }
        Some(PlaceWords { words })
    }

    /// The next place, if there is one.
    pub fn next_place(&mut self) -> Option<NamedPlace<'a>>
        ensures place { option_map place_of result ≡ option_map said_place (first_word (words_left self.old.words)) }
        ensures rest { words_left self.new.words ≡ drop 1 (words_left self.old.words) }
    {
        let word = self.words.next_word()?;
        NamedPlace::of_word(word)
    }
}
