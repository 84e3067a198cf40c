//! Names in a line, one after the other.

ghost use Rattle.std.specs.Prelude.{◌≡◌, IsTrue, None, Some, drop, if◌then◌else◌, option_map};
ghost use Rattle.std.specs.List.{list_all};
ghost use Rattle.script.specs.Text.{first_word, is_name};
ghost use Rattle.script.specs.WordsView.{words_left};

use crate::name::Name;
use crate::words::{self, Words};

/// Words each of which is a name.
#[derive(Clone, Copy)]
pub struct NameWords<'a> {
    pub words: Words<'a>,
    pub ghost names: { IsTrue (list_all is_name (words_left words)) },
}

impl<'a> NameWords<'a> {
    /// The names that words say, if each of them is one. Takes time in proportion to the words, and no memory.
    pub fn of(words: Words<'a>) -> Option<NameWords<'a>>
        ensures { option_map (λ names. words_left names.words) result ≡
            (if list_all is_name (words_left words.entry) then Some (words_left words.entry) else None) }
    {
        let mut left = words;
        while let Some(word) = left.next_word() {
            if !words::is_name(word) {
                return None;
            }
        }
        Some(NameWords { words })
    }

    /// The next name, if there is one.
    pub fn next_name(&mut self) -> Option<Name<'a>>
        ensures name { option_map (λ name. name.text.now) result ≡ first_word (words_left self.old.words) }
        ensures rest { words_left self.new.words ≡ drop 1 (words_left self.old.words) }
    {
        let word = self.words.next_word()?;
        Name::of_word(word)
    }
}
