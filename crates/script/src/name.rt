//! Names in a line.

ghost use Rattle.std.specs.Prelude.{◌≡◌, Some, None, option_map, true, if◌then◌else◌};
ghost use Rattle.script.specs.Text.{is_name};

use crate::words;

/// A name in a line: a letter and up to 15 letters or digits, and not `genesis`.
#[derive(Clone, Copy, Debug)]
pub struct Name<'a> {
    pub text: &'a [u8],
    pub ghost named: { is_name text.now ≡ true },
}

impl<'a> Name<'a> {
    /// The name that a word says.
    pub fn of_word(word: &'a [u8]) -> Option<Name<'a>>
        ensures { option_map (λ n. n.text.now) result ≡ (if is_name word.entry.now then Some word.entry.now else None) }
    {
        if words::is_name(word) {
            Some(Name { text: word })
        } else {
            None
        }
    }
}
