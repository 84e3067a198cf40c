//! Words of a line.

ghost use Rattle.std.specs.Prelude.{◌≡◌, ◌||◌, ◌==◌, option_map, drop};
ghost use Rattle.std.specs.List.{list_all, position};
ghost use Rattle.script.specs.Text.{content_of, words_of, first_word, is_printable, is_letter, is_digit, is_name};
ghost use Rattle.script.specs.Text.{begins_with_letter};
ghost use Rattle.script.specs.WordsView.{has_no_words, words_left};

/// The line without the line feed that ends it.
pub fn content_of(line: &[u8]) -> &[u8]
    ensures { result.now ≡ content_of line.now }
{
    match line {
        [content @ .., b'\n'] => content,
        _ => line,
    }
}

/// Whether the byte is a decimal digit.
pub fn is_digit(b: u8) -> bool
    ensures { result ≡ is_digit b }
{
    b >= b'0' && b <= b'9'
}

/// Whether the byte is a letter of ASCII.
fn is_letter(b: u8) -> bool
    ensures { result ≡ is_letter b }
{
    (b >= b'A' && b <= b'Z') || (b >= b'a' && b <= b'z')
}

/// Whether the first byte is a letter.
fn begins_with_letter(word: &[u8]) -> bool
    ensures { result ≡ begins_with_letter word.now }
{
    match word {
        [first, ..] => is_letter(*first),
        [] => false,
    }
}

/// Whether each byte is a letter or a digit.
fn is_alphanumeric(word: &[u8]) -> bool
    ensures { result ≡ list_all (λ b. is_letter b || is_digit b) word.now }
{
    word.iter().all(|b| is_letter(*b) || is_digit(*b))
}

/// Whether the word is a name: a letter and up to 15 letters or digits, and not `genesis`.
pub fn is_name(word: &[u8]) -> bool
    ensures { result ≡ is_name word.now }
{
    begins_with_letter(word)
        && is_alphanumeric(word)
        && word.len() <= 16
        && word != b"genesis".as_slice()
}

/// Whether each byte is a printable character of ASCII.
pub fn is_printable(content: &[u8]) -> bool
    ensures { result ≡ list_all is_printable content.now }
{
    content.iter().all(|b| *b >= 0x20 && *b <= 0x7e)
}

/// Where the first space stands.
fn first_space(content: &[u8]) -> Option<usize>
    ensures { result ≡ position (λ b. b == 32) content.now }
{
    content.iter().position(|b| *b == b' ')
}

/// The words of a line that are not read yet, between single spaces.
#[derive(Clone, Copy)]
pub struct Words<'a> {
    rest: Option<&'a [u8]>,
}

impl<'a> Words<'a> {
    /// All words of a line.
    pub fn of(content: &'a [u8]) -> Words<'a>
        ensures { words_left result ≡ words_of content.entry.now }
    {
        Words {
            rest: Some(content),
        }
    }

    /// Whether no word is left.
    pub fn is_empty(&self) -> bool
        ensures { result ≡ has_no_words (words_left self.now) }
    {
        self.rest.is_none()
    }

    /// The next word, if there is one. Takes time in proportion to the word, and no memory.
    pub fn next_word(&mut self) -> Option<&'a [u8]>
        ensures word { option_map (λ word. word.now) result ≡ first_word (words_left self.old) }
        ensures rest { words_left self.new ≡ drop 1 (words_left self.old) }
    {
        let content = self.rest?;
        match first_space(content) {
            Some(at) => {
                self.rest = Some(&content[at + 1..]);
                Some(&content[..at])
            }
            None => {
                self.rest = None;
                Some(content)
            }
        }
    }
}
