//! Lines: a margin of spaces, words and what they say, and a line feed. Where memory runs out, a beginning of what is
//! appended here and elsewhere in this crate may stand there.

ghost use Rattle.std.specs.Prelude.{◌≡◌, ◌++◌, IfOk, OnOk, string_bytes};
ghost use Rattle.showing.specs.Lines.{bytes_line, inner_margin, name_line, number_line, verdict_line, words_line};

use ident::Id;
use std::alloc::{AllocError, Global};

/// The margin of what belongs to a line with this one: two spaces more.
pub fn inner_margin(alloc: Global, margin: &str) -> Result<String, AllocError>
    ensures { IfOk result (λ inner. string_bytes inner ≡ inner_margin margin.now) }
{
    format!(in alloc; "{margin}  ")
}

/// Appends a line of words alone.
pub fn put_words(out: &mut String, margin: &str, words: &str) -> Result<(), AllocError>
    ensures { OnOk result (string_bytes out.new ≡ string_bytes out.old ++ words_line margin.now words.now) }
{
    write!(out, "{margin}{words}\n")
}

/// Appends a line of a word and a number.
pub fn put_number(out: &mut String, margin: &str, word: &str, number: u64) -> Result<(), AllocError>
    ensures { OnOk result (string_bytes out.new ≡ string_bytes out.old ++ number_line margin.now word.now number) }
{
    write!(out, "{margin}{word} {number}\n")
}

/// Appends a line of a word and an identifier.
pub fn put_id<Kind>(
    out: &mut String,
    margin: &str,
    word: &str,
    id: &Id<Kind>,
) -> Result<(), AllocError>
    ensures { OnOk result (string_bytes out.new ≡ string_bytes out.old ++ bytes_line margin.now word.now id.now.bytes) }
{
    write!(out, "{margin}{word} {id}\n")
}

/// Appends a line of a word and a name.
pub fn put_name(out: &mut String, margin: &str, word: &str, name: &str) -> Result<(), AllocError>
    ensures { OnOk result (string_bytes out.new ≡ string_bytes out.old ++ name_line margin.now word.now name.now) }
{
    write!(out, "{margin}{word} {name}\n")
}

/// Appends the line of a verdict.
pub fn put_verdict(
    out: &mut String,
    margin: &str,
    verdict: bool,
    good: &str,
    bad: &str,
) -> Result<(), AllocError>
    ensures { OnOk result (string_bytes out.new ≡ string_bytes out.old
        ++ verdict_line margin.now good.now bad.now verdict) }
{
    if verdict {
        put_words(out, margin, good)
    } else {
        put_words(out, margin, bad)
    }
}
