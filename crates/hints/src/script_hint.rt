//! What is told of a fault of a script beside its name.

use crate::place::Place;
use crate::script_form::{Form, Kind, size_of};
use crate::script_names::{BoundSoFar, Sure, wanted_at};
use script::{LineFault, MAX_SCRIPT_SIZE};
use std::alloc::{AllocError, Global};
use std::{fmt, str};
use thiserror::Error;

/// The greatest number of a slot, and of what is minted.
const MAX_NUMBER: u64 = (1 << 63) - 1;

/// The greatest index of an output.
const MAX_INDEX: u64 = 65_535;

/// How many digits the name of an asset has at most.
const MAX_NAME_DIGITS: usize = 64;

/// How many digits a key has.
const KEY_DIGITS: usize = 64;

/// What is wrong with a word of a line, in words that go on after it.
#[derive(Clone, Copy, Debug, Error)]
pub enum WordTrouble {
    #[error("goes on with a byte that is not printable ASCII")]
    NotPrintable,
    #[error("stands where one space has to stand between two words")]
    Empty,
    #[error("begins no line of a script")]
    NoLine,
    #[error("is not {0}")]
    Not(Kind),
    #[error("is the last word, and {0} has to follow")]
    Last(Kind),
    #[error("is a word too many")]
    TooMany,
    #[error("stands outside of a transaction")]
    Outside,
    #[error("stands inside of a transaction")]
    Inside,
    #[error("begins a transaction that has no end")]
    NoEnd,
    #[error("begins a line that goes on past the greatest length of a script")]
    TooLong,
    #[error("is bound to nothing of the kind that is asked for")]
    Unbound,
    #[error("is bound to nothing of the kind that is asked for, or a name behind it is")]
    MaybeUnbound,
    #[error("is bound already")]
    Taken,
    #[error("is out of range")]
    OutOfRange,
    #[error("has another length than it has to have")]
    OtherLength,
    #[error("is the text of no native script")]
    NoScript,
    #[error("says a secret key, where the scheme has none")]
    NoSecret,
    #[error("signs twice, or is a public key, where only secret ones sign")]
    NoSigner,
    #[error("stands there twice, or is too much")]
    Again,
}

/// What the fault of a line is about: the word at this place.
#[derive(Debug, Drop)]
pub struct ScriptHint {
    place: Place,
    word: String,
    trouble: WordTrouble,
}

impl fmt::Display for ScriptHint {
    fn fmt<W: fmt::Write>(&self, f: &mut fmt::Formatter<W>) -> fmt::Result {
        let ScriptHint {
            place,
            word,
            trouble,
        } = self;
        write!(f, "{place}: {word:?} {trouble}")
    }
}

/// A word of a line by its place, counted from 0, and what is wrong with it.
type Found = Option<(usize, WordTrouble)>;

/// The first word that is none of this form.
fn misfit(form: &Form, words: &[&str]) -> Found {
    let behind = words.get(1..)?;
    for (place, word) in behind.iter().enumerate() {
        match form.kind_at(place) {
            None => return Some((place + 1, WordTrouble::TooMany)),
            Some(kind) if !kind.has(*word) => return Some((place + 1, WordTrouble::Not(kind))),
            Some(_) => {}
        }
    }
    if form.may_end(behind.len()) {
        return None;
    }
    let kind = form.kind_at(behind.len())?;
    Some((behind.len(), WordTrouble::Last(kind)))
}

/// What a line is a bad one by, where its bytes are printable.
fn bad_word(words: &[&str], is_open: bool) -> Found {
    if let Some(place) = words.iter().position(|word| word.is_empty()) {
        return Some((place, WordTrouble::Empty));
    }
    let first = words.first().copied()?;
    let Some(form) = Form::of_line(first, words.len() - 1) else {
        return Some((0, WordTrouble::NoLine));
    };
    if let Some(found) = misfit(&form, words) {
        return Some(found);
    }
    Some((
        0,
        if form.is_part && !is_open {
            WordTrouble::Outside
        } else if !form.is_part && is_open {
            WordTrouble::Inside
        } else if first == "tx" {
            WordTrouble::NoEnd
        } else {
            WordTrouble::NoLine
        },
    ))
}

/// The name that a line asks for and that isn't bound. Where only names are left of which a line before may have bound
/// nothing, the first of them.
fn unbound_word(words: &[&str], bound: &BoundSoFar<'_>) -> Found {
    let mut maybe = None;
    let mut others = false;
    for (place, word) in words.iter().enumerate() {
        let Some(wanted) = wanted_at(words, place) else {
            continue;
        };
        if *word == "genesis" {
            continue;
        }
        match bound.has(wanted, *word) {
            Sure::Yes => {}
            Sure::No => return Some((place, WordTrouble::Unbound)),
            Sure::Maybe if maybe.is_none() => maybe = Some(place),
            Sure::Maybe => others = true,
        }
    }
    let place = maybe?;
    if others {
        return Some((place, WordTrouble::MaybeUnbound));
    }
    Some((place, WordTrouble::Unbound))
}

/// The asset of an output that can't be built.
fn unbuilt_asset(words: &[&str]) -> Found {
    for (place, word) in words.iter().enumerate() {
        if place < 4 {
            continue;
        }
        if place % 3 == 2 && word.len() > MAX_NAME_DIGITS {
            return Some((place, WordTrouble::OtherLength));
        }
        if place % 3 == 0 && *word == "0" {
            return Some((place, WordTrouble::OutOfRange));
        }
    }
    None
}

/// Whether a word says a number above this, whatever its sign.
fn is_above(word: &str, most: u64) -> bool {
    match size_of(word) {
        Some(size) => size > most,
        None => false,
    }
}

/// Whether a word says a quantity that can't be minted: none, or more than 64 bits with a sign have.
fn is_unminted(word: &str) -> bool {
    let most = if word.starts_with('-') {
        MAX_NUMBER + 1
    } else {
        MAX_NUMBER
    };
    size_of(word) == Some(0) || is_above(word, most)
}

/// The part of a mint that can't be built.
fn unminted_word(name: &str, quantity: &str) -> (usize, WordTrouble) {
    if name.len() > MAX_NAME_DIGITS {
        return (2, WordTrouble::OtherLength);
    }
    if is_unminted(quantity) {
        return (3, WordTrouble::OutOfRange);
    }
    (1, WordTrouble::Again)
}

/// What a line can't be built by.
fn unbuilt_word(words: &[&str]) -> Found {
    match words {
        ["seed", _, digits] if digits.len() == KEY_DIGITS => Some((2, WordTrouble::NoSecret)),
        ["key" | "seed", ..] => Some((2, WordTrouble::OtherLength)),
        ["script", ..] => Some((2, WordTrouble::NoScript)),
        ["in", _, index] if is_above(*index, MAX_INDEX) => Some((2, WordTrouble::OutOfRange)),
        ["block", _, _, slot, ..] if is_above(*slot, MAX_NUMBER) => Some((
            3,
            WordTrouble::OutOfRange,
        )),
        ["mint", _, name, quantity] => Some(unminted_word(*name, *quantity)),
        ["out", ..] => unbuilt_asset(words).or(Some((0, WordTrouble::Again))),
        ["sign", ..] => Some((1, WordTrouble::NoSigner)),
        ["in" | "badsign" | "with", ..] => Some((1, WordTrouble::Again)),
        _ => Some((0, WordTrouble::Again)),
    }
}

/// What is wrong with the words of a line of this fault.
fn found_in(words: &[&str], fault: LineFault, bound: &BoundSoFar<'_>) -> Found {
    match fault {
        LineFault::BadLine => bad_word(words, bound.is_open()),
        LineFault::UnknownName => unbound_word(words, bound),
        LineFault::NameTaken => Some((1, WordTrouble::Taken)),
        LineFault::NotBuilt => unbuilt_word(words),
    }
}

/// Where the line of this number begins, counted from 1: behind `number - 1` line feeds.
fn line_start(text: &[u8], number: u64) -> usize {
    let mut left = number.saturating_sub(1);
    for (place, byte) in text.iter().enumerate() {
        if left == 0 {
            return place;
        }
        if *byte == b'\n' {
            left -= 1;
        }
    }
    text.len()
}

/// The line that the text begins with, without its line feed.
fn first_line(text: &[u8]) -> &[u8] {
    let size = text.iter().position(|byte| *byte == b'\n');
    text.split_at(size.unwrap_or(text.len()).min(text.len())).0
}

impl ScriptHint {
    /// Of the word that begins `before` bytes behind the beginning of the line of this number, counted from 1.
    fn at(
        alloc: Global,
        number: u64,
        before: usize,
        word: &str,
        trouble: WordTrouble,
    ) -> Result<ScriptHint, AllocError> {
        Ok(ScriptHint {
            place: Place {
                line: number.saturating_sub(1),
                column: before as u64,
            },
            word: String::from_str(alloc, word)?,
            trouble,
        })
    }

    /// Of a line with a byte that is none of a script.
    fn of_bytes(alloc: Global, number: u64, line: &[u8]) -> Result<Option<ScriptHint>, AllocError> {
        let Some(size) = line.iter().position(|byte| !matches!(*byte, b' '..=b'~')) else {
            return Ok(None);
        };
        let Ok(before) = str::from_utf8(line.split_at(size.min(line.len())).0) else {
            return Ok(None);
        };
        let word = before.rsplit(' ').next().unwrap_or("");
        let hint = ScriptHint::at(alloc, number, size, word, WordTrouble::NotPrintable)?;
        Ok(Some(hint))
    }

    /// Of a line of words, of this fault, where the lines before bound this.
    fn of_words(
        alloc: Global,
        number: u64,
        line: &str,
        fault: LineFault,
        bound: &BoundSoFar<'_>,
    ) -> Result<Option<ScriptHint>, AllocError> {
        let words: Vec<&str> = line.split(' ').collect(alloc)?;
        let Some((place, trouble)) = found_in(&words, fault, bound) else {
            return Ok(None);
        };
        let Some(word) = words.get(place) else {
            return Ok(None);
        };
        let mut before = 0usize;
        for word in words.iter().take(place) {
            before = before.saturating_add(word.len()).saturating_add(1);
        }
        Ok(Some(ScriptHint::at(alloc, number, before, *word, trouble)?))
    }

    /// What is told of the fault that the line of this number has in a script, counted from 1, where the lines before
    /// have none. None where nothing more can be told, Err where memory runs out. Takes time and memory in proportion
    /// to the script up to there.
    pub fn of_line(
        alloc: Global,
        script: &[u8],
        number: u64,
        fault: LineFault,
    ) -> Result<Option<ScriptHint>, AllocError> {
        let (before, rest) = script.split_at(line_start(script, number).min(script.len()));
        let line = first_line(rest);
        if let Some(hint) = ScriptHint::of_bytes(alloc, number, line)? {
            return Ok(Some(hint));
        }
        let (Ok(before_text), Ok(line_text)) = (str::from_utf8(before), str::from_utf8(line)) else {
            return Ok(None);
        };
        let end = before.len().saturating_add(line.len());
        if end as u64 > MAX_SCRIPT_SIZE {
            let first = line_text.split(' ').next().unwrap_or("");
            let hint = ScriptHint::at(alloc, number, 0, first, WordTrouble::TooLong)?;
            return Ok(Some(hint));
        }
        let mut bound = BoundSoFar::new(alloc);
        for line in before_text.split('\n') {
            bound.note(line)?;
        }
        ScriptHint::of_words(alloc, number, line_text, fault, &bound)
    }
}
