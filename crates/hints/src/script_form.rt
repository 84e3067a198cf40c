//! Which words the lines of a script have.

use thiserror::Error;

/// What a word has to be.
#[derive(Clone, Copy, Debug, Error)]
pub enum Kind {
    #[error("a name")]
    Name,
    /// A name, or `genesis`.
    #[error("a name or genesis")]
    Place,
    /// A number of 64 bits.
    #[error("a number below 2^64 without a zero in front")]
    Number,
    /// The same, with or without a sign.
    #[error("a number below 2^64 without a zero in front, or one behind a sign")]
    Quantity,
    /// Whole bytes in hexadecimal digits.
    #[error("hexadecimal digits of whole bytes")]
    Digits,
    /// The same, or `-`.
    #[error("hexadecimal digits of whole bytes or -")]
    AssetName,
    /// `key` or `script`.
    #[error("key or script")]
    Owner,
    #[error("script")]
    Script,
}

/// What may stand behind the words that a line has at least.
#[derive(Clone, Copy)]
pub enum Rest {
    Nothing,
    /// Words of this kind.
    Each(Kind),
    /// A script, a name and a number for each asset.
    Assets,
}

/// The words of a line behind its first one.
#[derive(Clone, Copy)]
pub struct Form {
    pub kinds: &'static [Kind],
    pub rest: Rest,
    /// Whether the line stands between `tx` and `end` alone.
    pub is_part: bool,
}

const NONE: &[Kind] = &[];

const NAME: &[Kind] = &[Kind::Name];

const NUMBER: &[Kind] = &[Kind::Number];

const DIGITS: &[Kind] = &[Kind::Name, Kind::Digits];

const SLOT: &[Kind] = &[Kind::Name, Kind::Number];

const SPEND: &[Kind] = &[Kind::Place, Kind::Number];

const POINT: &[Kind] = &[Kind::Name, Kind::Place];

const WATCH: &[Kind] = &[Kind::Name, Kind::Name];

const BLOCK: &[Kind] = &[Kind::Name, Kind::Place, Kind::Number];

const PAY: &[Kind] = &[Kind::Owner, Kind::Name, Kind::Number];

const MINT: &[Kind] = &[Kind::Name, Kind::AssetName, Kind::Quantity];

const SCRIPT: &[Kind] = &[Kind::Script, Kind::Name];

const ASSET: &[Kind] = &[Kind::Name, Kind::AssetName, Kind::Number];

impl Form {
    fn line(kinds: &'static [Kind], rest: Rest) -> Option<Form> {
        Some(Form {
            kinds,
            rest,
            is_part: false,
        })
    }

    fn part(kinds: &'static [Kind], rest: Rest) -> Option<Form> {
        Some(Form {
            kinds,
            rest,
            is_part: true,
        })
    }

    /// The form of a line that begins with this word, and has `behind` words behind it.
    pub fn of_line(first: &str, behind: usize) -> Option<Form> {
        match first {
            "tip" | "mempool" | "utxo" => Form::line(NONE, Rest::Nothing),
            "tx"
            | "arrive"
            | "arrive-cut"
            | "arrive-ext"
            | "submit"
            | "open"
            | "next"
            | "close"
            | "discard"
            | "why"
            | "where" => Form::line(NAME, Rest::Nothing),
            "key" | "seed" | "script" | "raw" => Form::line(DIGITS, Rest::Nothing),
            "forge" => Form::line(SLOT, Rest::Nothing),
            "block" => Form::line(BLOCK, Rest::Each(Kind::Name)),
            "forward" => Form::line(POINT, Rest::Each(Kind::Place)),
            "watch" => Form::line(WATCH, Rest::Each(Kind::Name)),
            "balance" if behind < 2 => Form::line(NAME, Rest::Nothing),
            "balance" => Form::line(SCRIPT, Rest::Nothing),
            "end" => Form::part(NONE, Rest::Nothing),
            "in" => Form::part(SPEND, Rest::Nothing),
            "out" => Form::part(PAY, Rest::Assets),
            "fee" | "from" | "until" => Form::part(NUMBER, Rest::Nothing),
            "mint" => Form::part(MINT, Rest::Nothing),
            "sign" | "badsign" | "with" => Form::part(NAME, Rest::Nothing),
            _ => None,
        }
    }

    /// What the word at this place behind the first one has to be, counted from 0. None where no word stands there.
    pub fn kind_at(&self, place: usize) -> Option<Kind> {
        match place.checked_sub(self.kinds.len()) {
            None => self.kinds.get(place).copied(),
            Some(more) => match self.rest {
                Rest::Nothing => None,
                Rest::Each(kind) => Some(kind),
                Rest::Assets => ASSET.get(more % 3).copied(),
            },
        }
    }

    /// Whether a line may end before the word at this place behind the first one.
    pub fn may_end(&self, place: usize) -> bool {
        match place.checked_sub(self.kinds.len()) {
            None => false,
            Some(more) => match self.rest {
                Rest::Assets => more % 3 == 0,
                Rest::Nothing | Rest::Each(_) => true,
            },
        }
    }
}

/// Whether the word is a letter and up to 15 letters or digits, and not `genesis`.
fn is_name(word: &str) -> bool {
    match word.as_bytes() {
        [first, rest @ ..] => first.is_ascii_alphabetic()
            && rest.len() <= 15
            && rest.iter().all(|byte| byte.is_ascii_alphanumeric())
            && word != "genesis",
        [] => false,
    }
}

/// The number that a word says.
fn number_of(word: &str) -> Option<u64> {
    match word.as_bytes() {
        [b'0'] => Some(0),
        [b'1'..=b'9', ..] => word.parse::<u64>().ok(),
        _ => None,
    }
}

/// The size of the number that a word says with or without a sign.
pub fn size_of(word: &str) -> Option<u64> {
    number_of(word.strip_prefix('-').unwrap_or(word))
}

fn are_digits(word: &str) -> bool {
    !word.is_empty()
        && word.len() % 2 == 0
        && word.as_bytes().iter().all(|byte| byte.is_ascii_hexdigit())
}

impl Kind {
    /// Whether the word is of this kind.
    pub fn has(self, word: &str) -> bool {
        match self {
            Kind::Name => is_name(word),
            Kind::Place => word == "genesis" || is_name(word),
            Kind::Number => number_of(word).is_some(),
            Kind::Quantity => size_of(word).is_some(),
            Kind::Digits => are_digits(word),
            Kind::AssetName => word == "-" || are_digits(word),
            Kind::Owner => word == "key" || word == "script",
            Kind::Script => word == "script",
        }
    }
}
