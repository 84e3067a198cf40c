//! What a line of a script says, by itself.

ghost use Rattle.std.specs.Prelude.{◌≡◌, Some, option_map};
ghost use Rattle.script.specs.Line.{parse_line, said_by, said_with, form_of, word_of, where_name, parse_place};
ghost use Rattle.script.specs.Line.{word_line, arrive_line, named_line, spend_line, pair_line, mint_line, long_line};
ghost use Rattle.script.specs.Line.{OpenFollower, AskNext, CloseFollower, SubmitTx, BeginTx, AddPart, SignBy, Supply};
ghost use Rattle.script.specs.Line.{DiscardBlock, AskWhy, AskWhere, AskBalance, OwnedByKey};
ghost use Rattle.script.specs.Line.{asking_line, balance_line, forge_line, forward_line, watch_line};
ghost use Rattle.script.specs.Line.{block_of_parts, pay_of_parts, parse_owner, parse_assets};
ghost use Rattle.script.specs.Text.{parse_number};
ghost use Rattle.script.specs.WordsView.{words_left};
ghost use Rattle.script.specs.LineView.{line_of};
ghost use Rattle.script.specs.PartView.{is_good};

use crate::asset_words::AssetWords;
use crate::digits::Digits;
use crate::name::Name;
use crate::name_words::NameWords;
use crate::number::parse_number;
use crate::part::{AssetName, Owner, Part, Quantity};
use crate::place_words::{NamedPlace, PlaceWords};
use crate::words::{self, Words};
use draft::Signing;

/// How bytes arrive.
#[derive(Clone, Copy, Debug, PartialEq, Eq)]
pub enum Form {
    /// As they are.
    Whole,
    /// Without the last byte.
    Cut,
    /// With a zero after them.
    Extended,
}

impl Form {
    /// The form that the first word of a line names.
    fn of_word(word: &[u8]) -> Option<Form>
        ensures { result ≡ form_of word.now }
    {
        if word == b"arrive".as_slice() {
            Some(Form::Whole)
        } else if word == b"arrive-cut".as_slice() {
            Some(Form::Cut)
        } else if word == b"arrive-ext".as_slice() {
            Some(Form::Extended)
        } else {
            None
        }
    }

    /// The first word of a line in which bytes arrive so.
    pub fn word(self) -> &'static [u8]
        ensures { result.now ≡ word_of self }
    {
        match self {
            Form::Whole => b"arrive".as_slice(),
            Form::Cut => b"arrive-cut".as_slice(),
            Form::Extended => b"arrive-ext".as_slice(),
        }
    }
}

/// What a line says.
#[derive(Clone, Copy)]
pub enum Line<'a> {
    /// Nothing: the line is empty or a comment.
    Nothing,
    /// A key.
    Key {
        name: Name<'a>,
        digits: Digits<'a>,
    },
    /// A secret key.
    Seed {
        name: Name<'a>,
        digits: Digits<'a>,
    },
    /// A native script.
    Script {
        name: Name<'a>,
        digits: Digits<'a>,
    },
    /// A transaction begins.
    Tx {
        name: Name<'a>,
    },
    /// A part of it.
    Part(Part<'a>),
    /// It ends.
    End,
    /// A block of transactions.
    Block {
        name: Name<'a>,
        parent: NamedPlace<'a>,
        slot: u64,
        transactions: NameWords<'a>,
    },
    /// Bytes.
    Raw {
        name: Name<'a>,
        digits: Digits<'a>,
    },
    /// The bytes of a name arrive.
    Arrive {
        form: Form,
        name: Name<'a>,
    },
    /// The transaction of a name is submitted.
    Submit {
        name: Name<'a>,
    },
    /// A block is forged in a slot, and gets a name.
    Forge {
        name: Name<'a>,
        slot: u64,
    },
    /// A follower is opened, and gets a name.
    Open {
        name: Name<'a>,
    },
    /// A follower is opened with an index of what the keys of these names have, and gets a name.
    Watch {
        name: Name<'a>,
        keys: NameWords<'a>,
    },
    /// What is the follower of a name told next?
    Next {
        name: Name<'a>,
    },
    /// A follower is to be set to the first of some places that is on the selected chain.
    Forward {
        name: Name<'a>,
        points: PlaceWords<'a>,
    },
    /// A follower is closed.
    Close {
        name: Name<'a>,
    },
    /// The block of a name is to be kept no more.
    Discard {
        name: Name<'a>,
    },
    /// Where does the selected chain end?
    Tip,
    /// What waits in the mempool?
    Mempool,
    /// What is unspent on the selected chain?
    Utxo,
    /// Why isn't the block of a name selected?
    Why {
        name: Name<'a>,
    },
    /// Where does the transaction of a name stand?
    Where {
        name: Name<'a>,
    },
    /// How much does an owner have?
    Balance {
        owner: Owner<'a>,
    },
}

/// The line of one word: a question, or the end of a transaction.
fn word_line<'a>(word: &[u8]) -> Option<Line<'a>>
    ensures { option_map line_of result ≡ word_line word.now }
{
    if word == b"tip".as_slice() {
        Some(Line::Tip)
    } else if word == b"utxo".as_slice() {
        Some(Line::Utxo)
    } else if word == b"mempool".as_slice() {
        Some(Line::Mempool)
    } else if word == b"end".as_slice() {
        Some(Line::End)
    } else {
        None
    }
}

/// The line in which the bytes of a name arrive.
fn arrive_line<'a>(word: &[u8], name: &'a [u8]) -> Option<Line<'a>>
    ensures { option_map line_of result ≡ arrive_line (form_of word.now) name.entry.now }
{
    let form = Form::of_word(word)?;
    let name = Name::of_word(name)?;
    Some(Line::Arrive { form, name })
}

/// The line in which a follower is opened.
fn open_line<'a>(name: &'a [u8]) -> Option<Line<'a>>
    ensures { option_map line_of result ≡ where_name name.entry.now (Some (OpenFollower name.entry.now)) }
{
    let name = Name::of_word(name)?;
    Some(Line::Open { name })
}

/// The line that asks what a follower is told next.
fn next_line<'a>(name: &'a [u8]) -> Option<Line<'a>>
    ensures { option_map line_of result ≡ where_name name.entry.now (Some (AskNext name.entry.now)) }
{
    let name = Name::of_word(name)?;
    Some(Line::Next { name })
}

/// The line in which a follower is closed.
fn close_line<'a>(name: &'a [u8]) -> Option<Line<'a>>
    ensures { option_map line_of result ≡ where_name name.entry.now (Some (CloseFollower name.entry.now)) }
{
    let name = Name::of_word(name)?;
    Some(Line::Close { name })
}

/// The line in which a block is discarded.
fn discard_line<'a>(name: &'a [u8]) -> Option<Line<'a>>
    ensures { option_map line_of result ≡ where_name name.entry.now (Some (DiscardBlock name.entry.now)) }
{
    let name = Name::of_word(name)?;
    Some(Line::Discard { name })
}

/// The line in which a transaction is submitted.
fn submit_line<'a>(name: &'a [u8]) -> Option<Line<'a>>
    ensures { option_map line_of result ≡ where_name name.entry.now (Some (SubmitTx name.entry.now)) }
{
    let name = Name::of_word(name)?;
    Some(Line::Submit { name })
}

/// The line in which a transaction begins.
fn tx_line<'a>(name: &'a [u8]) -> Option<Line<'a>>
    ensures { option_map line_of result ≡ where_name name.entry.now (Some (BeginTx name.entry.now)) }
{
    let name = Name::of_word(name)?;
    Some(Line::Tx { name })
}

/// The line in which a script is supplied.
fn with_line<'a>(script: &'a [u8]) -> Option<Line<'a>>
    ensures { option_map line_of result ≡ where_name script.entry.now (Some (AddPart (Supply script.entry.now))) }
{
    let script = Name::of_word(script)?;
    Some(Line::Part(Part::With { script }))
}

/// The line in which a key signs.
fn sign_line<'a>(key: &'a [u8], signing: Signing) -> Option<Line<'a>>
    ensures { option_map line_of result ≡
        where_name key.entry.now (Some (AddPart (SignBy key.entry.now (is_good signing)))) }
{
    let key = Name::of_word(key)?;
    Some(Line::Part(Part::Sign { key, signing }))
}

/// The question why a block isn't selected.
fn why_line<'a>(name: &'a [u8]) -> Option<Line<'a>>
    ensures { option_map line_of result ≡ where_name name.entry.now (Some (AskWhy name.entry.now)) }
{
    let name = Name::of_word(name)?;
    Some(Line::Why { name })
}

/// The question where a transaction stands.
fn where_line<'a>(name: &'a [u8]) -> Option<Line<'a>>
    ensures { option_map line_of result ≡ where_name name.entry.now (Some (AskWhere name.entry.now)) }
{
    let name = Name::of_word(name)?;
    Some(Line::Where { name })
}

/// The question how much a key has.
fn key_balance_line<'a>(key: &'a [u8]) -> Option<Line<'a>>
    ensures { option_map line_of result ≡ where_name key.entry.now (Some (AskBalance (OwnedByKey key.entry.now))) }
{
    let key = Name::of_word(key)?;
    let owner = Owner::Key(key);
    Some(Line::Balance { owner })
}

/// The line of two words that asks about the block, the transaction or the key of a name, or in which bytes arrive.
fn asking_line<'a>(word: &[u8], name: &'a [u8]) -> Option<Line<'a>>
    ensures { option_map line_of result ≡ asking_line word.now name.entry.now }
{
    if word == b"why".as_slice() {
        why_line(name)
    } else if word == b"where".as_slice() {
        where_line(name)
    } else if word == b"balance".as_slice() {
        key_balance_line(name)
    } else {
        arrive_line(word, name)
    }
}

/// The line of two words whose second one is a name or a number.
fn named_line<'a>(word: &[u8], name: &'a [u8]) -> Option<Line<'a>>
    ensures { option_map line_of result ≡ named_line word.now name.entry.now }
{
    if word == b"open".as_slice() {
        open_line(name)
    } else if word == b"next".as_slice() {
        next_line(name)
    } else if word == b"close".as_slice() {
        close_line(name)
    } else if word == b"discard".as_slice() {
        discard_line(name)
    } else if word == b"submit".as_slice() {
        submit_line(name)
    } else if word == b"tx".as_slice() {
        tx_line(name)
    } else if word == b"fee".as_slice() {
        Some(Line::Part(Part::Fee(parse_number(name)?)))
    } else if word == b"from".as_slice() {
        Some(Line::Part(Part::From(parse_number(name)?)))
    } else if word == b"until".as_slice() {
        Some(Line::Part(Part::Until(parse_number(name)?)))
    } else if word == b"sign".as_slice() {
        sign_line(name, Signing::Good)
    } else if word == b"badsign".as_slice() {
        sign_line(name, Signing::Bad)
    } else if word == b"with".as_slice() {
        with_line(name)
    } else {
        asking_line(word, name)
    }
}

/// The line in which an output is spent.
fn spend_line<'a>(from: &'a [u8], index: &[u8]) -> Option<Line<'a>>
    ensures { option_map line_of result ≡ spend_line from.entry.now index.now }
{
    if from == b"genesis".as_slice() {
        let index = parse_number(index)?;
        return Some(Line::Part(Part::SpendGrant { index }));
    }
    let tx = Name::of_word(from)?;
    let index = parse_number(index)?;
    Some(Line::Part(Part::Spend { tx, index }))
}

/// The line in which a block is forged.
fn forge_line<'a>(name: &'a [u8], slot: &[u8]) -> Option<Line<'a>>
    ensures { option_map line_of result ≡ forge_line name.entry.now slot.now }
{
    let name = Name::of_word(name)?;
    let slot = parse_number(slot)?;
    Some(Line::Forge { name, slot })
}

/// The question how much a script has.
fn balance_line<'a>(kind: &[u8], name: &'a [u8]) -> Option<Line<'a>>
    ensures { option_map line_of result ≡ balance_line kind.now name.entry.now }
{
    if kind != b"script".as_slice() {
        return None;
    }
    let script = Name::of_word(name)?;
    let owner = Owner::Script(script);
    Some(Line::Balance { owner })
}

/// The line of three words.
fn pair_line<'a>(word: &[u8], first: &'a [u8], second: &'a [u8]) -> Option<Line<'a>>
    ensures { option_map line_of result ≡ pair_line word.now first.entry.now second.entry.now }
{
    if word == b"in".as_slice() {
        return spend_line(first, second);
    }
    if word == b"forge".as_slice() {
        return forge_line(first, second);
    }
    if word == b"balance".as_slice() {
        return balance_line(first, second);
    }
    // `raw`, `key`, `seed` and `script` have a name and digits.
    let name = Name::of_word(first)?;
    let digits = Digits::of_word(second)?;
    if word == b"raw".as_slice() {
        Some(Line::Raw { name, digits })
    } else if word == b"key".as_slice() {
        Some(Line::Key { name, digits })
    } else if word == b"seed".as_slice() {
        Some(Line::Seed { name, digits })
    } else if word == b"script".as_slice() {
        Some(Line::Script { name, digits })
    } else {
        None
    }
}

/// The line of a block.
fn block_line<'a>(
    name: &'a [u8],
    parent: &'a [u8],
    slot: &[u8],
    transactions: Words<'a>,
) -> Option<Line<'a>>
    ensures { option_map line_of result ≡ where_name name.entry.now
        (block_of_parts name.entry.now (parse_place parent.entry.now) (parse_number slot.now)
        (words_left transactions.entry)) }
{
    let name = Name::of_word(name)?;
    let parent = NamedPlace::of_word(parent)?;
    let slot = parse_number(slot)?;
    let transactions = NameWords::of(transactions)?;
    Some(Line::Block {
        name,
        parent,
        slot,
        transactions,
    })
}

/// The line of an output.
fn pay_line<'a>(kind: &[u8], owner: &'a [u8], coin: &[u8], assets: Words<'a>) -> Option<Line<'a>>
    ensures { option_map line_of result ≡ pay_of_parts (parse_owner kind.now owner.entry.now) (parse_number coin.now)
        (parse_assets (words_left assets.entry)) }
{
    let owner = Owner::of_words(kind, owner)?;
    let coin = parse_number(coin)?;
    let assets = AssetWords::of(assets)?;
    Some(Line::Part(Part::Pay {
        owner,
        coin,
        assets,
    }))
}

/// The line in which an asset is minted.
fn mint_line<'a>(
    script: &'a [u8],
    name: &'a [u8],
    quantity: &[u8],
    rest: Words<'_>,
) -> Option<Line<'a>>
    ensures { option_map line_of result ≡
        mint_line script.entry.now name.entry.now quantity.now (words_left rest.entry) }
{
    if !rest.is_empty() {
        return None;
    }
    let name = AssetName::of_word(name)?;
    let quantity = Quantity::of_word(quantity)?;
    let script = Name::of_word(script)?;
    Some(Line::Part(Part::Mint {
        script,
        name,
        quantity,
    }))
}

/// The line of four words or more.
fn long_line<'a>(
    word: &[u8],
    first: &'a [u8],
    second: &'a [u8],
    third: &'a [u8],
    rest: Words<'a>,
) -> Option<Line<'a>>
    ensures { option_map line_of result ≡
        long_line word.now first.entry.now second.entry.now third.entry.now (words_left rest.entry) }
{
    if word == b"block".as_slice() {
        block_line(first, second, third, rest)
    } else if word == b"out".as_slice() {
        pay_line(first, second, third, rest)
    } else if word == b"mint".as_slice() {
        mint_line(first, second, third, rest)
    } else {
        None
    }
}

/// The line that a first word says with those that come after it.
fn said_with<'a>(word: &[u8], mut words: Words<'a>) -> Option<Line<'a>>
    ensures { option_map line_of result ≡ said_with word.now (words_left words.entry) }
{
    let first = words.next_word();
    let second = words.next_word();
    let third = words.next_word();
    match (first, second, third) {
        (None, _, _) => word_line(word),
        (Some(name), None, _) => named_line(word, name),
        (Some(first), Some(second), None) => pair_line(word, first, second),
        (Some(first), Some(second), Some(third)) => long_line(word, first, second, third, words),
    }
}

/// The line in which a follower is set to a place, of the words that come after the first.
fn forward_line(mut words: Words<'_>) -> Option<Line<'_>>
    ensures { option_map line_of result ≡ forward_line (words_left words.entry) }
{
    let first = words.next_word()?;
    if words.is_empty() {
        return None;
    }
    let name = Name::of_word(first)?;
    let points = PlaceWords::of(words)?;
    Some(Line::Forward { name, points })
}

/// The line in which a follower is opened with an index, of the words that come after the first.
fn watch_line(mut words: Words<'_>) -> Option<Line<'_>>
    ensures { option_map line_of result ≡ watch_line (words_left words.entry) }
{
    let first = words.next_word()?;
    if words.is_empty() {
        return None;
    }
    let name = Name::of_word(first)?;
    let keys = NameWords::of(words)?;
    Some(Line::Watch { name, keys })
}

/// What the words of a line say.
fn said_by(mut words: Words<'_>) -> Option<Line<'_>>
    ensures { option_map line_of result ≡ said_by (words_left words.entry) }
{
    let word = words.next_word()?;
    if word == b"forward".as_slice() {
        forward_line(words)
    } else if word == b"watch".as_slice() {
        watch_line(words)
    } else {
        said_with(word, words)
    }
}

/// What a line says, if it is one. Takes time in proportion to the line, and no memory.
pub fn parse_line(line: &[u8]) -> Option<Line<'_>>
    ensures { option_map line_of result ≡ parse_line line.entry.now }
{
    let content = words::content_of(line);
    if !words::is_printable(content) {
        return None;
    }
    match content {
        [] | [b'#', ..] => Some(Line::Nothing),
        _ => said_by(Words::of(content)),
    }
}
