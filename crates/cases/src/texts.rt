//! Hexadecimal texts, of which each is read and written again, or is refused.

use crate::book::{Titled, head_of, says_nothing};
use crate::conditions::Conditions;
use crate::hex_words::NamedBytes;
use crate::report::{Report, put_all, put_line};
use crate::spelled::{Spelled, Unread};
use crate::spelled_items::WrittenItem;
use block::CheckedBlock;
use std::alloc::{AllocError, Global};
use timelock::Script;
use tx::Tx;
use value::{Mint, Value};
use witness_pool::TestScheme;

/// What comes of a text that is one.
const READ: &str = "read and written again\n";

/// What is said of a text: its kind, whether it is none, its words, and what is known of it.
#[derive(Clone, Copy)]
struct Said<'a> {
    kind: &'a str,
    is_none: bool,
    words: &'a str,
    facts: &'a str,
}

impl<'a> Said<'a> {
    /// What a line says.
    fn of(line: &'a str) -> Said<'a> {
        let (text, facts) = line.split_once(" = ").unwrap_or((line, ""));
        let (is_none, text) = match text.strip_prefix("no ") {
            Some(text) => (true, text),
            None => (false, text),
        };
        let (kind, words) = text.split_once(' ').unwrap_or((text, ""));
        Said {
            kind,
            is_none,
            words,
            facts,
        }
    }

    /// The line that is wanted besides that it is read: the fault of what is none, whether a script holds, or the
    /// facts.
    fn wanted_line(self) -> &'a str {
        match self.kind {
            _ if self.is_none && self.facts.is_empty() => "Malformed",
            "holds" | "fails" if !self.is_none => self.kind,
            _ => self.facts,
        }
    }
}

/// How the text that something was read of differs from what is written of it, if it does. What is written is put into
/// the other bytes.
fn told_of_writing<T: Spelled>(
    alloc: Global,
    read: &T,
    bytes: &[u8],
    written: &mut Vec<u8>,
) -> Result<&'static str, AllocError> {
    read.put_text(written)?;
    if written.as_slice() != bytes {
        return Ok("written otherwise\n");
    }
    written.clear();
    read.put_text_of_copy(written)?;
    if written.as_slice() != bytes {
        return Ok("copied otherwise\n");
    }
    written.push(0xff)?;
    if T::left_behind(alloc, written) != Some(1) || T::read_whole(alloc, written).is_ok() {
        return Ok("read with the byte behind it\n");
    }
    Ok(READ)
}

/// Puts a line of facts behind a text, each with what is known of it.
fn put_facts<T: Spelled>(came: &mut String, read: &T, facts: &str) -> Result<(), AllocError> {
    if facts.is_empty() {
        return Ok(());
    }
    let mut is_first = true;
    let mut is_name = true;
    for word in facts.split_whitespace() {
        if is_name {
            let gap = if is_first { "" } else { " " };
            put_all(came, &[gap, word, " "])?;
            read.tell(word, came)?;
        }
        is_first = false;
        is_name = !is_name;
    }
    came.push('\n')
}

/// Puts what is known of something that was read of bytes behind a text.
fn put_read<T: Spelled>(
    alloc: Global,
    read: &T,
    bytes: &[u8],
    facts: &str,
    came: &mut String,
) -> Result<(), AllocError> {
    let mut written = Vec::new(alloc);
    let told = told_of_writing(alloc, read, bytes, &mut written)?;
    came.push_str(told)?;
    put_facts(came, read, facts)
}

/// Puts what comes of bytes that are to be such a text behind a text.
fn put_came<T: Spelled>(
    alloc: Global,
    bytes: &[u8],
    facts: &str,
    came: &mut String,
) -> Result<(), AllocError> {
    match T::read_whole(alloc, bytes) {
        Ok(read) => put_read(alloc, &read, bytes, facts, came),
        Err(Unread::OutOfMemory) => Err(AllocError),
        Err(fault) => write!(came, "{fault}\n"),
    }
}

/// Puts whether a script holds under these conditions behind a text.
fn put_judged(
    alloc: Global,
    named: &NamedBytes<'_>,
    script: &Script,
    facts: &str,
    came: &mut String,
) -> Result<(), AllocError> {
    let mut conditions = Conditions::new(alloc);
    let are_some = conditions.put_all(named, facts)?;
    let met = conditions.are_met(script);
    if !are_some {
        return put_line(came, "conditions that are none");
    }
    put_line(came, if met { "holds" } else { "fails" })
}

/// Puts what comes of a script that is judged under these conditions behind a text.
fn put_judging(
    alloc: Global,
    named: &NamedBytes<'_>,
    bytes: &[u8],
    facts: &str,
    came: &mut String,
) -> Result<(), AllocError> {
    put_came::<Script>(alloc, bytes, "", came)?;
    match Script::decode(alloc, bytes) {
        Ok(script) => put_judged(alloc, named, &script, facts, came),
        Err(_) => Ok(()),
    }
}

/// Puts what is wanted of a line behind a text.
fn put_wanted(wanted: &mut String, said: Said<'_>) -> Result<(), AllocError> {
    if !said.is_none {
        wanted.push_str(READ)?;
    }
    match said.wanted_line() {
        "" => Ok(()),
        line => put_line(wanted, line),
    }
}

/// Puts what comes of bytes of which this is said behind a text.
fn put_came_of(
    alloc: Global,
    named: &NamedBytes<'_>,
    said: Said<'_>,
    bytes: &[u8],
    came: &mut String,
) -> Result<(), AllocError> {
    let facts = if said.is_none { "" } else { said.facts };
    match said.kind {
        "item" => put_came::<WrittenItem>(alloc, bytes, facts, came),
        "value" => put_came::<Value>(alloc, bytes, facts, came),
        "mint" => put_came::<Mint>(alloc, bytes, facts, came),
        "script" => put_came::<Script>(alloc, bytes, facts, came),
        "transaction" => put_came::<Tx>(alloc, bytes, facts, came),
        "block" => put_came::<CheckedBlock<TestScheme>>(alloc, bytes, facts, came),
        "holds" | "fails" => put_judging(alloc, named, bytes, facts, came),
        _ => came.push_str("no such kind of text\n"),
    }
}

/// What comes of a line that says something of a text.
fn judge_line(
    alloc: Global,
    title: &str,
    named: &NamedBytes<'_>,
    line: &str,
    report: &mut Report<'_>,
) -> Result<(), AllocError> {
    let said = Said::of(line);
    put_wanted(&mut report.wanted, said)?;
    if named.put_words(&mut report.script, said.words)? {
        put_came_of(alloc, named, said, &report.script, &mut report.came)?;
    } else {
        report
            .came
            .push_str("a word that is no hexadecimal and no name")?;
    }
    report.compare(title, line)
}

/// What comes of a line of a case, or of one that gives a name.
fn take<'a>(
    alloc: Global,
    title: &str,
    named: &mut NamedBytes<'a>,
    line: &'a str,
    report: &mut Report<'_>,
) -> Result<(), AllocError> {
    if says_nothing(line) {
        return Ok(());
    }
    let Some(binding) = line.strip_prefix("let ") else {
        return judge_line(alloc, title, named, line, report);
    };
    let (name, words) = binding.split_once(' ').unwrap_or((binding, ""));
    if named.bind(name, words)? {
        return Ok(());
    }
    report
        .came
        .push_str("a name that is taken, or words without a meaning")?;
    report.compare(title, line)
}

/// Gives names to bytes as the lines before the first title say.
pub fn take_names<'a>(
    alloc: Global,
    text: &'a str,
    named: &mut NamedBytes<'a>,
    report: &mut Report<'_>,
) -> Result<(), AllocError> {
    for line in head_of(text).lines() {
        if line.starts_with("let ") {
            take(alloc, "the head", named, line, report)?;
        }
    }
    Ok(())
}

/// What comes of the lines of a case, where these bytes have names.
pub fn judge<'a>(
    alloc: Global,
    case: Titled<'a>,
    named: &mut NamedBytes<'a>,
    report: &mut Report<'_>,
) -> Result<(), AllocError> {
    for line in case.body.lines() {
        take(alloc, case.title, named, line, report)?;
    }
    Ok(())
}
