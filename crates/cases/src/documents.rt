//! Documents that are a genesis, or none.

use crate::bars::put_bytes;
use crate::book::{Titled, says_nothing};
use crate::report::{Report, put_line};
use genesis::{Genesis, GenesisFault};
use std::alloc::{AllocError, Global};
use std::str;

/// The lines of a document, and what is told of those that come of it, once it is said.
#[derive(Drop)]
struct Base<'a> {
    lines: Vec<&'a str>,
    told: Option<&'a str>,
}

/// The key that a line gives a value, if it does.
fn key_of(line: &str) -> Option<&str> {
    match line.split_once(" = ") {
        Some((key, _)) => Some(key),
        None => None,
    }
}

/// The first line of some that gives this line's key a value, if it has one.
fn same_key<'a>(line: &str, others: &'a str) -> Option<&'a str> {
    let key = key_of(line)?;
    for other in others.lines() {
        if key_of(other) == Some(key) {
            return Some(other);
        }
    }
    None
}

/// Whether one of the lines gives this line's key a value.
fn has_key(line: &str, others: &[&str]) -> bool {
    for other in others {
        if same_key(line, *other).is_some() {
            return true;
        }
    }
    false
}

/// Puts the document with these lines put in: each in the place of the line that gives the same key a value, or at the
/// end.
fn put_document(document: &mut String, base: &[&str], changes: &str) -> Result<(), AllocError> {
    for line in base {
        put_line(document, same_key(*line, changes).unwrap_or(*line))?;
    }
    for change in changes.lines() {
        if !has_key(change, base) {
            put_line(document, change)?;
        }
    }
    Ok(())
}

/// The fault of that document, None where it is a genesis.
fn fault_of(
    alloc: Global,
    base: &[&str],
    changes: &[u8],
) -> Result<Option<GenesisFault>, AllocError> {
    let mut document = String::new(alloc);
    put_document(&mut document, base, str::from_utf8(changes).unwrap_or("?"))?;
    Ok(Genesis::from_toml(alloc, document.as_str()).err())
}

/// What comes of the document with the line of a case put in.
fn judge_line(
    alloc: Global,
    title: &str,
    base: &Base<'_>,
    line: &str,
    report: &mut Report<'_>,
) -> Result<(), AllocError> {
    put_bytes(&mut report.script, line)?;
    report.wanted.push_str(base.told.unwrap_or("?"))?;
    match fault_of(alloc, &base.lines, &report.script)? {
        None => report.came.push_str("genesis")?,
        Some(fault) => write!(report.came, "{fault}")?,
    }
    report.compare(title, line)
}

/// What comes of a line of a case.
fn take<'a>(
    alloc: Global,
    title: &str,
    base: &mut Base<'a>,
    line: &'a str,
    report: &mut Report<'_>,
) -> Result<(), AllocError> {
    if says_nothing(line) {
        return Ok(());
    }
    if line == "after" {
        base.lines.clear();
        base.told = None;
        return Ok(());
    }
    if let Some(told) = line.strip_prefix("each ") {
        base.told = Some(told);
        return Ok(());
    }
    if base.told.is_some() {
        return judge_line(alloc, title, base, line, report);
    }
    base.lines.push(line)?;
    Ok(())
}

/// What comes of the lines of a titled case.
pub fn judge(alloc: Global, case: Titled<'_>, report: &mut Report<'_>) -> Result<(), AllocError> {
    let mut base = Base {
        lines: Vec::new(alloc),
        told: None,
    };
    judge_lines(alloc, case, &mut base, report)
}

/// The same, where those lines stand that this document has.
fn judge_lines<'a>(
    alloc: Global,
    case: Titled<'a>,
    base: &mut Base<'a>,
    report: &mut Report<'_>,
) -> Result<(), AllocError> {
    for line in case.body.lines() {
        take(alloc, case.title, base, line, report)?;
    }
    Ok(())
}
