//! Lines of scripts that are refused, each by itself.

use crate::bars::put_bytes;
use crate::book::{Titled, USUAL, says_nothing};
use crate::report::{Report, put_bytes_of_line, put_line};
use crate::runs::{Way, run_script};
use std::alloc::{AllocError, Global};
use std::rt::Files;

/// What stands before lines that are refused: the lines of a script, how many there are, what they print, and the fault
/// that the lines behind them have, once it is said; and what such a script is run by.
#[derive(Drop)]
struct Place<'a> {
    way: Way,
    before: Vec<u8>,
    lines: u64,
    printed: String,
    fault: Option<&'a str>,
}

impl<'a> Place<'a> {
    /// The beginning of a script.
    fn new(alloc: Global, way: Way) -> Place<'a> {
        Place {
            way,
            before: Vec::new(alloc),
            lines: 0,
            printed: String::new(alloc),
            fault: None,
        }
    }

    /// Goes back to the beginning of a script.
    fn clear(&mut self) {
        self.before.clear();
        self.lines = 0;
        self.printed.clear();
        self.fault = None;
    }

    /// Puts a line before those that are refused, or one that is printed there.
    fn put(&mut self, line: &str) -> Result<(), AllocError> {
        if let Some(printed) = line.strip_prefix("> ") {
            return put_line(&mut self.printed, printed);
        }
        self.lines = self.lines.saturating_add(1);
        put_bytes_of_line(&mut self.before, line.as_bytes())
    }

    /// Puts the script of a line that is refused, and one behind it that isn't run.
    fn put_script(&self, script: &mut Vec<u8>, line: &str) -> Result<(), AllocError> {
        script.extend_from_slice(&self.before)?;
        put_bytes(script, line)?;
        script.extend_from_slice(b"\ntip\n")
    }

    /// Puts what is wanted of it.
    fn put_wanted(&self, wanted: &mut String) -> Result<(), AllocError> {
        let number = self.lines.saturating_add(1);
        let fault = self.fault.unwrap_or("?");
        write!(wanted, "{}! line {number}: {fault}\n", self.printed)
    }
}

/// What comes of a line that is refused.
fn judge_line<R: Files + AllocGlobal>(
    rt: &R,
    title: &str,
    place: &Place<'_>,
    line: &str,
    report: &mut Report<'_>,
) -> Result<(), AllocError> {
    place.put_script(&mut report.script, line)?;
    place.put_wanted(&mut report.wanted)?;
    run_script(rt, USUAL, place.way, report)?;
    report.compare(title, line)
}

/// What comes of a line of a case.
fn take<'a, R: Files + AllocGlobal>(
    rt: &R,
    title: &str,
    place: &mut Place<'a>,
    line: &'a str,
    report: &mut Report<'_>,
) -> Result<(), AllocError> {
    if says_nothing(line) {
        return Ok(());
    }
    if line == "after" {
        place.clear();
        return Ok(());
    }
    if let Some(fault) = line.strip_prefix("each ") {
        place.fault = Some(fault);
        return Ok(());
    }
    if place.fault.is_some() {
        return judge_line(rt, title, place, line, report);
    }
    place.put(line)
}

/// What comes of the lines of a titled case, in scripts that are run in this way.
pub fn judge<R: Files + AllocGlobal>(
    rt: &R,
    case: Titled<'_>,
    way: Way,
    report: &mut Report<'_>,
) -> Result<(), AllocError> {
    let mut place = Place::new(rt.alloc(), way);
    judge_lines(rt, case, &mut place, report)
}

/// The same, where those lines stand that this place has.
fn judge_lines<'a, R: Files + AllocGlobal>(
    rt: &R,
    case: Titled<'a>,
    place: &mut Place<'a>,
    report: &mut Report<'_>,
) -> Result<(), AllocError> {
    for line in case.body.lines() {
        take(rt, case.title, place, line, report)?;
    }
    Ok(())
}
