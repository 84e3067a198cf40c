//! What is told of the cases of a file.

use crate::book::Scripted;
use std::alloc::{AllocError, Global};

// Each way out of a function drops all that it owns, which makes its proof longer. So the texts of the case that is
// being judged stand here, and the functions that write them borrow them.

/// How many cases a file has, how many of them differ from what is wanted, and how.
#[derive(Drop)]
pub struct Report<'a> {
    file: &'a str,
    cases: u64,
    differing: u64,
    failed: bool,
    told: String,
    /// What the case that is being judged is made of: a script, the bytes of a text, or the lines that are put into a
    /// document.
    pub script: Vec<u8>,
    /// What is wanted of it.
    pub wanted: String,
    /// What came of it.
    pub came: String,
}

/// Puts a line that differs into a text: what was wanted, and what came.
fn put_difference(
    told: &mut String,
    wanted: Option<&str>,
    came: Option<&str>,
) -> Result<(), AllocError> {
    match wanted {
        Some(line) => put_all(told, &["  wanted: ", line, "\n"])?,
        None => told.push_str("  wanted nothing more\n")?,
    }
    match came {
        Some(line) => put_all(told, &["  came:   ", line, "\n"]),
        None => told.push_str("  came nothing more\n"),
    }
}

/// Puts each line in which two texts differ into a text.
fn put_differences(told: &mut String, wanted: &str, came: &str) -> Result<(), AllocError> {
    let mut left = came.lines();
    for line in wanted.lines() {
        let other = left.next();
        if other != Some(line) {
            put_difference(told, Some(line), other)?;
        }
    }
    for line in left {
        put_difference(told, None, Some(line))?;
    }
    Ok(())
}

impl<'a> Report<'a> {
    /// Nothing is told of a file yet.
    pub fn new(alloc: Global, file: &'a str) -> Report<'a> {
        Report {
            file,
            cases: 0,
            differing: 0,
            failed: false,
            told: String::new(alloc),
            script: Vec::new(alloc),
            wanted: String::new(alloc),
            came: String::new(alloc),
        }
    }

    /// The file's path.
    pub fn file(&self) -> &'a str {
        self.file
    }

    /// The lines on what differs, and last how many cases there are.
    pub fn told(&self) -> &str {
        self.told.as_str()
    }

    /// Tells how many cases were judged, and how many of them differ.
    pub fn conclude(&mut self) -> Result<(), AllocError> {
        let (cases, differing) = (self.cases, self.differing);
        write!(
            self.told,
            "{}: {cases} cases, {differing} differ\n",
            self.file
        )
    }

    /// Whether the file has cases and none differs.
    pub fn is_well(&self) -> bool {
        self.cases > 0 && self.differing == 0 && !self.failed
    }

    /// Tells why the file has no cases.
    pub fn fail(&mut self, why: &str) -> Result<(), AllocError> {
        self.failed = true;
        put_all(&mut self.told, &[self.file, ": ", why, "\n"])
    }

    /// Takes in the lines of a case: each where it belongs.
    pub fn take_script(&mut self, scripted: Scripted<'_>) -> Result<(), AllocError> {
        for line in scripted.lines.lines() {
            if let Some(printed) = line.strip_prefix("> ") {
                put_line(&mut self.wanted, printed)?;
            } else if line.starts_with("! ") {
                put_line(&mut self.wanted, line)?;
            } else {
                put_bytes_of_line(&mut self.script, line.as_bytes())?;
            }
        }
        Ok(())
    }

    /// Counts the case of this title, and tells where the lines that came are not those that are wanted. A case that is
    /// told by a line of its own has that line behind the title, and else an empty one.
    pub fn compare(&mut self, title: &str, line: &str) -> Result<(), AllocError> {
        self.cases = self.cases.saturating_add(1);
        if self.wanted.as_str() != self.came.as_str() {
            self.differing = self.differing.saturating_add(1);
            let colon = if line.is_empty() { "" } else { ": " };
            put_all(&mut self.told, &[self.file, ", ", title, colon, line, "\n"])?;
            put_differences(&mut self.told, &self.wanted, &self.came)?;
        }
        self.script.clear();
        self.wanted.clear();
        self.came.clear();
        Ok(())
    }
}

/// Puts texts behind another, one after the other. It is one call, which keeps the proofs shorter than `write!` does.
pub fn put_all(out: &mut String, parts: &[&str]) -> Result<(), AllocError> {
    for part in parts {
        out.push_str(*part)?;
    }
    Ok(())
}

/// Puts a line behind others.
pub fn put_line(lines: &mut String, line: &str) -> Result<(), AllocError> {
    lines.push_str(line)?;
    lines.push('\n')
}

/// Puts the bytes of a line behind others.
pub fn put_bytes_of_line(lines: &mut Vec<u8>, line: &[u8]) -> Result<(), AllocError> {
    lines.extend_from_slice(line)?;
    lines.push(b'\n')?;
    Ok(())
}
