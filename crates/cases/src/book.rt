//! A file of cases: what kind they are of, and the cases by their titles.

/// What kind of cases a file has.
#[derive(Clone, Copy)]
pub enum Kind {
    /// Scripts, and what they print.
    Runs,
    /// Scripts whose blocks are judged by the ledger alone.
    Rules,
    /// Lines that are refused.
    Faults,
    /// Scripts in which peers send bytes, and what they send.
    Sends,
    /// Lines that are refused in such scripts.
    SendFaults,
    /// Documents that are a genesis or none.
    Genesis,
    /// Hexadecimal texts.
    Texts,
}

/// What stands before each title.
pub const TITLE: &str = "\n== ";

/// Whether a line says nothing: it is empty, or a comment.
pub fn says_nothing(line: &str) -> bool {
    line.is_empty() || line.starts_with('#')
}

/// The kind of this name.
fn kind_named(name: &str) -> Option<Kind> {
    match name {
        "runs" => Some(Kind::Runs),
        "rules" => Some(Kind::Rules),
        "faults" => Some(Kind::Faults),
        "sends" => Some(Kind::Sends),
        "send-faults" => Some(Kind::SendFaults),
        "genesis" => Some(Kind::Genesis),
        "texts" => Some(Kind::Texts),
        _ => None,
    }
}

/// The kind that the first line of a file says that says anything.
pub fn kind_of(text: &str) -> Option<Kind> {
    for line in text.lines() {
        if !says_nothing(line) {
            return kind_named(line);
        }
    }
    None
}

/// What stands in a file before the first title.
pub fn head_of(text: &str) -> &str {
    match text.split_once(TITLE) {
        Some((head, _)) => head,
        None => text,
    }
}

/// A case, or several that have their title in common.
#[derive(Clone, Copy)]
pub struct Titled<'a> {
    pub title: &'a str,
    pub body: &'a str,
}

impl<'a> Titled<'a> {
    /// The case whose title stands in the first line of a text.
    pub fn of(text: &'a str) -> Titled<'a> {
        let (title, body) = text.split_once('\n').unwrap_or((text, ""));
        Titled { title, body }
    }
}

/// The network that a case runs on which names none.
pub const USUAL: &str = "small";

/// A script with what it is to print, and the name of the network that it runs on.
#[derive(Clone, Copy)]
pub struct Scripted<'a> {
    pub network: &'a str,
    pub lines: &'a str,
}

impl<'a> Scripted<'a> {
    /// The script of a case.
    pub fn of(body: &'a str) -> Scripted<'a> {
        let Some(named) = body.strip_prefix("genesis ") else {
            return Scripted {
                network: USUAL,
                lines: body,
            };
        };
        let (network, lines) = named.split_once('\n').unwrap_or((named, ""));
        Scripted { network, lines }
    }
}
