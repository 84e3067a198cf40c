//! What the program can do.

use genesis::Scheme;
use hosting::Workers;
use simulation::Clients;
use std::fmt;
use telling::{Form, Kind};

/// Where a text is read from.
#[derive(Clone, Copy, Debug)]
pub enum Source<'a> {
    /// The file of this path.
    File(&'a str),
    /// Standard input.
    Input,
}

impl<'a> fmt::Display for Source<'a> {
    fn fmt<W: fmt::Write>(&self, f: &mut fmt::Formatter<W>) -> fmt::Result {
        match self {
            Source::File(path) => f.write_str(*path),
            Source::Input => f.write_str("standard input"),
        }
    }
}

/// A text that is asked about.
#[derive(Clone, Copy, Debug)]
pub struct TextAt<'a> {
    pub source: Source<'a>,
    /// Whether its bytes themselves are read, and not their hexadecimal digits.
    pub is_binary: bool,
}

/// After what a transaction is judged: after the blocks of the log of this file, and then the run of the script of this
/// one, where they are named.
#[derive(Clone, Copy, Debug)]
pub struct Base<'a> {
    pub log: Option<&'a str>,
    pub script: Option<&'a str>,
}

/// What the program is to do.
#[derive(Debug, Drop)]
pub enum Job<'a> {
    /// Print the identifier of the text of this kind that stands there.
    Id {
        kind: Kind,
        text: TextAt<'a>,
    },
    /// Print in this form what the text of this kind is that stands there, with its signatures judged by this scheme.
    Show {
        kind: Kind,
        form: Form,
        scheme: Scheme,
        text: TextAt<'a>,
    },
    /// Print in this form the log that stands there.
    ShowLog {
        source: Source<'a>,
        form: Form,
    },
    /// Do this under the genesis of this file.
    Under {
        genesis: &'a str,
        task: Task<'a>,
    },
}

/// What a node that stays is given.
#[derive(Debug, Drop)]
pub struct Serving<'a> {
    /// The file of its log, if it has one.
    pub log: Option<&'a str>,
    /// The lanes of its clients, each as the paths of its two streams with a colon between.
    pub lanes: Vec<&'a str>,
    /// Where what each peer sends is read.
    pub peers: Vec<&'a str>,
    /// Whether peers send bytes behind their length, and not lines of digits.
    pub is_binary: bool,
    /// Whether the standard streams are a client's lane too.
    pub stdio: bool,
    /// Whether it ends when nobody is left who could send a block or ask for something.
    pub until_closed: bool,
    /// How many threads check the signatures of a block.
    pub workers: Workers,
    /// The file in which what the node counts is written down, if it is to be.
    pub metrics: Option<&'a str>,
}

/// What is done under a genesis.
#[derive(Debug, Drop)]
pub enum Task<'a> {
    /// Run the script of this file, on the log of a file if one is named. If it is to be explained, more is told of
    /// what is refused or not selected, and a second line of a fault of the script or of the genesis.
    Run {
        script: &'a str,
        log: Option<&'a str>,
        explain: bool,
    },
    /// Have the peers of this file's script send blocks, each in a thread of its own, and this many clients follow the
    /// chain; and if so asked, discard blocks that no way leads to where others have no place.
    Sim {
        script: &'a str,
        clients: Clients,
        discard: bool,
    },
    /// Open the log of this file, and tell how many blocks it has.
    Replay {
        log: &'a str,
    },
    /// Stay, and answer peers and clients.
    Serve(Serving<'a>),
    /// Print in this form what the genesis is.
    ShowGenesis {
        form: Form,
    },
    /// Tell whether the transaction that stands there is valid, after this, and in this slot or that after the tip's.
    Check {
        base: Base<'a>,
        slot: Option<u64>,
        text: TextAt<'a>,
    },
}

impl<'a> Task<'a> {
    /// Whether more is to be told of a fault.
    pub(crate) fn explains(&self) -> bool {
        match self {
            Task::Run { explain, .. } => *explain,
            _ => false,
        }
    }
}
