//! Why a job is not done.

use crate::jobs::Source;
use chain_core::ReopenFault;
use flushing::SharedOnFault;
use genesis::GenesisFault;
use hints::{GenesisHint, ScriptHint};
use hosting::HostFault;
use immlog::{AppendFault, OpenLogFault};
use scenario::ScenarioFault;
use std::alloc::{AllocError, Global};
use std::io::{Result, Write};
use telling::{HexFault, TellFault};
use thiserror::Error as Fault;

/// Why a job is not done, in the words that are told of it.
#[derive(Debug, Drop, Fault)]
pub enum Failure<'a> {
    /// The file of this path can't be read.
    #[error("cannot read {0}")]
    CannotRead(&'a str),
    /// The text can't be read from there, or is too long.
    #[error("cannot read {0}")]
    Unread(Source<'a>),
    /// What was read from there is no hexadecimal text.
    #[error("{0}: {1}")]
    NoHex(Source<'a>, HexFault),
    /// The bytes from there aren't what was asked about.
    #[error("{0} is {1}")]
    NoText(Source<'a>, TellFault),
    /// What was read from there was left by no log.
    #[error("{0} is no log")]
    NoLog(Source<'a>),
    /// What the genesis file says is no genesis: the fault, with its number, and what it is about.
    #[error("genesis: {number} {fault}")]
    Genesis {
        number: u8,
        fault: GenesisFault,
        hint: Option<GenesisHint>,
    },
    /// At this place of the log stands an open gate without its record, or a closed one and what no log leaves.
    #[error("log: damaged at {0}")]
    Damaged(usize),
    /// The log's block of this number is none, or can't come after those before it.
    #[error("log: invalid block {0}")]
    InvalidBlock(u64),
    /// What a node counts can't be written to the file of this path, or something else stands there.
    #[error("cannot write figures to {0}, or something else stands there")]
    Metrics(&'a str),
    /// The disk of the log failed.
    #[error("log: disk fault")]
    DiskFault,
    /// The run of the script failed, or memory ran out.
    #[error(transparent)]
    Scenario(ScenarioFault),
    /// The same, with what the fault of a line is about.
    #[error("{fault}")]
    Line {
        fault: ScenarioFault,
        hint: ScriptHint,
    },
}

impl<'a> Failure<'a> {
    /// The same with what the fault of a line is about, where enough of the script was kept and there is memory for it.
    pub fn explained(self, alloc: Global, script: Option<&[u8]>) -> Failure<'a> {
        match (self, script) {
            (
                Failure::Scenario(
                    ScenarioFault::Line {
                        number,
                        fault: line,
                    },
                ),
                Some(script),
            ) => {
                let fault = ScenarioFault::Line {
                    number,
                    fault: line,
                };
                match ScriptHint::of_line(alloc, script, number, line) {
                    Ok(Some(hint)) => Failure::Line { fault, hint },
                    _ => Failure::Scenario(fault),
                }
            }
            (failure, _) => failure,
        }
    }

    /// Writes a line on what the fault is about, where that is known.
    pub fn tell_hint<W: Write>(&self, out: &mut W) -> Result<()> {
        match self {
            Failure::Genesis {
                hint: Some(hint),
                ..
            } => write!(out, "# {hint}\n"),
            Failure::Line { hint, .. } => write!(out, "# {hint}\n"),
            _ => Ok(()),
        }
    }
}

impl<'a> From<OpenLogFault> for Failure<'a> {
    fn from(fault: OpenLogFault) -> Failure<'a> {
        match fault {
            OpenLogFault::Damaged(place) => Failure::Damaged(place),
            OpenLogFault::DiskFault => Failure::DiskFault,
            OpenLogFault::OutOfMemory => Failure::Scenario(ScenarioFault::OutOfMemory),
        }
    }
}

impl<'a> From<ReopenFault> for Failure<'a> {
    fn from(fault: ReopenFault) -> Failure<'a> {
        match fault {
            ReopenFault::InvalidBlock(number) => Failure::InvalidBlock(number),
            ReopenFault::OutOfMemory => Failure::Scenario(ScenarioFault::OutOfMemory),
        }
    }
}

impl<'a> From<AppendFault> for Failure<'a> {
    fn from(fault: AppendFault) -> Failure<'a> {
        match fault {
            AppendFault::OutOfMemory => Failure::Scenario(ScenarioFault::OutOfMemory),
            AppendFault::Broken | AppendFault::DiskFault => Failure::DiskFault,
        }
    }
}

impl<'a> From<ScenarioFault> for Failure<'a> {
    fn from(fault: ScenarioFault) -> Failure<'a> {
        Failure::Scenario(fault)
    }
}

impl<'a> From<AllocError> for Failure<'a> {
    fn from(_: AllocError) -> Failure<'a> {
        Failure::Scenario(ScenarioFault::OutOfMemory)
    }
}

impl<'a> From<SharedOnFault> for Failure<'a> {
    fn from(fault: SharedOnFault) -> Failure<'a> {
        match fault {
            SharedOnFault::InvalidBlock(number) => Failure::InvalidBlock(number),
            // A command line has no more lanes than there may be callers.
            SharedOnFault::BadCallers | SharedOnFault::OutOfMemory => {
                Failure::Scenario(ScenarioFault::OutOfMemory)
            }
        }
    }
}

impl<'a> From<HostFault> for Failure<'a> {
    fn from(fault: HostFault) -> Failure<'a> {
        match fault {
            HostFault::OutOfMemory => Failure::Scenario(ScenarioFault::OutOfMemory),
            HostFault::LogFault => Failure::DiskFault,
        }
    }
}
