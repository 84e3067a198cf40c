//! Scripts that are run, and what they print.

use crate::book::{Scripted, Titled};
use crate::network::document_named;
use crate::report::Report;
use crate::{rules, sends};
use genesis::{GenesisDocument, Scheme};
use scenario::{Options, ScenarioFault, run};
use std::alloc::{AllocError, Global};
use std::rt::Files;
use std::str;
use witness_pool::{Ed25519, SigScheme, TestScheme};

/// What a script is run by.
#[derive(Clone, Copy)]
pub enum Way {
    /// The whole node.
    Node,
    /// The same, and why something is refused or not selected is told.
    Explained,
    /// The ledger alone.
    Ledger,
    /// Nothing: it says what peers send.
    Peers,
}

/// What comes where the network of a case isn't there.
const NO_NETWORK: &str = "no such genesis\n";

/// The line at the head of a run in which more is told.
const EXPLAINED: &str = "explained\n";

/// Puts what was printed behind a text, and last the fault that ended the run.
fn put_end(
    came: &mut String,
    printed: &[u8],
    ended: Result<(), ScenarioFault>,
) -> Result<(), AllocError> {
    came.push_str(str::from_utf8(printed).unwrap_or("no text\n"))?;
    match ended {
        Ok(()) => Ok(()),
        Err(fault) => write!(came, "! {fault}\n"),
    }
}

/// Puts the lines that a script prints behind a text, and last the fault that ends it.
fn put_run<S: SigScheme>(
    alloc: Global,
    document: GenesisDocument,
    explain: bool,
    script: &[u8],
    came: &mut String,
) -> Result<(), AllocError> {
    let GenesisDocument { genesis, scheme } = document;
    let mut reader = script;
    let mut out = Vec::new(alloc);
    let options = Options { scheme, explain };
    let ended = run::<S, _, _>(alloc, genesis, options, &mut reader, &mut out);
    put_end(came, &out, ended)
}

/// Runs the report's script in this way on a network of this genesis, whose signatures are judged by S.
fn run_by<S: SigScheme>(
    alloc: Global,
    document: GenesisDocument,
    way: Way,
    report: &mut Report<'_>,
) -> Result<(), AllocError> {
    match way {
        Way::Node => put_run::<S>(alloc, document, false, &report.script, &mut report.came),
        Way::Explained => put_run::<S>(alloc, document, true, &report.script, &mut report.came),
        Way::Ledger => rules::put_run::<S>(alloc, &document, &report.script, &mut report.came),
        Way::Peers => sends::put_run(alloc, &document, &report.script, &mut report.came),
    }
}

/// Runs the report's script in this way on the network of this name, by the scheme that its file names.
pub fn run_script<R: Files + AllocGlobal>(
    rt: &R,
    network: &str,
    way: Way,
    report: &mut Report<'_>,
) -> Result<(), AllocError> {
    let Some(document) = document_named(rt, report.file(), network)? else {
        return report.came.push_str(NO_NETWORK);
    };
    match document.scheme {
        Scheme::Test => run_by::<TestScheme>(rt.alloc(), document, way, report),
        Scheme::Ed25519 => run_by::<Ed25519>(rt.alloc(), document, way, report),
    }
}

/// What comes of a script that is run in this way.
fn judge_script<R: Files + AllocGlobal>(
    rt: &R,
    title: &str,
    scripted: Scripted<'_>,
    way: Way,
    report: &mut Report<'_>,
) -> Result<(), AllocError> {
    report.take_script(scripted)?;
    run_script(rt, scripted.network, way, report)?;
    report.compare(title, "")
}

/// What comes of a case.
pub fn judge<R: Files + AllocGlobal>(
    rt: &R,
    case: Titled<'_>,
    way: Way,
    report: &mut Report<'_>,
) -> Result<(), AllocError> {
    judge_script(rt, case.title, Scripted::of(case.body), way, report)
}

/// What comes of a case that goes through the whole node.
pub fn judge_run<R: Files + AllocGlobal>(
    rt: &R,
    case: Titled<'_>,
    report: &mut Report<'_>,
) -> Result<(), AllocError> {
    let Scripted { network, lines } = Scripted::of(case.body);
    match lines.strip_prefix(EXPLAINED) {
        Some(lines) => {
            let scripted = Scripted { network, lines };
            judge_script(rt, case.title, scripted, Way::Explained, report)
        }
        None => judge(rt, case, Way::Node, report),
    }
}
