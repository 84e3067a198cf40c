//! The program `cases`: reads files of worked examples, tells each that comes out otherwise than is wanted, and how
//! many there are of each file. Its status is 0 where there are some in each file and none differs, and else 1.
#![tactic(auto)]

mod bars;
mod book;
mod conditions;
mod documents;
mod faults;
mod hex_words;
mod network;
mod report;
mod rules;
mod runs;
mod sends;
mod spelled;
mod spelled_items;
mod spelled_txs;
mod texts;

use crate::book::{Kind, TITLE, Titled, kind_of};
use crate::hex_words::NamedBytes;
use crate::report::Report;
use crate::runs::Way;
use std::alloc::AllocError;
use std::process::ExitCode;
use std::rt::Files;
use std::{env, fs, io};

/// What comes of a case of this kind, where these bytes have names.
fn judge_case<'a, R: Files + AllocGlobal>(
    rt: &R,
    kind: Kind,
    case: Titled<'a>,
    named: &mut NamedBytes<'a>,
    report: &mut Report<'_>,
) -> Result<(), AllocError> {
    match kind {
        Kind::Runs => runs::judge_run(rt, case, report),
        Kind::Rules => runs::judge(rt, case, Way::Ledger, report),
        Kind::Sends => runs::judge(rt, case, Way::Peers, report),
        Kind::Faults => faults::judge(rt, case, Way::Node, report),
        Kind::SendFaults => faults::judge(rt, case, Way::Peers, report),
        Kind::Genesis => documents::judge(rt.alloc(), case, report),
        Kind::Texts => texts::judge(rt.alloc(), case, named, report),
    }
}

/// What comes of the cases of a text of this kind, where these bytes have names.
fn judge_all<'a, R: Files + AllocGlobal>(
    rt: &R,
    kind: Kind,
    text: &'a str,
    named: &mut NamedBytes<'a>,
    report: &mut Report<'_>,
) -> Result<(), AllocError> {
    texts::take_names(rt.alloc(), text, named, report)?;
    for case in text.split(TITLE).skip(1) {
        judge_case(rt, kind, Titled::of(case), named, report)?;
    }
    Ok(())
}

/// What comes of the cases of a text of this kind.
fn judge<R: Files + AllocGlobal>(
    rt: &R,
    kind: Kind,
    text: &str,
    report: &mut Report<'_>,
) -> Result<(), AllocError> {
    let mut named = NamedBytes::new(rt.alloc());
    judge_all(rt, kind, text, &mut named, report)
}

/// What comes of the cases of a file, or why there are none.
fn judge_file<R: Files + AllocGlobal>(rt: &R, report: &mut Report<'_>) -> Result<(), AllocError> {
    let Ok(text) = fs::read_to_string(rt, report.file()) else {
        return report.fail("cannot be read");
    };
    match kind_of(&text) {
        Some(kind) => judge(rt, kind, &text, report),
        None => report.fail("says no kind of cases"),
    }
}

/// Tells what comes of the cases of the report's file, and whether all is as is wanted.
fn tell<R: Files + Print + AllocGlobal>(rt: &R, report: &mut Report<'_>) -> io::Result<bool> {
    judge_file(rt, report)?;
    report.conclude()?;
    print!(rt; "{}", report.told())?;
    Ok(report.is_well())
}

/// The same of each of these files, which are some.
fn tell_all<R: Files + Print + AllocGlobal>(rt: &R, files: &[String]) -> io::Result<bool> {
    let mut well = !files.is_empty();
    for file in files {
        let mut report = Report::new(rt.alloc(), file.as_str());
        well = tell(rt, &mut report)? && well;
    }
    Ok(well)
}

fn main(rt: HostRuntime) -> io::Result<ExitCode> {
    let words: Vec<String> = env::args(&rt)?.collect(rt.alloc())?;
    let well = tell_all(&rt, words.get(1..).unwrap_or(&[]))?;
    Ok(ExitCode::from(if well { 0 } else { 1 }))
}
