//! A script that is run. Where memory runs out beside its events, the run ends, and what the lines before printed
//! stands. Where it runs out in an event, that is printed, and the run goes on as if that line weren't there.

use crate::network::{genesis, shown};
use crate::told::Told;
use genesis::Scheme;
use scenario::{Options, ScenarioFault};
use std::alloc::Global;
use witness_pool::TestScheme;

/// The lines of the script, each with what its line of output begins with, and what is answered there; neither where it
/// prints nothing.
const LINES: [(&str, &str, &str); 14] = [
    (
        "key K 0101010101010101010101010101010101010101010101010101010101010101\n",
        "",
        "",
    ),
    ("tx T\n", "", ""),
    ("in genesis 0\n", "", ""),
    ("out key K 910\n", "", ""),
    ("fee 290\n", "", ""),
    ("sign K\n", "", ""),
    ("end\n", "", ""),
    ("block A genesis 1 T\n", "", ""),
    ("submit T\n", "submit T: ", "added\n"),
    ("open F\n", "open F: ", "ok\n"),
    ("arrive A\n", "arrive A: ", "kept back 0 added 1\n"),
    ("next F\n", "next F: ", "add A\n"),
    ("tip\n", "tip: ", "1 A\n"),
    ("utxo\n", "utxo: ", "pairs 2 coin 1910 fees 290\n"),
];

/// What is printed where memory runs out in an event.
const WANT: &str = "out of memory\n";

/// How many bytes are printed at most.
const ROOM: usize = 4096;

/// What a run printed, and how it ended.
#[derive(Drop)]
struct Run {
    printed: Vec<u8>,
    ended: Result<(), ScenarioFault>,
}

/// The script, except for the line of this index if there is one.
fn script_without(alloc: Global, left_out: Option<usize>) -> Option<String> {
    let mut script = String::new(alloc);
    for (index, (line, _, _)) in LINES.iter().enumerate() {
        if left_out != Some(index) {
            script.push_str(*line).ok()?;
        }
    }
    Some(script)
}

/// Room for what a run prints, so that no memory is asked for while it is written.
fn room(alloc: Global) -> Option<Vec<u8>> {
    Vec::with_capacity(alloc, ROOM).ok()
}

/// Runs the script without this line, where there is memory to begin.
fn try_without(alloc: Global, left_out: Option<usize>) -> Option<Run> {
    let genesis = genesis(alloc)?;
    let script = script_without(alloc, left_out)?;
    let mut printed = room(alloc)?;
    let mut reader = script.as_bytes();
    let ended = scenario::run::<TestScheme, _, _>(
        alloc,
        genesis,
        Options::plain(Scheme::Test),
        &mut reader,
        &mut printed,
    );
    Some(Run { printed, ended })
}

/// Runs the script without this line, begun once more where memory ran out.
fn run_without(alloc: Global, left_out: Option<usize>) -> Option<Run> {
    match try_without(alloc, left_out) {
        Some(run) => Some(run),
        None => try_without(alloc, left_out),
    }
}

/// What a text has behind what the first `lines` lines print, if it begins with that.
fn behind(text: &[u8], lines: usize) -> Option<&[u8]> {
    let mut left = text;
    for (_, label, answer) in LINES.iter().take(lines) {
        left = left.strip_prefix(label.as_bytes())?;
        left = left.strip_prefix(answer.as_bytes())?;
    }
    Some(left)
}

/// Whether the run printed just what some of the first lines print.
fn is_cut(run: &Run) -> bool {
    let mut found = false;
    for lines in 0..LINES.len() {
        if let Some(left) = behind(&run.printed, lines) {
            found |= left.is_empty();
        }
    }
    found
}

/// Whether the run printed what all lines print.
fn is_whole(run: &Run) -> bool {
    match behind(&run.printed, LINES.len()) {
        Some(left) => left.is_empty() && run.ended.is_ok(),
        None => false,
    }
}

/// What the run printed behind the line of this index, if memory ran out in that, and not before.
fn behind_want(run: &Run, index: usize) -> Option<&[u8]> {
    let (_, label, _) = LINES.get(index)?;
    let left = behind(&run.printed, index)?;
    left.strip_prefix(label.as_bytes())?
        .strip_prefix(WANT.as_bytes())
}

/// Whether two runs end alike, in whichever line.
fn end_alike(one: &Run, other: &Run) -> bool {
    match (&one.ended, &other.ended) {
        (Ok(()), Ok(())) => true,
        (
            Err(ScenarioFault::Line { fault, .. }),
            Err(
                ScenarioFault::Line {
                    fault: other_fault,
                    ..
                },
            ),
        ) => fault == other_fault,
        _ => false,
    }
}

/// Whether the run went on behind the line of this index as a run does without that line.
fn goes_on_as_without(alloc: Global, run: &Run, index: usize) -> bool {
    let Some(left) = behind_want(run, index) else {
        return false;
    };
    let Some(other) = run_without(alloc, Some(index)) else {
        return false;
    };
    behind(&other.printed, index) == Some(left) && end_alike(run, &other)
}

/// Whether a run that wasn't whole is one that was refused memory once.
fn may_end_so(alloc: Global, run: &Run) -> bool {
    if run.ended == Err(ScenarioFault::OutOfMemory) {
        return is_cut(run);
    }
    let mut found = false;
    for index in 0..LINES.len() {
        found = found || goes_on_as_without(alloc, run, index);
    }
    found
}

/// Tells a run, once more where it was refused memory.
fn tell_run(alloc: Global, run: Run, told: &mut Told) {
    if is_whole(&run) {
        return told.put(shown(&run.printed));
    }
    told.refused();
    if !may_end_so(alloc, &run) {
        told.put("changed, printed\n");
        told.put(shown(&run.printed));
    }
    match run_without(alloc, None) {
        Some(again) => told.put(shown(&again.printed)),
        None => told.put("no run\n"),
    }
}

/// Runs the script.
pub fn tell(alloc: Global, told: &mut Told) {
    match run_without(alloc, None) {
        Some(run) => tell_run(alloc, run, told),
        None => told.put("no run\n"),
    }
}
