//! Scripts with followers, as many as there can be.

use super::fixture::MEMORY;
use super::script_tests::ends;
use scenario::{LineFault, ScenarioFault};
use std::process::Abort;

/// The lines of 1,024 openings, each with this end, and then others.
fn openings(rt: &(impl Abort + AllocGlobal), end: &str, others: &str) -> String {
    let mut text = String::new(rt.alloc());
    for number in 0..1024u64 {
        write!(text, "open F{number}{end}\n").expect(rt, MEMORY);
    }
    text.push_str(others).expect(rt, MEMORY);
    text
}

/// What comes behind them.
const ONE_MORE: &str = "open G\nopen G\nnext F1023\nblock G genesis 1\narrive G\nnext F0\nnext G\n";

/// What that prints.
const ONE_MORE_PRINTS: &str =
    "open G: refused TooManyFollowers\nopen G: refused TooManyFollowers\nnext F1023: none\n\
    arrive G: kept back 0 added 1\nnext F0: add G\n";

// There is room for 1,024 followers. One more is refused, and its name stays free.
#[test]
fn one_follower_too_many(rt: HostRuntime) {
    let script = openings(&rt, "", ONE_MORE);
    let printed = openings(&rt, ": ok", ONE_MORE_PRINTS);
    let want = Err(ScenarioFault::Line {
        number: 1031,
        fault: LineFault::UnknownName,
    });
    ends(&rt, script.as_bytes(), want, printed.as_bytes());
}
