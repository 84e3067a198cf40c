//! Scripts whose bytes a file of cases can't say.

use super::fixture::{MEMORY, SMALL_NETWORK};
use genesis::{Genesis, Scheme};
use scenario::{LineFault, Options, ScenarioFault, run};
use std::alloc::Global;
use std::io::{BufRead, Write};
use std::process::Abort;
use witness_pool::TestScheme;

/// What the script of a reader ends with on the small network. It promises nothing, which keeps the proofs of the tests
/// short.
pub fn run_script<R: BufRead, W: Write>(
    alloc: Global,
    reader: &mut R,
    writer: &mut W,
) -> Result<(), ScenarioFault> {
    // The text is a genesis, so there is one where there is memory for it.
    let Ok(genesis) = Genesis::from_toml(alloc, SMALL_NETWORK) else {
        return Err(ScenarioFault::OutOfMemory);
    };
    run::<TestScheme, _, _>(alloc, genesis, Options::plain(Scheme::Test), reader, writer)
}

/// A run ended as is wanted, and printed what is wanted before.
pub fn is_end(
    rt: &impl Abort,
    found: Result<(), ScenarioFault>,
    out: &[u8],
    want: Result<(), ScenarioFault>,
    printed: &[u8],
) {
    assert!(rt; found == want);
    assert!(rt; out == printed);
}

/// The script ends so, and prints so before.
pub fn ends(
    rt: &(impl Abort + AllocGlobal),
    script: &[u8],
    want: Result<(), ScenarioFault>,
    printed: &[u8],
) {
    let mut reader = script;
    let mut out = Vec::new(rt.alloc());
    let result = run_script(rt.alloc(), &mut reader, &mut out);
    is_end(rt, result, &out, want, printed);
}

/// Line 1 is none.
const BAD_LINE_1: ScenarioFault = ScenarioFault::Line {
    number: 1,
    fault: LineFault::BadLine,
};

/// Line 2 is none.
const BAD_LINE_2: ScenarioFault = ScenarioFault::Line {
    number: 2,
    fault: LineFault::BadLine,
};

/// Line 7 is none.
const BAD_LINE_7: ScenarioFault = ScenarioFault::Line {
    number: 7,
    fault: LineFault::BadLine,
};

/// Scripts without a line feed behind their last line, what each ends with, and what it prints.
const UNENDED: &[(&str, Result<(), ScenarioFault>, &str)] = &[
    (
        "\n# a comment, and words  in it \n\ntip",
        Ok(()),
        "tip: 0 genesis\n",
    ),
    ("tx U", Err(BAD_LINE_1), ""),
    (
        "tx U\nend\ntx V\nfee 1\nend\ntip\ntx W\nin genesis 0",
        Err(BAD_LINE_7),
        "tip: 0 genesis\n",
    ),
];

#[test]
fn last_lines_without_a_line_feed(rt: HostRuntime) {
    for (script, want, printed) in UNENDED {
        ends(&rt, script.as_bytes(), *want, printed.as_bytes());
    }
}

/// How many bytes there are in a comment before a question, what the script ends with, and what it prints.
const LARGEST: &[(usize, Result<(), ScenarioFault>, &str)] = &[
    (4_194_299, Ok(()), "tip: 0 genesis\n"),
    (4_194_300, Err(BAD_LINE_2), ""),
    (4_194_301, Err(BAD_LINE_2), ""),
];

// The last line of 4,194,304 bytes is run, and that of the next byte is not.
#[test]
fn the_largest_script(rt: HostRuntime) {
    for (fill, want, printed) in LARGEST {
        let mut script = vec![in rt.alloc(); b'#'; *fill].expect(&rt, MEMORY);
        script.extend_from_slice(b"\ntip\n").expect(&rt, MEMORY);
        ends(&rt, &script, *want, printed.as_bytes());
    }
}
