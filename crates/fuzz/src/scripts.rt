//! Scripts that are changed. A line that is a comment before one moves the number of its fault by one, and changes
//! nothing else.

use crate::changing::{change, put};
use crate::network::{ASKING, DEFINING, genesis};
use crate::random::Random;
use crate::tally::Tally;
use genesis::Scheme;
use scenario::{Options, ScenarioFault};
use std::alloc::Global;
use witness_pool::TestScheme;

/// What a run printed, and how it ended.
#[derive(Drop)]
struct Ran {
    printed: Vec<u8>,
    ended: Result<(), ScenarioFault>,
}

/// Runs a script on a new network.
fn run_of(alloc: Global, script: &[u8]) -> Option<Ran> {
    let genesis = genesis(alloc)?;
    let mut printed = Vec::new(alloc);
    let mut reader = script;
    let ended = scenario::run::<TestScheme, _, _>(
        alloc,
        genesis,
        Options::plain(Scheme::Test),
        &mut reader,
        &mut printed,
    );
    Some(Ran { printed, ended })
}

/// Whether the second run ended as the first, one line further on where it ended by a fault.
fn end_alike(first: &Ran, second: &Ran) -> bool {
    match (&first.ended, &second.ended) {
        (Ok(()), Ok(())) => true,
        (
            Err(ScenarioFault::Line { number, fault }),
            Err(
                ScenarioFault::Line {
                    number: other_number,
                    fault: other_fault,
                },
            ),
        ) => number.checked_add(1) == Some(*other_number) && fault == other_fault,
        _ => false,
    }
}

/// Counts what comes of a script, whose text behind a comment is the other.
fn count(alloc: Global, script: &[u8], behind: &[u8], tally: &mut Tally) {
    match (run_of(alloc, script), run_of(alloc, behind)) {
        (Some(first), Some(second)) => {
            let same = first.printed.as_slice() == second.printed.as_slice();
            tally.count(first.ended.is_ok(), same && end_alike(&first, &second));
        }
        _ => tally.count(false, false),
    }
}

/// `rounds` rounds of changed scripts, of what one asks behind what defines its names.
pub fn run(alloc: Global, rounds: u64, random: &mut Random, tally: &mut Tally) {
    let mut whole = Vec::new(alloc);
    put(&mut whole, DEFINING.as_bytes());
    put(&mut whole, ASKING.as_bytes());
    let mut changed = Vec::new(alloc);
    let mut behind = Vec::new(alloc);
    for _ in 0..rounds {
        change(&mut changed, &whole, &whole, random);
        behind.clear();
        put(&mut behind, b"# changed\n");
        put(&mut behind, &changed);
        count(alloc, &changed, &behind, tally);
    }
}
