//! Genesis files that are changed. A line that is a comment before one changes nothing.

use crate::changing::{change, put};
use crate::random::Random;
use crate::tally::Tally;
use genesis::{Genesis, GenesisFault};
use std::alloc::Global;

/// What a genesis says: its numbers, and what its outputs hold together.
type Said = [u64; 8];

/// What the genesis of a text says, or the fault of the text.
fn said(alloc: Global, text: &str) -> Result<Said, GenesisFault> {
    let genesis = Genesis::from_toml(alloc, text)?;
    Ok([
        genesis.k(),
        genesis.min_fee_a(),
        genesis.min_fee_b(),
        genesis.min_utxo(),
        genesis.max_tx_size(),
        genesis.max_body_size(),
        genesis.outputs().len() as u64,
        genesis.supply(),
    ])
}

/// Whether two answers are the same.
fn agree(one: &Result<Said, GenesisFault>, other: &Result<Said, GenesisFault>) -> bool {
    match (one, other) {
        (Ok(one), Ok(other)) => one == other,
        (Err(one), Err(other)) => one == other,
        _ => false,
    }
}

/// Counts what comes of a text, whose text behind a comment is the other.
fn count(alloc: Global, text: &[u8], behind: &[u8], tally: &mut Tally) {
    match (str::from_utf8(text), str::from_utf8(behind)) {
        (Ok(text), Ok(behind)) => {
            let first = said(alloc, text);
            let second = said(alloc, behind);
            tally.count(first.is_ok(), agree(&first, &second));
        }
        _ => tally.count(false, true),
    }
}

/// `rounds` rounds of changed texts.
pub fn run(alloc: Global, texts: &[Vec<u8>], rounds: u64, random: &mut Random, tally: &mut Tally) {
    let mut changed = Vec::new(alloc);
    let mut behind = Vec::new(alloc);
    for _ in 0..rounds {
        let text = random.pick(texts);
        let other = random.pick(texts);
        change(&mut changed, text, other, random);
        behind.clear();
        put(&mut behind, b"# changed\n");
        put(&mut behind, &changed);
        count(alloc, &changed, &behind, tally);
    }
}
