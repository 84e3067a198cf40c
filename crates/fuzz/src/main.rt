//! The program `fuzz`: changes good texts at random, and looks whether what is answered to them agrees: what is read
//! and written again is the same bytes, three cores that get the same blocks in other ways have the same chain, three
//! that get random trees of good and bad blocks select a longest chain of good ones, and a comment before a genesis
//! file or a script changes nothing. An index of random outputs tells who holds an asset as a walk finds it.
//!
//! `fuzz SEED ROUNDS` does ROUNDS rounds of each kind, and a hundredth as many trees and sets of outputs, the same ones
//! for the same seed.
#![tactic(auto)]

mod arrivals;
mod changing;
mod documents;
mod histories;
mod holders;
mod network;
mod random;
mod scripts;
mod tally;
mod texts;
mod trees;
mod watched;

use crate::arrivals::Answers;
use crate::random::Random;
use crate::tally::Tally;
use crate::texts::Kind;
use std::alloc::Global;
use std::{env, io};

/// The texts that are changed.
#[derive(Drop)]
struct Good {
    values: Vec<Vec<u8>>,
    scripts: Vec<Vec<u8>>,
    payments: Vec<Vec<u8>>,
    blocks: Vec<Vec<u8>>,
    documents: Vec<Vec<u8>>,
}

/// These texts.
fn good_texts(alloc: Global) -> Option<Good> {
    let payments = network::payments(alloc)?;
    let blocks = network::blocks(alloc)?;
    let documents = [
        network::DOCUMENT.as_bytes(),
        network::OTHER_DOCUMENT.as_bytes(),
    ];
    Some(Good {
        values: texts::copies(alloc, &texts::VALUES),
        scripts: texts::copies(alloc, &texts::SCRIPTS),
        payments,
        blocks,
        documents: texts::copies(alloc, &documents),
    })
}

/// `rounds` rounds of texts of one kind, of which this is told.
fn run_texts(
    alloc: Global,
    name: &'static str,
    kind: Kind,
    texts: &[Vec<u8>],
    rounds: u64,
    random: &mut Random,
    out: &mut String,
) {
    let mut tally = Tally::new(name, "read");
    texts::run(alloc, kind, texts, rounds, random, &mut tally);
    tally.tell(out);
}

/// The same of genesis files.
fn run_documents(
    alloc: Global,
    texts: &[Vec<u8>],
    rounds: u64,
    random: &mut Random,
    out: &mut String,
) {
    let mut tally = Tally::new("genesis files", "read");
    documents::run(alloc, texts, rounds, random, &mut tally);
    tally.tell(out);
}

/// The same of scripts.
fn run_scripts(alloc: Global, rounds: u64, random: &mut Random, out: &mut String) {
    let mut tally = Tally::new("scripts", "run");
    scripts::run(alloc, rounds, random, &mut tally);
    tally.tell(out);
}

/// The same of blocks that arrive.
fn run_arrivals(
    alloc: Global,
    blocks: &[Vec<u8>],
    rounds: u64,
    random: &mut Random,
    out: &mut String,
) {
    let mut tally = Tally::new("arrivals", "kept");
    let mut answers = Answers::new();
    arrivals::run(alloc, blocks, rounds, random, &mut answers, &mut tally);
    tally.tell(out);
    answers.tell(out);
}

/// The same of trees of blocks, some of which have the first of the payments.
fn run_trees(
    alloc: Global,
    payments: &[Vec<u8>],
    trees: u64,
    random: &mut Random,
    out: &mut String,
) {
    if let Some(payment) = payments.first() {
        trees::run(alloc, payment, trees, random, out);
    }
}

/// `rounds` rounds of each kind, with the numbers of this seed.
fn run_all(alloc: Global, good: &Good, seed: u64, rounds: u64, out: &mut String) {
    let mut random = Random::new(seed);
    let r = &mut random;
    run_texts(alloc, "items", Kind::Item, &good.payments, rounds, r, out);
    run_texts(alloc, "values", Kind::Value, &good.values, rounds, r, out);
    run_texts(
        alloc,
        "native scripts",
        Kind::Script,
        &good.scripts,
        rounds,
        r,
        out,
    );
    run_texts(
        alloc,
        "transactions",
        Kind::Payment,
        &good.payments,
        rounds,
        r,
        out,
    );
    run_texts(alloc, "blocks", Kind::Block, &good.blocks, rounds, r, out);
    run_arrivals(alloc, &good.blocks, rounds, r, out);
    run_trees(alloc, &good.payments, rounds / 100, r, out);
    run_documents(alloc, &good.documents, rounds, r, out);
    run_scripts(alloc, rounds, r, out);
    holders::run(alloc, rounds / 100, r, out);
}

/// The number that a word is, and 0 where it is none.
fn number_of(words: &[String], index: usize) -> u64 {
    match words.get(index) {
        Some(word) => word.parse::<u64>().unwrap_or(0),
        None => 0,
    }
}

fn main(rt: HostRuntime) -> io::Result<()> {
    let words: Vec<String> = env::args(&rt)?.collect(rt.alloc())?;
    let mut out = String::new(rt.alloc());
    match good_texts(rt.alloc()) {
        Some(good) => run_all(
            rt.alloc(),
            &good,
            number_of(&words, 1),
            number_of(&words, 2),
            &mut out,
        ),
        None => out.push_str("no memory\n")?,
    }
    print!(rt; "{out}")
}
