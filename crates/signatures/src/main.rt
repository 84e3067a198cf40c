//! The program `signatures`: reads files of vectors for Ed25519, and tells of each how many of each kind it has and how
//! many come out otherwise than they say. Its status is 0 where each file has some and none differs, and else 1.
#![tactic(auto)]

mod line;
mod random;
mod tally;
mod vector;

use crate::tally::Tally;
use std::process::ExitCode;
use std::rt::Files;
use std::{env, fs, io};

/// What comes of the lines of a file, of which there are none where it can't be read.
fn judge_file<R: Files + AllocGlobal>(rt: &R, file: &str) -> Tally {
    let mut tally = Tally::new();
    if let Ok(text) = fs::read_to_string(rt, file) {
        for line in text.lines() {
            line::judge(rt.alloc(), line, &mut tally);
        }
    }
    tally
}

/// Tells what comes of each of these files, and whether there are some and all is as they say.
fn tell_all<R: Files + Print + AllocGlobal>(rt: &R, files: &[String]) -> io::Result<bool> {
    let mut well = !files.is_empty();
    for file in files {
        let tally = judge_file(rt, file.as_str());
        println!(rt; "{file}: {tally}")?;
        well = tally.is_well() && well;
    }
    Ok(well)
}

fn main(rt: HostRuntime) -> io::Result<ExitCode> {
    let words: Vec<String> = env::args(&rt)?.collect(rt.alloc())?;
    let well = tell_all(&rt, words.get(1..).unwrap_or(&[]))?;
    Ok(ExitCode::from(if well { 0 } else { 1 }))
}
