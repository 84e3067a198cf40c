//! The program `sweep`: makes calls of a core and of what stands around it, each once more where it was refused memory,
//! and prints what is answered. So it prints the same whichever one of its allocations is refused.
//!
//! `sweep ACT` does one act, `sweep` all of them. With a second word `refusals` it is told too which call was refused.
#![tactic(auto)]

mod calls;
mod histories;
mod locked;
mod locked_calls;
mod network;
mod notes;
mod openings;
mod scripts;
mod stage;
mod told;
mod verdicts;

use crate::told::Told;
use std::alloc::Global;
use std::sync::Wait;
use std::thread::Threads;
use std::{env, io};

/// What may be asked for.
const ACTS: [&str; 13] = [
    "late", "switch", "dead", "submit", "open", "next", "forward", "forge", "reopen", "pool",
    "genesis", "script", "locked",
];

/// The words that the program is given.
fn read_words(rt: &HostRuntime) -> io::Result<Vec<String>> {
    Ok(env::args(rt)?.collect(rt.alloc())?)
}

/// The same, tried once more where memory ran out.
fn words(rt: &HostRuntime) -> io::Result<Vec<String>> {
    match read_words(rt) {
        Ok(words) => Ok(words),
        Err(_) => read_words(rt),
    }
}

/// Does an act, and tells what comes of it.
fn tell<R: Threads + Wait + Sync>(rt: &R, alloc: Global, act: &str, told: &mut Told) {
    match act {
        "late" => histories::tell(alloc, histories::LATE, told),
        "switch" => histories::tell(alloc, histories::SWITCH, told),
        "dead" => histories::tell(alloc, histories::DEAD, told),
        "submit" => histories::tell(alloc, histories::SUBMIT, told),
        "open" => histories::tell(alloc, histories::OPEN, told),
        "next" => histories::tell(alloc, histories::NEXT, told),
        "forward" => histories::tell(alloc, histories::FORWARD, told),
        "forge" => histories::tell(alloc, histories::FORGE, told),
        "reopen" => openings::tell_reopened(alloc, told),
        "pool" => verdicts::tell(rt, alloc, told),
        "genesis" => openings::tell_genesis(alloc, told),
        "script" => scripts::tell(alloc, told),
        "locked" => locked::tell(rt, alloc, told),
        _ => told.put("no such act\n"),
    }
}

/// Nothing told, tried once more where memory ran out.
fn nothing_told(alloc: Global, tells_refusals: bool) -> Option<Told> {
    match Told::new(alloc, tells_refusals) {
        Some(told) => Some(told),
        None => Told::new(alloc, tells_refusals),
    }
}

/// Does an act, and prints what comes of it.
fn play<R: Threads + Wait + Print + Sync>(
    rt: &R,
    alloc: Global,
    act: &str,
    tells_refusals: bool,
) -> io::Result<()> {
    let Some(mut told) = nothing_told(alloc, tells_refusals) else {
        return println!(rt; "no memory");
    };
    told.put("== ");
    told.put(act);
    told.put("\n");
    tell(rt, alloc, act, &mut told);
    print!(rt; "{}", told.as_str())
}

/// Does what these words ask for: one act, or all where there is no word.
fn play_words<R: Threads + Wait + Print + Sync>(
    rt: &R,
    alloc: Global,
    words: &[String],
) -> io::Result<()> {
    let tells_refusals = match words.get(2) {
        Some(word) => word.as_str() == "refusals",
        None => false,
    };
    if let Some(act) = words.get(1) {
        return play(rt, alloc, act.as_str(), tells_refusals);
    }
    for act in &ACTS {
        play(rt, alloc, *act, tells_refusals)?;
    }
    Ok(())
}

fn main(rt: HostRuntime) -> io::Result<()> {
    let words = words(&rt)?;
    play_words(&rt, rt.alloc(), &words)
}
