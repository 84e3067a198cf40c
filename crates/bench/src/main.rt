//! The program `bench`: measures what no proof says, how long the calls of a crate take. Without an argument it runs
//! each measurement of blocks, pools and peers once, and prints their names alone.
#![tactic(auto)]

mod arrivals;
mod blocks;
mod calls;
mod cores;
mod following;
mod hostile;
mod indexing;
mod keys;
mod ledger_states;
mod load;
mod logs;
mod maps;
mod memory;
mod networks;
mod peers;
mod places;
mod pools;
mod reopening;
mod scripts;
mod signatures;
mod texts;
mod timing;
mod waiting;

use crate::timing::Telling;
use std::{env, io};

/// What is measured.
#[derive(Clone, Copy)]
enum Asked {
    Maps,
    Blocks,
    Ledger,
    Logs,
    Scripts,
    Arrivals,
    Hostile,
    Followers,
    Mempool,
    Memory,
    Reopening,
    Pools,
    Signatures,
    Peers,
    Load,
    Calls,
    Questions,
    Places,
    Indexing,
    /// Blocks are put onto a log until the program is killed.
    Appending,
    /// What is measured once, to see that it can be.
    Names,
}

/// What a word asks for, if it is one of these.
fn asked_by(word: &str) -> Option<Asked> {
    match word {
        "persistent_map" => Some(Asked::Maps),
        "blocks" => Some(Asked::Blocks),
        "ledger" => Some(Asked::Ledger),
        "log" => Some(Asked::Logs),
        "scripts" => Some(Asked::Scripts),
        "arrivals" => Some(Asked::Arrivals),
        "hostile" => Some(Asked::Hostile),
        "followers" => Some(Asked::Followers),
        "mempool" => Some(Asked::Mempool),
        "memory" => Some(Asked::Memory),
        "reopen" => Some(Asked::Reopening),
        "pools" => Some(Asked::Pools),
        "signatures" => Some(Asked::Signatures),
        "peers" => Some(Asked::Peers),
        "load" => Some(Asked::Load),
        "calls" => Some(Asked::Calls),
        "questions" => Some(Asked::Questions),
        "places" => Some(Asked::Places),
        "watching" => Some(Asked::Indexing),
        "append" => Some(Asked::Appending),
        _ => None,
    }
}

/// What the first of the words asks for that asks for something.
fn asked_by_any(words: &[String]) -> Asked {
    for word in words {
        if let Some(asked) = asked_by(word.as_str()) {
            return asked;
        }
    }
    Asked::Names
}

/// What the program is asked for.
fn read_asked(rt: &HostRuntime) -> io::Result<Asked> {
    let words: Vec<String> = env::args(rt)?.collect(rt.alloc())?;
    Ok(asked_by_any(&words))
}

fn main(rt: HostRuntime) -> io::Result<()> {
    match read_asked(&rt)? {
        Asked::Maps => maps::measure(&rt),
        Asked::Blocks => blocks::measure(&rt, Telling::Times),
        Asked::Ledger => ledger_states::measure(&rt),
        Asked::Logs => logs::measure(&rt),
        Asked::Scripts => scripts::measure(&rt),
        Asked::Arrivals => arrivals::measure(&rt),
        Asked::Hostile => hostile::measure(&rt),
        Asked::Followers => following::measure(&rt),
        Asked::Mempool => waiting::measure(&rt),
        Asked::Memory => memory::measure(&rt),
        Asked::Reopening => reopening::measure(&rt),
        Asked::Pools => pools::measure(&rt, rt.alloc(), Telling::Times),
        Asked::Signatures => signatures::measure(&rt),
        Asked::Peers => peers::measure(&rt, rt.alloc(), Telling::Times),
        Asked::Load => load::measure(&rt, rt.alloc()),
        Asked::Calls => calls::measure(&rt),
        Asked::Questions => peers::measure_questions(&rt, rt.alloc()),
        Asked::Places => places::measure(&rt),
        Asked::Indexing => indexing::measure(&rt),
        Asked::Appending => logs::append(&rt),
        Asked::Names => {
            blocks::measure(&rt, Telling::Names)?;
            pools::measure(&rt, rt.alloc(), Telling::Names)?;
            peers::measure(&rt, rt.alloc(), Telling::Names)?;
            println!(rt;
                "to measure: bench persistent_map, bench blocks, bench ledger, bench scripts, bench pools, \
bench signatures, bench peers, bench questions, bench arrivals, bench hostile, bench followers, bench mempool, \
bench reopen, bench log, bench load, bench calls, bench memory, bench watching"
            )
        }
    }
}
