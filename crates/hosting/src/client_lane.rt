//! The thread of a client's lane.

use crate::floor::Floor;
use crate::lane_host::{Answering, LaneHost, ReplyWriter, Turn};
use crate::news::News;
use crate::plan::ClientLane;
use crate::streams::is_reopened;
use conversing::attend;
use serving::Clerk;
use shared::{Caller, Room, Shared};
use std::alloc::Global;
use std::fs::{File, OpenOptions};
use std::io;
use std::io::{BufRead, BufReader, Write};
use std::sync::Wait;
use std::sync::atomic::AtomicBool;
use witness_pool::SigScheme;

/// The files of a lane.
#[derive(Drop)]
struct Streams {
    input: BufReader<File>,
    output: File,
}

/// Opens the files of a lane, first the one that is read. Waits for who opens the other end of a named pipe.
fn open(system: &HostRuntime, alloc: Global, input: &str, output: &str) -> io::Result<Streams> {
    let read = File::open(system, input)?;
    let written = OpenOptions::new()
        .append(true)
        .create(true)
        .open(system, output)?;
    Ok(Streams {
        input: BufReader::new(alloc, read)?,
        output: written,
    })
}

/// A client that is answered no more.
#[derive(Drop)]
struct Left<B: Room> {
    /// Free for the next client.
    caller: Caller<B>,
    /// Whether it ended the lane by itself.
    has_ended: bool,
}

/// Answers the client of these streams until it ends the lane, or that can't be read or written, or memory runs out.
fn answer<S: SigScheme, B: Room, I: BufRead, O: Write + Drop, R: Wait>(
    rt: &R,
    alloc: Global,
    shared: &Shared<S, B>,
    news: &News,
    caller: Caller<B>,
    reader: &mut I,
    output: O,
) -> Left<B> {
    let turn = Turn {
        rt,
        news,
        is_awaited: AtomicBool::new(false),
    };
    let host = LaneHost { rt, news };
    let clerk = Clerk::new(alloc, rt, shared, caller, host);
    let mut desk = Answering {
        desk: clerk,
        turn: &turn,
    };
    let mut writer = ReplyWriter {
        writer: output,
        turn: &turn,
    };
    let end = attend(alloc, &mut desk, reader, &mut writer);
    turn.end();
    // Who comes next isn't to find the pipe of the one before.
    drop(writer);
    Left {
        caller: desk.into_desk().leave(),
        has_ended: end.is_ok(),
    }
}

/// Answers one client after the other on a lane of files, as long as it is opened again, also after one who broke off.
fn answer_all<S: SigScheme, B: Room, R: Wait>(
    rt: &R,
    floor: &Floor<S, B>,
    mut caller: Caller<B>,
    input: &str,
    output: &str,
) {
    // The stream of the client before is let go when the next one is there, so that nothing that the next one wrote
    // before is lost.
    let mut before = None;
    'clients: for _ in rt.forever() {
        let Ok(streams) = open(&floor.system, floor.alloc, input, output) else {
            break 'clients;
        };
        drop(before);
        let Streams {
            input: mut reader,
            output: writer,
        } = streams;
        let left = answer(
            rt,
            floor.alloc,
            &floor.shared,
            &floor.news,
            caller,
            &mut reader,
            writer,
        );
        caller = left.caller;
        // What a client who broke off had asked besides is gone with its stream.
        before = if left.has_ended { Some(reader) } else { None };
        let ends = floor.until_closed || floor.news.is_ending(rt);
        if ends || !is_reopened(&floor.system, input) {
            break 'clients;
        }
    }
}

/// Answers the client of the standard streams.
fn answer_standard<S: SigScheme, B: Room, R: Wait>(rt: &R, floor: &Floor<S, B>, caller: Caller<B>) {
    if let Ok(mut reader) = BufReader::new(floor.alloc, floor.system.stdin()) {
        let _left = answer(
            rt,
            floor.alloc,
            &floor.shared,
            &floor.news,
            caller,
            &mut reader,
            floor.system.stdout(),
        );
    }
}

/// What the thread of a client's lane does. A lane that can't be opened ends alone.
pub fn run_client<S: SigScheme, B: Room, R: Wait>(
    rt: &R,
    floor: &Floor<S, B>,
    caller: Caller<B>,
    lane: &ClientLane,
) {
    match lane {
        ClientLane::Paths { input, output } => answer_all(rt, floor, caller, input, output),
        ClientLane::Standard => answer_standard(rt, floor, caller),
    }
    floor.news.close_client(rt);
}
