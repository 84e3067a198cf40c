//! Scripts whose reader or writer fails.

use super::fixture::MEMORY;
use super::script_tests::{is_end, run_script};
use scenario::ScenarioFault;
use std::io;
use std::io::{BufReader, Read, Write};

/// A predecessor that comes last.
const SCRIPT: &[u8] = b"block A1 genesis 1
block B1 genesis 2
block B2 B1 3
arrive A1
arrive B2
arrive B1
tip
";

/// What it prints.
const PRINTED: &[u8] = b"arrive A1: kept back 0 added 1
arrive B2: kept back 0 added 0
arrive B1: kept back 1 added 2
tip: 2 B2
";

/// A reader whose second read fails.
#[derive(Drop)]
struct FailsLater {
    reads: u64,
}

impl Read for FailsLater {
    fn read(&mut self, buf: &mut [u8]) -> io::Result<usize> {
        if self.reads == 1 {
            return Err(io::Error::from(io::ErrorKind::Other));
        }
        self.reads = 1;
        let mut text = b"tip\nti".as_slice();
        text.read(buf)
    }
}

#[test]
fn a_reader_that_fails(rt: HostRuntime) {
    let mut reader = BufReader::new(rt.alloc(), FailsLater { reads: 0 }).expect(&rt, MEMORY);
    let mut out = Vec::new(rt.alloc());
    let result = run_script(rt.alloc(), &mut reader, &mut out);
    is_end(
        &rt,
        result,
        &out,
        Err(ScenarioFault::ReadFailed),
        b"tip: 0 genesis\n",
    );
}

/// A writer that takes no more than `room` bytes.
#[derive(Drop)]
struct Limited {
    room: usize,
    written: Vec<u8>,
}

impl Write for Limited {
    fn write(&mut self, buf: &[u8]) -> io::Result<usize> {
        if self.room == 0 {
            return Err(io::Error::from(io::ErrorKind::Other));
        }
        let taken = buf.len().min(self.room).min(3);
        self.written.extend_from_slice(&buf[..taken])?;
        self.room -= taken;
        Ok(taken)
    }

    fn flush(&mut self) -> io::Result<()> {
        Ok(())
    }
}

#[test]
fn a_writer_that_fails(rt: HostRuntime) {
    for room in 0..PRINTED.len() + 1 {
        let mut reader = SCRIPT;
        let mut writer = Limited {
            room,
            written: Vec::new(rt.alloc()),
        };
        let result = run_script(rt.alloc(), &mut reader, &mut writer);
        let want = if room < PRINTED.len() {
            Err(ScenarioFault::WriteFailed)
        } else {
            Ok(())
        };
        is_end(&rt, result, &writer.written, want, &PRINTED[..room]);
    }
}

/// A writer whose every other write is interrupted.
#[derive(Drop)]
struct Interrupted {
    turns: u64,
    written: Vec<u8>,
}

impl Write for Interrupted {
    fn write(&mut self, buf: &[u8]) -> io::Result<usize> {
        self.turns = self.turns.wrapping_add(1);
        if self.turns % 2 == 1 {
            return Err(io::Error::from(io::ErrorKind::Interrupted));
        }
        let taken = buf.len().min(3);
        self.written.extend_from_slice(&buf[..taken])?;
        Ok(taken)
    }

    fn flush(&mut self) -> io::Result<()> {
        Ok(())
    }
}

#[test]
fn a_writer_that_is_interrupted(rt: HostRuntime) {
    let mut reader = SCRIPT;
    let mut writer = Interrupted {
        turns: 0,
        written: Vec::new(rt.alloc()),
    };
    let result = run_script(rt.alloc(), &mut reader, &mut writer);
    is_end(&rt, result, &writer.written, Ok(()), PRINTED);
}
