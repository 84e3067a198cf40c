//! The node, as the one who answers a client's lane sees it.

ghost use Rattle.std.specs.Prelude.{ℕ, List};

use crate::news::News;
use conversing::Desk;
use serving::{Ending, FlushFault, Host};
use std::alloc::AllocError;
use std::io;
use std::io::Write;
use std::sync::Wait;
use std::sync::atomic::{AtomicBool, Ordering};

/// A client's lane: whether its client waits for a reply.
pub struct Turn<'a, R> {
    pub rt: &'a R,
    pub news: &'a News,
    pub is_awaited: AtomicBool,
}

impl<R> Drop for Turn<'_, R> {
    fn drop(self) {
        let Turn {
            rt: _,
            news: _,
            is_awaited: _,
        } = self;
    }
}

impl<R: Wait> Turn<'_, R> {
    /// Its client waits from now on.
    fn begin(&self) {
        if !self.is_awaited.swap(true, Ordering::SeqCst) {
            self.news.begin_answer(self.rt);
        }
    }

    /// It has its reply, or is gone.
    pub fn end(&self) {
        if self.is_awaited.swap(false, Ordering::SeqCst) {
            self.news.end_answer(self.rt);
        }
    }
}

/// The node, as the one who answers a client's lane sees it.
pub struct LaneHost<'a, R> {
    pub rt: &'a R,
    pub news: &'a News,
}

impl<R> Drop for LaneHost<'_, R> {
    fn drop(self) {
        let LaneHost { rt: _, news: _ } = self;
    }
}

impl<R: Wait> Host for LaneHost<'_, R> {
    // What the node's other threads do for a lane no contract tells.
    ghost flushes = { λ before durable after. Unit {0} };

    ghost fails = { λ before after. Unit {0} };

    ghost stops = { λ before after. Unit {0} };

    ghost ends = { λ host. Unit {0} };

    fn flush(&mut self) -> Result<u64, FlushFault> {
        match self.news.flush(self.rt) {
            Some(durable) => Ok(durable),
            None => Err(FlushFault {}),
        }
    }

    fn stop(&mut self) {
        self.news.end(self.rt);
    }

    fn wait_above(&self, height: u64) -> Result<(), Ending> {
        if self.news.wait_above(self.rt, height) {
            Ok(())
        } else {
            Err(Ending {})
        }
    }
}

/// Who answers a lane, and tells when a client began to wait for a reply.
#[derive(Drop)]
pub struct Answering<'a, D, R> {
    pub desk: D,
    pub turn: &'a Turn<'a, R>,
}

impl<D, R> Answering<'_, D, R> {
    /// Who answered it.
    pub fn into_desk(self) -> D {
        self.desk
    }
}

impl<D: Desk, R: Wait> Desk for Answering<'_, D, R> {
    ghost answers = { λ before line after reply. D.answers before.desk line after.desk reply };

    fn answer(&mut self, line: &[u8]) -> Result<Vec<u8>, AllocError> {
        self.turn.begin();
        let answered = self.desk.answer(line);
        if answered.is_err() {
            self.turn.news.tell_memory_refused(self.turn.rt);
        }
        answered
    }
}

/// Writes replies, and tells when a client has the one that it waited for.
pub struct ReplyWriter<'a, W, R> {
    pub writer: W,
    pub turn: &'a Turn<'a, R>,
}

impl<W: Drop, R> Drop for ReplyWriter<'_, W, R> {
    fn drop(self) {
        let ReplyWriter { writer: _, turn: _ } = self;
    }
}

impl<W: Write, R: Wait> Write for ReplyWriter<'_, W, R> {
    ghost contents = { λ replies. W.contents replies.writer };

    fn write(&mut self, buf: &[u8]) -> io::Result<usize> {
        self.writer.write(buf)
    }

    fn flush(&mut self) -> io::Result<()> {
        let flushed = self.writer.flush();
        self.turn.end();
        flushed
    }
}
