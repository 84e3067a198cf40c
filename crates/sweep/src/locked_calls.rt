//! Calls of a caller of a shared core, each once more where it was refused memory, if it takes any.

use crate::told::Told;
use chain_core::{FollowerId, Instruction, NextFault, OpenFollowerFault, UnknownFollower};
use ident::Point;
use shared::{Caller, Room, Shared};
use std::sync::Wait;
use witness_pool::TestScheme;

/// The caller submits bytes, and it is told what is answered. Answers whether there was memory.
fn submits<B: Room, R: Wait>(
    rt: &R,
    shared: &Shared<TestScheme, B>,
    caller: &mut Caller<B>,
    bytes: &[u8],
    told: &mut Told,
) -> bool {
    match shared.submit(rt, caller, bytes) {
        Ok(reply) => {
            let _ = write!(told.text(), "{reply}");
            true
        }
        Err(_) => false,
    }
}

/// The same, once more where it was refused memory.
pub fn submit<B: Room, R: Wait>(
    rt: &R,
    shared: &Shared<TestScheme, B>,
    caller: &mut Caller<B>,
    bytes: &[u8],
    told: &mut Told,
) {
    told.put("submit Stays: ");
    if !submits(rt, shared, caller, bytes, told) {
        told.refused();
        if !submits(rt, shared, caller, bytes, told) {
            told.put("out of memory");
        }
    }
    told.put("\n");
}

/// The caller sets its follower, and it is told to which block. That takes no memory.
pub fn forward<B: Room, R: Wait>(
    rt: &R,
    shared: &Shared<TestScheme, B>,
    caller: &mut Caller<B>,
    points: &[Point],
    told: &mut Told,
) {
    told.put("forward 0 A1: ");
    let id = FollowerId { number: 0 };
    match shared.forward(rt, caller, id, points) {
        Ok(Some(point)) => {
            let number = point.number;
            let _ = write!(told.text(), "block {number}");
        }
        Ok(None) => told.put("none"),
        Err(UnknownFollower {}) => told.put("unknown follower"),
    }
    told.put("\n");
}

/// The caller closes its follower. That takes no memory.
pub fn close<B: Room, R: Wait>(
    rt: &R,
    shared: &Shared<TestScheme, B>,
    caller: &mut Caller<B>,
    told: &mut Told,
) {
    told.put("close 0: ");
    let id = FollowerId { number: 0 };
    match shared.close(rt, caller, id) {
        Ok(()) => told.put("closed"),
        Err(UnknownFollower {}) => told.put("unknown follower"),
    }
    told.put("\n");
}

/// The caller opens a follower, and it is told which. Answers whether there was memory.
fn opens<B: Room, R: Wait>(
    rt: &R,
    shared: &Shared<TestScheme, B>,
    caller: &mut Caller<B>,
    told: &mut Told,
) -> bool {
    match shared.open(rt, caller) {
        Ok(id) => {
            let _ = write!(told.text(), "opened {id}");
        }
        Err(OpenFollowerFault::TooManyFollowers) => told.put("too many followers"),
        Err(OpenFollowerFault::OutOfMemory) => return false,
    }
    true
}

/// The caller's follower asks what comes next, and that is told. Answers whether there was memory.
fn is_next<B: Room, R: Wait>(
    rt: &R,
    shared: &Shared<TestScheme, B>,
    caller: &mut Caller<B>,
    told: &mut Told,
) -> bool {
    let id = FollowerId { number: 0 };
    match shared.next(rt, caller, id) {
        Ok(Some(Instruction::AddBlock(block))) => {
            let number = block.number();
            let _ = write!(told.text(), "add block {number}");
        }
        Ok(Some(Instruction::RollBack(_))) => told.put("rollback"),
        Ok(None) => told.put("none"),
        Err(NextFault::UnknownFollower) => told.put("unknown follower"),
        Err(NextFault::OutOfMemory) => return false,
    }
    true
}

/// Makes a call of this kind.
fn calls<B: Room, R: Wait>(
    rt: &R,
    shared: &Shared<TestScheme, B>,
    caller: &mut Caller<B>,
    call: Call,
    told: &mut Told,
) -> bool {
    match call {
        Call::Open => opens(rt, shared, caller, told),
        Call::Next => is_next(rt, shared, caller, told),
    }
}

/// The same, once more where it was refused memory.
pub fn make_call<B: Room, R: Wait>(
    rt: &R,
    shared: &Shared<TestScheme, B>,
    caller: &mut Caller<B>,
    call: Call,
    told: &mut Told,
) {
    told.put(call.name());
    told.put(": ");
    if !calls(rt, shared, caller, call, told) {
        told.refused();
        if !calls(rt, shared, caller, call, told) {
            told.put("out of memory");
        }
    }
    told.put("\n");
}

/// A call that hands in nothing, and may run out of memory.
#[derive(Clone, Copy)]
pub enum Call {
    Open,
    Next,
}

impl Call {
    /// Its name.
    fn name(self) -> &'static str {
        match self {
            Call::Open => "open",
            Call::Next => "next 0",
        }
    }
}
