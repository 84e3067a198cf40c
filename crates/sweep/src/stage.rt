//! A core on which calls are made one after the other, each once more where it was refused memory. What is seen of the
//! core is noted before a call, and compared with what is seen of it after one that was refused.

use crate::calls::{Call, Input};
use crate::network::{genesis, names, shown};
use crate::notes::{note, put_numbers};
use crate::told::{Told, roomy};
use chain_core::{
    Core, ForgeFault, Forged, Instruction, NextFault, OpenFollowerFault, RawEvent, Reply,
};
use ident::Point;
use script::Names;
use std::alloc::Global;
use witness_pool::TestScheme;

/// A core, and what was seen of it. What has much to drop stands in boxes, whose drops are calls: that keeps the proofs
/// of the functions short that own it.
#[derive(Drop)]
pub struct Stage {
    alloc: Global,
    core: Box<Core<TestScheme>>,
    names: Box<Names>,
    before: String,
    after: String,
}

/// A core that nothing has come to.
fn new_core(alloc: Global) -> Option<Box<Core<TestScheme>>> {
    let core = Core::new(alloc, genesis(alloc)?).ok()?;
    Box::new(alloc, core).ok()
}

/// Whether memory ran out in an event.
fn is_want(reply: &Reply<TestScheme>) -> bool {
    match reply {
        Reply::Arrive(Err(_))
        | Reply::Submit(Err(_))
        | Reply::Open(Err(OpenFollowerFault::OutOfMemory))
        | Reply::Next(Err(NextFault::OutOfMemory)) => true,
        _ => false,
    }
}

/// The name of a point.
fn name_of(names: &Names, point: Point) -> &str {
    if point.number == 0 {
        "genesis"
    } else {
        shown(names.printed_name(&point.hash))
    }
}

/// Tells what was answered to an event, blocks by their names.
fn tell_reply(told: &mut Told, names: &Names, reply: &Reply<TestScheme>) {
    match reply {
        Reply::Next(Ok(Some(Instruction::AddBlock(block)))) => {
            told.put("add ");
            told.put(name_of(names, block.point()));
        }
        Reply::Next(Ok(Some(Instruction::RollBack(point)))) => {
            told.put("rollback ");
            told.put(name_of(names, *point));
        }
        Reply::Forward(Ok(Some(point))) => told.put(name_of(names, *point)),
        _ => {
            let _ = write!(told.text(), "{reply}");
        }
    }
}

/// Tells what was forged, or why nothing was.
fn tell_forged(told: &mut Told, forged: &Result<Forged, ForgeFault>) {
    let _ = match forged {
        Ok(forged) => {
            let number = forged.point.number;
            let size = forged.bytes.len();
            write!(told.text(), "block {number} of {size} bytes")
        }
        Err(fault) => write!(told.text(), "{fault}"),
    };
}

impl Stage {
    /// A stage of a new core, where memory lasts.
    fn new(alloc: Global) -> Option<Stage> {
        let core = new_core(alloc)?;
        let names = names(alloc)?;
        let before = roomy(alloc)?;
        let after = roomy(alloc)?;
        Some(Stage {
            alloc,
            core,
            names,
            before,
            after,
        })
    }

    /// The same, tried once more where memory ran out.
    pub fn ready(alloc: Global) -> Option<Stage> {
        match Stage::new(alloc) {
            Some(stage) => Some(stage),
            None => Stage::new(alloc),
        }
    }

    /// What is handed in, tried once more where memory ran out.
    fn input(&self, call: Call) -> Option<Input> {
        match call.input(self.alloc, &self.names) {
            Some(input) => Some(input),
            None => call.input(self.alloc, &self.names),
        }
    }

    /// Makes a call of an event, and tells what is answered. Answers whether there was memory.
    fn answers_event(&mut self, event: &RawEvent, told: &mut Told) -> bool {
        let reply = self.core.answer(event);
        let answers = !is_want(&reply);
        if answers {
            tell_reply(told, &self.names, &reply);
        }
        answers
    }

    /// The same of a block that is forged.
    fn answers_slot(&self, slot: u64, told: &mut Told) -> bool {
        let forged = self.core.forge(slot);
        let answers = !matches!(&forged, Err(ForgeFault::OutOfMemory));
        if answers {
            tell_forged(told, &forged);
        }
        answers
    }

    /// The same of what is handed in.
    fn answers(&mut self, input: &Input, told: &mut Told) -> bool {
        match input {
            Input::Event(event) => self.answers_event(event, told),
            Input::Slot(slot) => self.answers_slot(*slot, told),
        }
    }

    /// Makes a call that was refused memory once more, which is to have changed nothing.
    fn answer_at_last(&mut self, input: &Input, told: &mut Told) {
        told.refused();
        note(&mut self.after, &self.core);
        if self.before.as_str() != self.after.as_str() {
            told.put("changed, from\n");
            told.put(self.before.as_str());
            told.put("to\n");
            told.put(self.after.as_str());
        }
        if !self.answers(input, told) {
            told.put("out of memory");
        }
    }

    /// Makes a call, and tells what is answered.
    pub fn make(&mut self, call: Call, told: &mut Told) {
        call.tell(told);
        match self.input(call) {
            Some(input) => {
                note(&mut self.before, &self.core);
                if !self.answers(&input, told) {
                    self.answer_at_last(&input, told);
                }
            }
            None => told.put("nothing to hand in"),
        }
        told.put("\n");
    }

    /// Tells how the core is left.
    pub fn tell_numbers(&self, told: &mut Told) {
        put_numbers(told.text(), &self.core);
    }
}
