//! The calls of a core, by the names of what they are given.

use crate::network::{bytes_of, points_of, text_of};
use crate::told::Told;
use chain_core::{FollowerId, RawEvent};
use script::Names;
use std::alloc::Global;

/// A call of a core.
#[derive(Clone, Copy)]
pub enum Call {
    /// The block of this name arrives.
    Arrive(&'static str),
    /// The transaction of this name is submitted.
    Submit(&'static str),
    Open,
    /// The follower of this number asks what comes next.
    Next(u64),
    /// The follower of this number is set to the block of this name.
    Forward(u64, &'static str),
    /// A block is forged in this slot.
    Forge(u64),
}

/// What is handed in.
#[derive(Drop)]
pub enum Input {
    Event(RawEvent),
    Slot(u64),
}

impl Call {
    /// What is handed in, where memory lasts.
    pub fn input(self, alloc: Global, names: &Names) -> Option<Input> {
        let event = match self {
            Call::Arrive(name) => RawEvent::Arrive(bytes_of(alloc, names, name)?),
            Call::Submit(name) => RawEvent::Submit(text_of(names, name)?),
            Call::Open => RawEvent::Open,
            Call::Next(number) => RawEvent::Next(FollowerId { number }),
            Call::Forward(number, name) => {
                RawEvent::Forward(FollowerId { number }, points_of(alloc, names, name)?)
            }
            Call::Forge(slot) => return Some(Input::Slot(slot)),
        };
        Some(Input::Event(event))
    }

    /// Tells which call it is.
    pub fn tell(self, told: &mut Told) {
        match self {
            Call::Arrive(name) => {
                told.put("arrive ");
                told.put(name);
                told.put(": ");
            }
            Call::Submit(name) => {
                told.put("submit ");
                told.put(name);
                told.put(": ");
            }
            Call::Open => told.put("open: "),
            Call::Next(number) => {
                let _ = write!(told.text(), "next {number}: ");
            }
            Call::Forward(number, name) => {
                let _ = write!(told.text(), "forward {number} {name}: ");
            }
            Call::Forge(slot) => {
                let _ = write!(told.text(), "forge {slot}: ");
            }
        }
    }
}
