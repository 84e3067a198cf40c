//! Scripts that are made of timelocks, and those that nest too deep.

use super::fixture::{MEMORY, ONES, boxed, check, is_spelled};
use ident::KeyHash;
use std::alloc::{AllocError, Global};
use std::process::Abort;
use timelock::{Script, ScriptFault, Timelock, Timelocks};

/// `count` timelocks that ask for all of one, inside one another.
fn nested_timelock(alloc: Global, count: usize) -> Result<Timelock, AllocError> {
    let mut timelock = Timelock::RequireAllOf(Timelocks::from_vec(Vec::new(alloc)));
    for _ in 1..count {
        let mut members = Vec::new(alloc);
        members.push(timelock)?;
        timelock = Timelock::RequireAllOf(Timelocks::from_vec(members));
    }
    Ok(timelock)
}

/// The script of `count` timelocks that ask for all of one, inside one another: each nests two deeper than the next.
pub fn nested(alloc: Global, count: usize) -> Result<Script, ScriptFault> {
    let timelock = nested_timelock(alloc, count)?;
    Script::new(alloc, timelock)
}

#[test]
fn timelocks_too_deep(rt: HostRuntime) {
    let script = boxed(&rt, nested(rt.alloc(), 32).expect(&rt, "a script"));
    check(&rt, "32", script.nesting() == 64);
    let fault = nested(rt.alloc(), 33).err();
    check(&rt, "33", fault == Some(ScriptFault::TooDeep));
}

/// The script's text.
const THREE_OF_FOUR: &[&str] = &["830303 84 82005820", ONES, "82041818 8205190100 820280"];

/// The script that asks for three of a key, two slots, and one of nothing.
fn three_of_four(rt: &(impl Abort + AllocGlobal)) -> Box<Script> {
    let none = Timelocks::from_vec(Vec::new(rt.alloc()));
    let key = KeyHash::from_bytes([1; 32]);
    let mut members = Vec::new(rt.alloc());
    members
        .push(Timelock::RequireSignature(key))
        .expect(rt, MEMORY);
    members
        .push(Timelock::RequireTimeStart(24))
        .expect(rt, MEMORY);
    members
        .push(Timelock::RequireTimeExpire(256))
        .expect(rt, MEMORY);
    members
        .push(Timelock::RequireAnyOf(none))
        .expect(rt, MEMORY);
    let timelock = Timelock::RequireMOf(3, Timelocks::from_vec(members));
    boxed(rt, Script::new(rt.alloc(), timelock).expect(rt, "a script"))
}

/// A timelock asks for three of four.
fn asks_for_three(timelock: &Timelock) -> bool {
    match timelock {
        Timelock::RequireMOf(least, members) => *least == 3 && members.as_slice().len() == 4,
        _ => false,
    }
}

#[test]
fn scripts_by_hand(rt: HostRuntime) {
    let script = three_of_four(&rt);
    check(&rt, "nesting", script.nesting() == 4);
    check(&rt, "its parts", asks_for_three(script.timelock()));
    is_spelled(&rt, THREE_OF_FOUR, &script.encode().expect(&rt, MEMORY));
}
