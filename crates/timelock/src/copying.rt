//! Copies of timelocks with all that is in them.

ghost use Rattle.std.specs.Prelude.{◌≡◌, IfOk};
ghost use Rattle.timelock.specs.View.{timelock_of, timelocks_of};

use crate::timelock::{Timelock, Timelocks};
use std::alloc::{AllocError, Global};

#[cycle(cloning)]
fn clone_members(alloc: Global, members: &[Timelock]) -> Result<Timelocks, AllocError>
    ensures { IfOk result (λ copies. copies ≡ timelocks_of members.now) }
{
    let mut copies = Vec::with_capacity(alloc, members.len())?;
    for member in members {
        copies.push(clone_timelock(alloc, member)?)?;
    }
    Ok(Timelocks::from_vec(copies))
}

/// The same timelock once more. Err where memory runs out.
#[cycle(cloning)]
pub fn clone_timelock(alloc: Global, timelock: &Timelock) -> Result<Timelock, AllocError>
    ensures { IfOk result (λ copy. timelock_of copy ≡ timelock_of timelock.now) }
{
    match timelock {
        Timelock::RequireSignature(hash) => Ok(Timelock::RequireSignature(*hash)),
        Timelock::RequireAllOf(members) => {
            Ok(Timelock::RequireAllOf(clone_members(alloc, members.as_slice())?))
        }
        Timelock::RequireAnyOf(members) => {
            Ok(Timelock::RequireAnyOf(clone_members(alloc, members.as_slice())?))
        }
        Timelock::RequireMOf(least, members) => Ok(Timelock::RequireMOf(
            *least,
            clone_members(alloc, members.as_slice())?,
        )),
        Timelock::RequireTimeStart(slot) => Ok(Timelock::RequireTimeStart(*slot)),
        Timelock::RequireTimeExpire(slot) => Ok(Timelock::RequireTimeExpire(*slot)),
    }
}
