//! How deep the texts of timelocks nest. No memory is taken, and recursion goes down the nesting alone.

ghost use Rattle.std.specs.Prelude.{◌≡◌, ◌≤◌};
ghost use Rattle.model.specs.Cbor.{nesting, items_nesting};
ghost use Rattle.model.specs.Limits.{nesting_limit};
ghost use Rattle.model.specs.Script.{item_of_script, items_of_scripts};
ghost use Rattle.timelock.specs.View.{timelock_of, timelocks_of};

use crate::timelock::Timelock;

/// How deep the deepest of these nests, or 0 where there is none.
#[cycle(nesting)]
fn deepest(members: &[Timelock]) -> usize
    requires { items_nesting (items_of_scripts (timelocks_of members.now)) ≤ nesting_limit }
    ensures { result ≡ items_nesting (items_of_scripts (timelocks_of members.now)) }
{
    let mut deepest: usize = 0;
    for member in members {
        deepest = deepest.max(nesting_of(member));
    }
    deepest
}

/// How deep the text of the timelock nests: each timelock that stands in another nests two items deeper.
#[cycle(nesting)]
pub fn nesting_of(timelock: &Timelock) -> usize
    requires { nesting (item_of_script (timelock_of timelock.now)) ≤ nesting_limit }
    ensures { result ≡ nesting (item_of_script (timelock_of timelock.now)) }
{
    match timelock {
        Timelock::RequireSignature(_) => 2,
        Timelock::RequireAllOf(members) => 2 + deepest(members.as_slice()),
        Timelock::RequireAnyOf(members) => 2 + deepest(members.as_slice()),
        Timelock::RequireMOf(_, members) => 2 + deepest(members.as_slice()),
        Timelock::RequireTimeStart(_) => 2,
        Timelock::RequireTimeExpire(_) => 2,
    }
}
