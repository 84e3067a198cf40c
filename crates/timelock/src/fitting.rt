//! Whether a timelock has a text, which is so where it does not nest too deep. No memory is taken, and recursion goes
//! no deeper than is asked.

ghost use Rattle.std.specs.Prelude.{◌≡◌, ◌<◌, ◌^◌, length, true, false, IsTrue};
ghost use Rattle.timelock.specs.View.{timelock_of, timelocks_of};
ghost use Rattle.timelock.specs.Depth.{depth_of_script, depth_of_scripts};
ghost use Rattle.timelock.specs.Fitting.{FitsIn, AllFitIn};

use crate::timelock::Timelock;

/// Whether of these at most `depth` stand in one another.
#[cycle(fitting)]
fn all_fit(depth: usize, members: &[Timelock]) -> bool
    ensures fit { IsTrue result → AllFitIn depth (timelocks_of members.now) }
    ensures counted { IsTrue result → length members.now < 2 ^ 64 }
    ensures deep { result ≡ false → depth < depth_of_scripts (timelocks_of members.now) }
{
    for member in members {
        if !fits(depth, member) {
            return false;
        }
    }
    true
}

/// Each number of 64 bits has a text.
fn has_text(number: u64) -> bool
    ensures always { result ≡ true }
    ensures in_range { number < 2 ^ 64 }
{
    true
}

/// Whether at most `depth` timelocks stand in one another.
#[cycle(fitting)]
pub fn fits(depth: usize, timelock: &Timelock) -> bool
    ensures fit { IsTrue result → FitsIn depth (timelock_of timelock.now) }
    ensures deep { result ≡ false → depth < depth_of_script (timelock_of timelock.now) }
{
    if depth == 0 {
        return false;
    }
    match timelock {
        Timelock::RequireSignature(_) => true,
        Timelock::RequireAllOf(members) => all_fit(depth - 1, members.as_slice()),
        Timelock::RequireAnyOf(members) => all_fit(depth - 1, members.as_slice()),
        Timelock::RequireMOf(least, members) => {
            has_text(*least) && all_fit(depth - 1, members.as_slice())
        }
        Timelock::RequireTimeStart(slot) => has_text(*slot),
        Timelock::RequireTimeExpire(slot) => has_text(*slot),
    }
}
