//! Native scripts. Recursion goes down the nesting alone, which is at most 64 in a script's text.

ghost use Rattle.std.specs.Prelude.{◌≡◌, ◌++◌, [], IfOk, OnOk, string_bytes};
ghost use Rattle.timelock.specs.View.{timelock_of, timelocks_of};
ghost use Rattle.showing.specs.Lines.{inner_margin};
ghost use Rattle.showing.specs.Scripts.{lines_of_condition, lines_of_conditions, lines_of_script};

use crate::lines::{inner_margin, put_id, put_number, put_words};
use std::alloc::{AllocError, Global};
use timelock::{Script, Timelock};

/// Appends what each of these asks for.
#[cycle(conditions)]
fn put_members(
    alloc: Global,
    out: &mut String,
    margin: &str,
    members: &[Timelock],
) -> Result<(), AllocError>
    ensures { OnOk result (string_bytes out.new ≡ string_bytes out.old
        ++ lines_of_conditions margin.now (timelocks_of members.now)) }
{
    for member in members {
        put_timelock(alloc, out, margin, member)?;
    }
    Ok(())
}

/// Appends what each of these asks for, indented under a line with this margin.
#[cycle(conditions)]
fn put_indented(
    alloc: Global,
    out: &mut String,
    margin: &str,
    members: &[Timelock],
) -> Result<(), AllocError>
    ensures { OnOk result (string_bytes out.new ≡ string_bytes out.old
        ++ lines_of_conditions (inner_margin margin.now) (timelocks_of members.now)) }
{
    let inner = inner_margin(alloc, margin)?;
    put_members(alloc, out, inner.as_str(), members)
}

/// Appends what a timelock asks for.
#[cycle(conditions)]
fn put_timelock(
    alloc: Global,
    out: &mut String,
    margin: &str,
    timelock: &Timelock,
) -> Result<(), AllocError>
    ensures { OnOk result (string_bytes out.new ≡ string_bytes out.old
        ++ lines_of_condition margin.now (timelock_of timelock.now)) }
{
    match timelock {
        Timelock::RequireSignature(hash) => put_id(out, margin, "key", hash),
        Timelock::RequireAllOf(members) => {
            put_words(out, margin, "all")?;
            put_indented(alloc, out, margin, members.as_slice())
        }
        Timelock::RequireAnyOf(members) => {
            put_words(out, margin, "any")?;
            put_indented(alloc, out, margin, members.as_slice())
        }
        Timelock::RequireMOf(least, members) => {
            put_number(out, margin, "at_least", *least)?;
            put_indented(alloc, out, margin, members.as_slice())
        }
        Timelock::RequireTimeStart(slot) => put_number(out, margin, "starts", *slot),
        Timelock::RequireTimeExpire(slot) => put_number(out, margin, "ends", *slot),
    }
}

/// Appends the lines of a script.
pub fn put_script(
    alloc: Global,
    out: &mut String,
    margin: &str,
    script: &Script,
) -> Result<(), AllocError>
    ensures { OnOk result (string_bytes out.new ≡ string_bytes out.old ++ lines_of_script margin.now script.now) }
{
    put_id(out, margin, "script", &script.hash())?;
    let inner = inner_margin(alloc, margin)?;
    put_timelock(alloc, out, inner.as_str(), script.timelock())
}

/// The lines of a script: `script HASH`, and indented under it what it asks for. That is `key HASH` for a signature by
/// the key of this hash, `starts N` and `ends N` for an interval that starts at the slot or later and ends at it or
/// before, and `all`, `any` or `at_least N` for so many of the scripts that are indented under it. Err where memory
/// runs out. Takes time and memory in proportion to the lines.
pub fn show_script(alloc: Global, script: &Script) -> Result<String, AllocError>
    ensures { IfOk result (λ lines. string_bytes lines ≡ lines_of_script [] script.now) }
{
    let mut lines = String::new(alloc);
    put_script(alloc, &mut lines, "", script)?;
    Ok(lines)
}
