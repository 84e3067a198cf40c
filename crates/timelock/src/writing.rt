//! Writing timelocks (RFC 8949, section 4.2.1), in time linear in the bytes that are written. Where memory runs out a
//! part may stand there, and none fails where the vector has room.

ghost use Rattle.std.specs.Prelude.{◌≡◌, ◌<◌, ◌≤◌, ◌+◌, ◌++◌, length, map, OnOk, OnErr, vec_capacity};
ghost use Rattle.model.specs.Cbor.{head, text_of, items_text, Array};
ghost use Rattle.model.specs.Script.{item_of_script, items_of_scripts};
ghost use Rattle.cbor.specs.Texts.{Keeps};
ghost use Rattle.timelock.specs.View.{timelock_of, timelocks_of};

use crate::timelock::Timelock;
use std::alloc::AllocError;

/// The timelocks, one after the other.
#[cycle(writing)]
fn write_list(out: &mut Vec<u8>, list: &[Timelock]) -> Result<(), AllocError>
    ensures ok { OnOk result (out.new.items ≡ out.old.items ++ items_text (items_of_scripts (timelocks_of list.now))) }
    ensures keeps { Keeps out.old.items out.new.items }
    ensures full { OnErr result (vec_capacity out.old < length out.old.items +
        length (items_text (items_of_scripts (timelocks_of list.now)))) }
    ensures capacity { vec_capacity out.old ≤ vec_capacity out.new }
{
    for timelock in list {
        write_timelock(out, timelock)?;
    }
    Ok(())
}

/// The array of the timelocks.
#[cycle(writing)]
fn write_members(out: &mut Vec<u8>, members: &[Timelock]) -> Result<(), AllocError>
    ensures ok { OnOk result (out.new.items ≡
        out.old.items ++ text_of (Array (items_of_scripts (timelocks_of members.now)))) }
    ensures keeps { Keeps out.old.items out.new.items }
    ensures full { OnErr result (vec_capacity out.old < length out.old.items +
        length (text_of (Array (items_of_scripts (timelocks_of members.now))))) }
    ensures capacity { vec_capacity out.old ≤ vec_capacity out.new }
{
    cbor::write_array(out, members.len() as u64)?;
    write_list(out, members)
}

/// The head of a timelock's array, and its kind.
fn write_kind(out: &mut Vec<u8>, members: u64, kind: u64) -> Result<(), AllocError>
    ensures ok { OnOk result (out.new.items ≡ out.old.items ++ (head 4 members ++ head 0 kind)) }
    ensures keeps { Keeps out.old.items out.new.items }
    ensures full { OnErr result (vec_capacity out.old < length out.old.items +
        length (head 4 members ++ head 0 kind)) }
    ensures capacity { vec_capacity out.old ≤ vec_capacity out.new }
{
    cbor::write_array(out, members)?;
    cbor::write_unsigned(out, kind)
}

/// The timelock.
#[cycle(writing)]
pub fn write_timelock(out: &mut Vec<u8>, timelock: &Timelock) -> Result<(), AllocError>
    ensures ok { OnOk result (out.new.items ≡ out.old.items ++ text_of (item_of_script (timelock_of timelock.now))) }
    ensures keeps { Keeps out.old.items out.new.items }
    ensures full { OnErr result (vec_capacity out.old < length out.old.items +
        length (text_of (item_of_script (timelock_of timelock.now)))) }
    ensures capacity { vec_capacity out.old ≤ vec_capacity out.new }
{
    match timelock {
        Timelock::RequireSignature(hash) => {
            write_kind(out, 2, 0)?;
            cbor::write_byte_string(out, hash.as_bytes().as_slice())
        }
        Timelock::RequireAllOf(members) => {
            write_kind(out, 2, 1)?;
            write_members(out, members.as_slice())
        }
        Timelock::RequireAnyOf(members) => {
            write_kind(out, 2, 2)?;
            write_members(out, members.as_slice())
        }
        Timelock::RequireMOf(least, members) => {
            write_kind(out, 3, 3)?;
            cbor::write_unsigned(out, *least)?;
            write_members(out, members.as_slice())
        }
        Timelock::RequireTimeStart(slot) => {
            write_kind(out, 2, 4)?;
            cbor::write_unsigned(out, *slot)
        }
        Timelock::RequireTimeExpire(slot) => {
            write_kind(out, 2, 5)?;
            cbor::write_unsigned(out, *slot)
        }
    }
}
