//! Bytes and texts in replies.

ghost use Rattle.std.specs.Prelude.{◌≡◌, ◌++◌, OnOk};
ghost use Rattle.conversing.specs.Parts.{hex_text, quoted};

use serde_json::Value;
use std::alloc::{AllocError, Global};

/// Appends a string of the lower case hexadecimal digits of bytes.
pub fn put_hex(alloc: Global, line: &mut Vec<u8>, bytes: &[u8]) -> Result<(), AllocError>
    ensures { OnOk result (line.new.items ≡ line.old.items ++ hex_text bytes.now) }
{
    let digits = hex::encode(alloc, bytes)?;
    line.extend_from_slice(b"\"")?;
    line.extend_from_slice(digits.as_bytes())?;
    line.extend_from_slice(b"\"")
}

/// Appends a text as a JSON string (RFC 8259, section 7), with the shortest escapes.
#[tactic(auto, unfolding(crate::specs::Parts::quoted))]
pub fn put_text(alloc: Global, line: &mut Vec<u8>, text: &str) -> Result<(), AllocError>
    ensures { OnOk result (line.new.items ≡ line.old.items ++ quoted text.now) }
{
    let value = Value::try_from_str(alloc, text)?;
    let spelled = value.to_vec(alloc)?;
    line.extend_from_slice(&spelled)
}
