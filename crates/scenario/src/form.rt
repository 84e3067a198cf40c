//! The forms in which the bytes of a name arrive.

ghost use Rattle.std.specs.Prelude.{◌≡◌, IfOk};
ghost use Rattle.script.specs.Meaning.{formed};

use script::Form;
use std::alloc::{AllocError, Global};

/// The bytes that arrive.
pub fn formed(alloc: Global, form: Form, bytes: &[u8]) -> Result<Vec<u8>, AllocError>
    ensures { IfOk result (λ b. b.items ≡ formed form bytes.now) }
{
    match form {
        Form::Whole => Vec::from_slice(alloc, bytes),
        Form::Cut => Vec::from_slice(alloc, &bytes[..bytes.len().saturating_sub(1)]),
        Form::Extended => {
            let mut extended = Vec::from_slice(alloc, bytes)?;
            extended.push(0)?;
            Ok(extended)
        }
    }
}
