//! Documents.

ghost use Rattle.std.specs.Prelude.{◌≡◌, ◌≤◌, false, IfOk, string_bytes};
ghost use Rattle.serde_json.specs.Data.{depth};
ghost use Rattle.serde_json.specs.Read.{max_depth};
ghost use Rattle.serde_json.specs.View.{view};
ghost use Rattle.serde_json.specs.Written.{has_float};
ghost use Rattle.describing.specs.Documents.{document_text, IsReadAs};

use serde_json::Value as Json;
use std::alloc::{AllocError, Global};

/// The document of a JSON value: its text, without spaces, and a line feed. It is read as this value where arrays and
/// objects nest at most 127 deep. Err where memory runs out.
pub fn document(alloc: Global, json: &Json) -> Result<String, AllocError>
    ensures text { IfOk result (λ text. has_float (view json.now) ≡ false
        → string_bytes text ≡ document_text (view json.now)) }
    ensures reads_back { IfOk result (λ text. depth (view json.now) ≤ max_depth
        → IsReadAs (string_bytes text) (view json.now)) }
{
    let mut text = json.to_string(alloc)?;
    text.push('\n')?;
    Ok(text)
}
