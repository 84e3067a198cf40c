//! The network that a case runs on.

use genesis::GenesisDocument;
use std::alloc::AllocError;
use std::fs;
use std::rt::Files;

/// The folder of a path, with the slash behind it.
fn folder_of(path: &str) -> &str {
    match path.rsplit_once('/') {
        Some((folder, _)) => folder,
        None => ".",
    }
}

/// What the genesis file of this name says, in the folder `genesis` beside that of a file of cases. None where there is
/// none.
pub fn document_named<R: Files + AllocGlobal>(
    rt: &R,
    file: &str,
    name: &str,
) -> Result<Option<GenesisDocument>, AllocError> {
    let path = format!(in rt.alloc(); "{}/../genesis/{name}.toml", folder_of(file))?;
    match fs::read_to_string(rt, path.as_str()) {
        Ok(text) => Ok(GenesisDocument::from_toml(rt.alloc(), text.as_str()).ok()),
        Err(_) => Ok(None),
    }
}
