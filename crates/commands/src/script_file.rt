//! The file of a script.

use crate::failure::Failure;
use std::fs::File;
use std::io::{Read, Take};
use std::rt::Files;

/// Opens the script of this path. One byte more than a script may have can be read of it, which makes its line a bad
/// one, so a line without end takes no more memory.
pub fn open_script<'a, R: Files<File = File>>(
    rt: &R,
    path: &'a str,
) -> Result<Take<File>, Failure<'a>> {
    match File::open(rt, path) {
        Ok(file) => Ok(file.take(scenario::MAX_SCRIPT_SIZE + 1)),
        Err(_) => Err(Failure::CannotRead(path)),
    }
}
