//! Streams that are opened again.

use std::fs;
use std::os::unix::fs::FileTypeExt;

/// Whether the stream of this path is opened again for the next one who uses it: a named pipe is. What is a link isn't,
/// as the descriptors of a process under `/dev/fd` are: a pipe that has none but such a name is at its end for good.
pub fn is_reopened(system: &HostRuntime, path: &str) -> bool {
    match fs::symlink_metadata(system, path) {
        Ok(metadata) => metadata.file_type().is_fifo(),
        Err(_) => false,
    }
}
