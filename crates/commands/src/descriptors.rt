//! The descriptors of standard input, output and error.

use std::fs::File;
use std::os::fd::{AsRawFd, IntoRawFd, RawFd};
use std::rt::Files;

/// The last of the three: standard error.
pub const LAST_STANDARD: RawFd = 2;

/// Opens those of the descriptors 0, 1 and 2 that are closed on `/dev/null`, and leaves them open, so that no file that
/// is opened later gets one of them, and with it what is printed. They can be read, and a write to one fails.
pub fn hold_descriptors<R: Files<File = File>>(rt: &R) {
    for _ in 0..=LAST_STANDARD {
        match File::open(rt, "/dev/null") {
            // The system gives the first that is closed.
            Ok(file) if file.as_raw_fd() <= LAST_STANDARD => {
                let _held = file.into_raw_fd();
            }
            _ => return,
        }
    }
}
