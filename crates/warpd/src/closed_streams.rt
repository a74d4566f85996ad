//! The standard streams that are closed when the program starts.
//!
//! A file or a socket gets the least descriptor that is free, and would be taken for a standard stream that is closed.

ghost use Rattle.std.specs.Prelude.{IfSome, pos, ◌≤ℤ◌};
ghost use Rattle.std.specs.Fd.{file_raw_fd};

use std::fs::{File, Files, OpenOptions};
use std::io;
use std::os::fd::AsRawFd;

/// What takes the descriptors 0 to 2, where they are closed, for as long as it is held: input can't be read from it, nor
/// can output or errors be written to it.
pub(crate) fn take_closed<F: Files<File = File>>(
    files: &F,
) -> (Option<File>, Option<File>, Option<File>) {
    let input = OpenOptions::new().write(true).open(files, "/dev/null");
    (
        at_most(input, 0),
        at_most(File::open(files, "/dev/null"), 2),
        at_most(File::open(files, "/dev/null"), 2),
    )
}

/// The file, where its descriptor is at most this one; else it is closed.
fn at_most(file: io::Result<File>, last: i32) -> Option<File>
    ensures { IfSome result (λ file. file_raw_fd file ≤ℤ last) }
{
    match file {
        Ok(file) if file.as_raw_fd() <= last => Some(file),
        _ => None,
    }
}
