//! Files that a word names: which are read, and what is told of one, in particular, on standard error.

use std::fs::{self, Files};
use std::io::{self, Eprint};

/// What is said of what is no file.
pub const NO_FILE: &str = "it is no regular file";

/// Whether neither a file nor a folder stands at this path, but what may have no end or be waited for without end: a pipe,
/// a device, or what the system itself makes under `/proc`, which tells no length. The descriptors that the process was
/// given are taken for files.
pub fn is_no_file<F: Files>(files: &F, path: &str) -> bool {
    if path == "/dev/stdin" || path.starts_with("/dev/fd/") {
        return false;
    }
    match fs::metadata(files, path) {
        Ok(about) if about.is_file() => about.len() == 0 && path.starts_with("/proc/"),
        Ok(about) => !about.is_dir(),
        Err(_) => false,
    }
}

/// Tells what the system says of the file at this path.
pub fn tell_file<X: Eprint>(rt: &X, path: &str, error: &io::Error) {
    let _ = eprintln!(rt; "{path}: {error}");
}

/// Tells what is wrong with the file at this path.
pub fn tell_of_file<X: Eprint>(rt: &X, path: &str, why: &str) {
    let _ = eprintln!(rt; "{path}: {why}");
}

/// Tells what is wrong with this line of the file at this path, from 1.
pub fn tell_line<X: Eprint>(rt: &X, path: &str, line: u64, why: &str) {
    let _ = eprintln!(rt; "{path}: line {line}: {why}");
}

/// Tells that others may read or write the file at this path, which has this mode.
pub(crate) fn tell_shown<X: Eprint>(rt: &X, path: &str, mode: u32) {
    let bits = mode & 0o7777;
    let _ = eprintln!(rt; "{path}: others may read or write it (mode {bits:o}; chmod 600 {path})");
}

/// Tells that the file at this path is of this user, who is neither root nor the one of this process.
pub(crate) fn tell_owner<X: Eprint>(rt: &X, path: &str, owner: u32) {
    let _ = eprintln!(rt;
        "{path}: user {owner}, whose it is, may read or write it (chown it to the host's user)"
    );
}
