//! Files of tokens: they are read at the start, and that of clients again when an operator wants it. What is wrong with one
//! is told on standard error, in particular.
ghost use Rattle.std.specs.Prelude.{◌≡◌, ◌≢◌, true};
ghost use Rattle.std.specs.Int.RustNames.{bit_and};

use crate::named_file::{NO_FILE, is_no_file, tell_file, tell_of_file, tell_owner, tell_shown};
use std::alloc::Global;
use std::fs::{self, Files, OpenFile};
use std::io::{Eprint, Read};
use std::os::unix::fs::{MetadataExt, PermissionsExt};

/// The most bytes of a file of tokens.
const LONGEST_TOKENS: u64 = 1_048_576;

/// The bits of a file's mode that let the group or others read or write it.
const OTHERS_MAY: u32 = 0o066;

/// The user who may read and write all files anyway.
const ROOT: u32 = 0;

/// Why a file of tokens is not read.
#[derive(Clone, Copy, Debug, PartialEq, Eq)]
pub enum TokenFault {
    /// Their file can't be read.
    Unread,
    /// Others may read or write it.
    Shown,
}

/// What reads files of tokens while a host runs. `Files` has types of its own, on whose bounds nothing can rest that starts
/// threads, so that a host asks for this in its place.
pub trait TokenFiles {
    /// All bytes of the file of tokens of this name, as `token_text` has them.
    fn tokens_at<N: Eprint>(
        &self,
        teller: &N,
        alloc: Global,
        name: &str,
    ) -> Result<Vec<u8>, TokenFault>;
}

impl<X: Files> TokenFiles for X {
    fn tokens_at<N: Eprint>(
        &self,
        teller: &N,
        alloc: Global,
        name: &str,
    ) -> Result<Vec<u8>, TokenFault> {
        token_text(self, teller, alloc, name)
    }
}

/// All bytes of a file of tokens, which others may neither read nor write, and which is this user's or root's. What is no
/// file is not opened, so that nobody is waited for. What is wrong is told by this teller.
pub fn token_text<X: Files, N: Eprint>(
    rt: &X,
    teller: &N,
    alloc: Global,
    name: &str,
) -> Result<Vec<u8>, TokenFault> {
    if is_no_file(rt, name) {
        tell_of_file(teller, name, NO_FILE);
        return Err(TokenFault::Unread);
    }
    match fs::open(rt, name) {
        Ok(file) => text_in(teller, alloc, name, file),
        Err(error) => {
            tell_file(teller, name, &error);
            Err(TokenFault::Unread)
        }
    }
}

/// Whether others may read or write a file of tokens of this name, mode and owner: any but this user and root. That is
/// told.
fn is_shown<X: Eprint>(rt: &X, name: &str, mode: u32, owner: u32) -> bool
    ensures { bit_and mode 54 ≢ 0 → result ≡ true }
{
    if mode & OTHERS_MAY != 0 {
        tell_shown(rt, name, mode);
        return true;
    }
    if owner != ROOT && owner != libc::geteuid() {
        tell_owner(rt, name, owner);
        return true;
    }
    false
}

/// All bytes of this file of tokens, which has this name.
fn text_in<X: Eprint, O: OpenFile + Read + Drop>(
    rt: &X,
    alloc: Global,
    name: &str,
    file: O,
) -> Result<Vec<u8>, TokenFault> {
    let about = match file.metadata() {
        Ok(about) => about,
        Err(error) => {
            tell_file(rt, name, &error);
            return Err(TokenFault::Unread);
        }
    };
    if is_shown(rt, name, about.permissions().mode(), about.uid()) {
        return Err(TokenFault::Shown);
    }
    let mut bytes = Vec::new(alloc);
    // One more, so that a longer file is seen to be longer.
    let mut front = file.take(LONGEST_TOKENS + 1);
    match front.read_to_end(&mut bytes) {
        Ok(_) if bytes.len() as u64 <= LONGEST_TOKENS => return Ok(bytes),
        Ok(_) => tell_of_file(rt, name, "it has more than 1,048,576 bytes"),
        Err(error) => tell_file(rt, name, &error),
    }
    Err(TokenFault::Unread)
}
