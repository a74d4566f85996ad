//! The files of a site, which a host reads at its start.
ghost use Rattle.std.specs.Prelude.{◌≡◌, ◌++◌, IfErr, OnOk};
ghost use Rattle.warpd.specs.Outcome.{KeepsFromHosting};

use crate::file_bytes::without_file;
use crate::host_words::or_memory;
use crate::outcome::Outcome;
use crate::telling::{tell_site, tell_word};
use std::alloc::{AllocError, Global};
use std::fs::{self, Files};
use std::io::{self, Eprint, Read};
use warp_pages::Site;

/// The bytes of the names in a folder, with one behind each, are fewer.
const MOST_NAMES: usize = 65_536;

/// So many bytes of them are read at once.
const PIECE: usize = 4_096;

/// The most bytes of all files together.
const MOST_BYTES: u64 = 67_108_864;

/// The files of the folder that this word names: those whose names are letters, digits, `.`, `-` and `_`, and do not begin
/// with `.`. What else is in it, folders too, is left out. Without a word there are none.
pub(crate) fn site_of<X: Files + Eprint>(
    rt: &X,
    alloc: Global,
    word: Option<&str>,
) -> Result<Site, Outcome>
    ensures { IfErr result KeepsFromHosting }
{
    let mut site = Site::new(alloc);
    let Some(folder) = word else {
        return Ok(site);
    };
    if folder.is_empty() {
        tell_word(rt, "--site", "''", "an empty word names no folder");
        return Err(Outcome::NoSite);
    }
    let names = names_in(rt, alloc, folder)?;
    add_files(rt, alloc, folder, &names, &mut site)?;
    Ok(site)
}

/// The names in a folder, each with a byte 0 behind it.
fn names_in<X: Files + Eprint>(rt: &X, alloc: Global, folder: &str) -> Result<Vec<u8>, Outcome>
    ensures { IfErr result KeepsFromHosting }
{
    match rt.open_dir(folder) {
        Ok(opened) => names_of(rt, alloc, folder, opened),
        Err(error) => Err(unread(rt, folder, &error)),
    }
}

/// The names that an open folder reads as. No read ends inside a name, and each but the last gives one.
fn names_of<X: Eprint, D: Read + Drop>(
    rt: &X,
    alloc: Global,
    folder: &str,
    mut opened: D,
) -> Result<Vec<u8>, Outcome>
    ensures { IfErr result KeepsFromHosting }
{
    let mut names = Vec::new(alloc);
    let mut piece = [0u8; PIECE];
    for _ in 0..MOST_NAMES {
        let count = match opened.read(&mut piece) {
            Ok(count) => count.min(PIECE),
            Err(error) => return Err(unread(rt, folder, &error)),
        };
        if count == 0 {
            return Ok(names);
        }
        or_memory(copied_behind(&mut names, &piece[..count]))?;
        if names.len() >= MOST_NAMES {
            break;
        }
    }
    tell_word(rt, "--site", folder, "too many files");
    Err(Outcome::LargeSite)
}

/// Puts these bytes behind the others.
fn copied_behind(names: &mut Vec<u8>, piece: &[u8]) -> Result<(), AllocError>
    ensures { OnOk result (names.new.items ≡ names.old.items ++ piece.now) }
{
    names.extend_from_slice(piece)?;
    Ok(())
}

/// Adds the files of a folder that have one of these names.
fn add_files<X: Files + Eprint>(
    rt: &X,
    alloc: Global,
    folder: &str,
    names: &[u8],
    site: &mut Site,
) -> Result<(), Outcome>
    ensures { IfErr result KeepsFromHosting }
{
    let mut left = MOST_BYTES;
    for bytes in names.split(|byte| *byte == 0) {
        if is_name(bytes) {
            let name = str::from_utf8(bytes).unwrap_or("");
            left = add_file(rt, alloc, folder, name, left, site)?;
        }
    }
    Ok(())
}

/// Adds a file of a folder, if it is a plain one, of at most so many bytes. How many are left then.
fn add_file<X: Files + Eprint>(
    rt: &X,
    alloc: Global,
    folder: &str,
    name: &str,
    left: u64,
    site: &mut Site,
) -> Result<u64, Outcome>
    ensures { IfErr result KeepsFromHosting }
{
    let path = or_memory(path_of(alloc, folder, name))?;
    if !is_plain(rt, path.as_str()) {
        return Ok(left);
    }
    let bytes = bytes_of(rt, alloc, path.as_str(), left)?;
    let count = bytes.len() as u64;
    if count > left {
        tell_word(rt, "--site", folder, "more than 64 MiB");
        return Err(Outcome::LargeSite);
    }
    or_memory(add_to(alloc, site, name, bytes))?;
    Ok(left - count)
}

/// Adds these bytes by this name.
fn add_to(alloc: Global, site: &mut Site, name: &str, bytes: Vec<u8>) -> Result<(), AllocError> {
    let name = String::from_str(alloc, name)?;
    site.add(name, bytes)
}

/// The bytes of the file at this path, or where there are more than `most`, one more than that.
fn bytes_of<X: Files + Eprint>(
    rt: &X,
    alloc: Global,
    path: &str,
    most: u64,
) -> Result<Vec<u8>, Outcome>
    ensures { IfErr result KeepsFromHosting }
{
    match fs::open(rt, path) {
        Ok(file) => bytes_in(rt, alloc, path, file, most.saturating_add(1)),
        Err(error) => Err(unread(rt, path, &error)),
    }
}

/// The first so many bytes of an open file, or all.
fn bytes_in<X: Eprint, F: Read + Drop>(
    rt: &X,
    alloc: Global,
    path: &str,
    file: F,
    most: u64,
) -> Result<Vec<u8>, Outcome>
    ensures { IfErr result KeepsFromHosting }
{
    let mut bytes = Vec::new(alloc);
    match file.take(most).read_to_end(&mut bytes) {
        Ok(_) => Ok(bytes),
        Err(error) => Err(unread(rt, path, &error)),
    }
}

/// How the run ends where this couldn't be read, which is told.
fn unread<X: Eprint>(rt: &X, path: &str, error: &io::Error) -> Outcome
    ensures { KeepsFromHosting result }
{
    tell_site(rt, path, error);
    without_file(error, Outcome::NoSite)
}

/// Whether a plain file, and no folder, is at this path.
fn is_plain<X: Files>(rt: &X, path: &str) -> bool {
    match rt.metadata(path) {
        Ok(metadata) => metadata.is_file(),
        Err(_) => false,
    }
}

/// The path of a file in a folder.
fn path_of(alloc: Global, folder: &str, name: &str) -> Result<String, AllocError> {
    let mut path = String::from_str(alloc, folder)?;
    path.push_str("/")?;
    path.push_str(name)?;
    Ok(path)
}

/// Whether a file of this name is served.
fn is_name(name: &[u8]) -> bool {
    let Some(first) = name.first() else {
        return false;
    };
    *first != b'.' && name.iter().all(|byte| is_plain_byte(*byte))
}

/// Whether a name may have this byte.
fn is_plain_byte(byte: u8) -> bool {
    byte.is_ascii_alphanumeric() || byte == b'.' || byte == b'-' || byte == b'_'
}
