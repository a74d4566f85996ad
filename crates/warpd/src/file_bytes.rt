//! The bytes of a file, no more of them than are of use.
ghost use Rattle.std.specs.Prelude.{◌≡◌, ◌≢◌, ◌⊎◌, IfErr, IfOk};
ghost use Rattle.std.specs.IoError.{error_kind};
ghost use Rattle.std.specs.declared.io.ErrorKind.TheVariants.{OutOfMemory};
ghost use Rattle.warpd.specs.Outcome.{IsFrontOf};

use crate::outcome::Outcome;
use std::alloc::Global;
use std::io::{self, Read};

/// The bytes of a reader, or where there are more than `most`, the first `most` of them. Where they couldn't be read,
/// the run ends as `unread` says, or for want of memory.
pub(crate) fn first_bytes<R: Read + Drop>(
    alloc: Global,
    reader: R,
    most: u64,
    unread: Outcome,
) -> Result<Vec<u8>, Outcome>
    ensures bytes { IfOk result (λ bytes. IsFrontOf most (R.remaining reader) bytes.items) }
    ensures err { IfErr result (λ outcome. (outcome ≡ unread) ⊎ (outcome ≡ Outcome.Memory)) }
{
    let mut bytes = Vec::new(alloc);
    let mut front = reader.take(most);
    match front.read_to_end(&mut bytes) {
        Ok(_) => Ok(bytes),
        Err(error) => Err(without_file(&error, unread)),
    }
}

/// How the run ends where a file couldn't be opened or read for this error: for want of memory, or as `unread` says.
pub(crate) fn without_file(error: &io::Error, unread: Outcome) -> Outcome
    ensures memory { error_kind error.now ≡ OutOfMemory → result ≡ Outcome.Memory }
    ensures file { error_kind error.now ≢ OutOfMemory → result ≡ unread }
    ensures either { (result ≡ unread) ⊎ (result ≡ Outcome.Memory) }
{
    if error.kind() == io::ErrorKind::OutOfMemory {
        Outcome::Memory
    } else {
        unread
    }
}
