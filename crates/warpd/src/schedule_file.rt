//! The schedule that a word names: the bytes of its file.
ghost use Rattle.std.specs.Prelude.{◌+◌, IfErr, IfOk};
ghost use Rattle.warp_world.specs.Schedule.{longest_schedule};
ghost use Rattle.warpd.specs.Outcome.{IsFrontOf, IsUnread};

use crate::file_bytes::{first_bytes, without_file};
use crate::outcome::Outcome;
use std::alloc::Global;
use std::fs::{self, Files};
use std::io::Read;

/// One more than the most bytes of a schedule: as many are read, so that a longer one is seen to be longer.
const ENOUGH: u64 = 1_048_577;

/// The bytes of the schedule in the file at this path.
pub(crate) fn schedule_bytes<F: Files>(
    files: &F,
    alloc: Global,
    name: &str,
) -> Result<Vec<u8>, Outcome>
    ensures { IfErr result IsUnread }
{
    match fs::open(files, name) {
        Ok(file) => enough_bytes(alloc, file),
        Err(error) => Err(without_file(&error, Outcome::NoSchedule)),
    }
}

/// All bytes of a reader, or where there are more than a schedule may have, so many that it is seen.
fn enough_bytes<R: Read + Drop>(alloc: Global, reader: R) -> Result<Vec<u8>, Outcome>
    ensures bytes { IfOk result (λ bytes. IsFrontOf (longest_schedule + 1) (R.remaining reader) bytes.items) }
    ensures err { IfErr result IsUnread }
{
    first_bytes(alloc, reader, ENOUGH, Outcome::NoSchedule)
}
