//! A second replica with the same log.
ghost use Rattle.std.specs.Prelude.{◌≡◌, IfOk};

use std::alloc::Global;
use warp_line::Timeline;
use warp_replica::Local;
use warp_tag::OutOfMemory;

/// A replica of the same program with the same log, in the same order, of which nothing is done yet. What is tried in one
/// of the two is unknown to the other; the one that is dropped takes nothing with it. It costs a run over the log.
///
/// # Errors
///
/// No memory was to be had for it.
pub fn fork<T: Timeline>(alloc: Global, tab: &Local<T>) -> Result<Local<T>, OutOfMemory>
    ensures program { IfOk result (λ copy. copy.program ≡ tab.now.program) }
    ensures records { IfOk result (λ copy. copy.records ≡ tab.now.records) }
{
    let replica = tab.replica();
    match replica.raise_to(alloc, replica.program().form()) {
        Ok(copy) => Ok(Local::new(alloc, copy)),
        Err(_) => Err(OutOfMemory),
    }
}
