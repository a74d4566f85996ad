//! Who has a replica execute what lines have brought.

use std::alloc::Global;
use warp_line::Timeline;
use warp_replica::Replica;
use warp_tag::OutOfMemory;

/// Has a replica execute what is not done, behind the last line of a visit: so who looks at the steps of a run may have
/// them counted by a meter of its own.
pub trait Settler<T: Timeline> {
    ghost use Rattle.std.specs.Prelude.{◌≡◌, false, IsOk, IsTrue, OnErr, OnOk};

    /// Executes what is not done of the replica: `Err` leaves it done through some tag, and it may be settled later.
    /// Nothing else changes, and of a settled replica nothing does.
    fn settle(&mut self, alloc: Global, replica: &mut Replica<T>) -> Result<(), OutOfMemory>
        ensures program { replica.new.program ≡ replica.old.program }
        ensures records { replica.new.records ≡ replica.old.records }
        ensures floor { T.floor replica.new.timeline ≡ T.floor replica.old.timeline }
        ensures settled { OnOk result (IsTrue (T.settled replica.new.timeline)) }
        ensures unsettled { OnErr result (T.settled replica.new.timeline ≡ false) }
        ensures refused { OnErr result (T.refused replica.new.timeline) }
        ensures idle { IsTrue (T.settled replica.old.timeline) → IsOk result × (replica.new ≡ replica.old) };
}

/// Counts no steps.
#[derive(Clone, Copy)]
pub(crate) struct Uncounted;

impl<T: Timeline> Settler<T> for Uncounted {
    #[inline(always)]
    fn settle(&mut self, alloc: Global, replica: &mut Replica<T>) -> Result<(), OutOfMemory> {
        replica.settle_uncounted(alloc)
    }
}
