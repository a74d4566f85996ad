//! What may happen to the replicas of a world.
use warp_record::Record;

/// A move of a schedule. Replicas are numbered from 0, places of a log from 1.
#[derive(Clone, Copy, Debug, PartialEq, Eq)]
pub enum Move {
    /// `make R RECORD`: a new record comes from outside to the replica.
    Make {
        /// The replica that it comes to.
        replica: u32,
        /// The record.
        record: Record,
    },
    /// `carry F I R`: an entry of one replica's log comes to another replica.
    Carry {
        /// The replica whose log has it.
        from: u32,
        /// Its place there.
        place: u32,
        /// The replica that it comes to.
        to: u32,
    },
    /// `collect R`: the replica lets go of what is not needed before its horizon.
    Collect(u32),
    /// `settle R`: the replica executes what is not done.
    Settle(u32),
    /// `restart R`: the replica starts anew, with an empty log.
    Restart(u32),
}
