//! What a host says of the origins that it keeps: that their tags before one are closed, with as many names as there are.
ghost use Rattle.std.specs.Prelude.{◌≡◌, ◌≤◌, ℕ, IfOk};
ghost use Rattle.warp_tag.specs.Limits.{most_records, widest};
ghost use Rattle.warp_table.specs.Closed.{IsDoubled};
ghost use Rattle.warp_table.specs.Records.{set_of};
ghost use Rattle.warp_keep.specs.Judging.{IsClosing, HasCounts, IsJointClosing, HasJointCounts};

use warp_line::Timeline;
use warp_record::{Count, Record};
use warp_replica::Replica;
use warp_tag::{OutOfMemory, Tag};

/// The announcement that closes the origin's tags before this one, with just the counts of its names in the log. Where no
/// name of the origin has two payloads, as none of a kept one has, it may come, and is reached at once. The replica stays
/// as it is, also on an `Err`.
pub fn close<T: Timeline>(
    replica: &mut Replica<T>,
    origin: u32,
    tag: Tag,
) -> Result<Record, OutOfMemory>
    ensures same { replica.new ≡ replica.old }
    ensures counted { IfOk result (HasCounts (set_of replica.old.records) origin tag) }
    ensures closes { ¬ IsDoubled (set_of replica.old.records) origin →
        IfOk result (IsClosing (set_of replica.old.records) origin tag) }
{
    // A log has so few records that its names can be counted.
    let _length = replica.len();
    let counts = replica.counts_before(origin, tag)?;
    Ok(Record::Announce {
        origin,
        tag,
        events: count_of(counts.events),
        withdrawn: count_of(counts.withdrawn),
    })
}

/// The joint announcement that closes the tags before this one of all origins, likewise. It is one of version 4 of programs
/// alone.
pub fn close_jointly<T: Timeline>(replica: &mut Replica<T>, tag: Tag) -> Result<Record, OutOfMemory>
    ensures same { replica.new ≡ replica.old }
    ensures counted { IfOk result (HasJointCounts (set_of replica.old.records) tag) }
    ensures closes { ((origin : ℕ) → ¬ IsDoubled (set_of replica.old.records) origin) →
        IfOk result (IsJointClosing (set_of replica.old.records) tag) }
{
    // As in `close`.
    let _length = replica.len();
    let all = replica.joint_counts_before(tag)?;
    Ok(Record::Joint {
        tag,
        events: count_of(all.events),
        withdrawn: count_of(all.withdrawn),
    })
}

/// The count that is this number.
fn count_of(number: u64) -> Count
    requires { number ≤ most_records widest }
    ensures { result ≡ number }
{
    Count::new(number as u32).unwrap()
}
