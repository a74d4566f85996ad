//! How a record goes into a run.
ghost use Rattle.std.specs.Prelude.{◌≡◌, false, None};
ghost use Rattle.warp_tag.specs.Table.{live};
ghost use Rattle.warp_line.specs.Timeline.{Standing, NowStands};
ghost use Rattle.warp_table.specs.Check.{refusal_of};
ghost use Rattle.warp_table.specs.LogNames.{with_record};
ghost use Rattle.warp_replica.specs.Floor.{comes_behind};
ghost use Rattle.warp_replica.specs.Gives.{tag_of};

use warp_line::Timeline;
use warp_record::Record;

/// Whether a record is of a name behind what the timeline let go of, so that it cannot go into the run as it stands.
#[inline(always)]
pub(crate) fn comes_behind<T: Timeline>(timeline: &T, record: &Record) -> bool
    ensures { result ≡ comes_behind (T.floor timeline.now) «record».now }
{
    match *record {
        Record::Event { tag, .. } => timeline.behind(tag),
        Record::Withdraw { tag, .. } => timeline.behind(tag),
        Record::Announce { .. } => false,
        Record::Joint { .. } => false,
    }
}

/// Puts a record that the program has no reason against, and that is not behind, into a run that has room for it.
#[inline(always)]
pub(crate) fn enter_record<T: Timeline>(timeline: &mut T, record: &Record)
    requires prepared { T.is_prepared timeline.old }
    requires ahead { comes_behind (T.floor timeline.old) «record».now ≡ false }
    requires allowed { (m : Standing) × T.stands_for timeline.old m × (refusal_of m.program «record».now ≡ None) }
    ensures stands { (m : Standing) → T.stands_for timeline.old m → refusal_of m.program «record».now ≡ None →
        NowStands T.stands_for T.SLACK T.drops (tag_of «record».now) timeline.new m (with_record m.table «record».now) }
    ensures settled { (m : Standing) → T.stands_for timeline.old m → refusal_of m.program «record».now ≡ None →
        live (with_record m.table «record».now) ≡ live m.table → T.settled timeline.new ≡ T.settled timeline.old }
    ensures floor { T.floor timeline.new ≡ T.floor timeline.old }
{
    match *record {
        Record::Event {
            origin,
            tag,
            input,
            value,
        } => timeline.put(origin, tag, input, value),
        Record::Withdraw { origin, tag } => timeline.withdraw(origin, tag),
        // What it says counts for no event.
        Record::Announce { .. } => {}
        Record::Joint { .. } => {}
    }
}
