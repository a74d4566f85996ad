//! A timeline made anew from the names of a table, where a record came behind what the old one let go of.
ghost use Rattle.std.specs.Prelude.{◌≡◌, ◌+◌, ◌<◌, ◌≤◌, [], fold, length, List, None};
ghost use Rattle.std.specs.Prelude.{All, IfOk, OnOk};
ghost use Rattle.warp_tag.specs.Limits.{most_names, most_records, widest};
ghost use Rattle.warp_tag.specs.Moment.{Moment};
ghost use Rattle.warp_tag.specs.declared.entry.Entry.{Entry};
ghost use Rattle.warp_step.specs.Run.{Row};
ghost use Rattle.warp_line.specs.Timeline.{Standing, NowStands};
ghost use Rattle.warp_table.specs.Check.{refusal_of};
ghost use Rattle.warp_table.specs.Names.{Tells};
ghost use Rattle.warp_table.specs.Records.{set_of};
ghost use Rattle.warp_table.specs.LogNames.{table_of, with_record};
ghost use Rattle.warp_replica.specs.Rebuilding.{IsAllowedName, StandsWith, event_of, with_mark, with_name, with_payload};
ghost use Rattle.warp_replica.specs.Rebuilding.{withdrawal_of};
ghost use Rattle.warp_replica.specs.Replica.{AreAllowed};

use crate::entering::enter_record;
use crate::names::names_in_order;
use std::alloc::Global;
use warp_line::Timeline;
use warp_record::Record;
use warp_step::Program;
use warp_table::Table;
use warp_tag::{Entry, OutOfMemory};

/// A timeline of this program over the names of a table and of one more record, of which nothing was let go of. The
/// program has no reason against any of the records.
pub(crate) fn rebuilt<T: Timeline>(
    alloc: Global,
    program: &Program,
    table: &Table,
    record: &Record,
) -> Result<T, OutOfMemory>
    requires allowed { AreAllowed program.now table.now }
    requires fits { refusal_of program.now «record».now ≡ None }
    requires room { length table.now < most_records widest }
    ensures stands { IfOk result
        (λ t. StandsWith T.stands_for t program.now (with_record (table_of table.now) «record».now)) }
    ensures floor { IfOk result (λ t. T.floor t ≡ None) }
{
    let names = names_in_order(alloc, table)?;
    let mut fresh = over_names(alloc, program, &names)?;
    bring(alloc, program, &mut fresh, record)?;
    Ok(fresh)
}

/// A timeline of this program over these names.
fn over_names<T: Timeline>(
    alloc: Global,
    program: &Program,
    names: &[Entry],
) -> Result<T, OutOfMemory>
    requires allowed { All (IsAllowedName program.now) names.now }
    requires few { length names.now ≤ most_records widest }
    ensures stands { IfOk result (λ t. StandsWith T.stands_for t program.now (fold with_name [] names.now)) }
    ensures floor { IfOk result (λ t. T.floor t ≡ None) }
{
    let mut fresh: T = T::start(alloc, program)?;
    for name in names {
        put_name(alloc, program, &mut fresh, name)?;
    }
    Ok(fresh)
}

/// Puts what is known of a name into a run of which nothing was let go of.
fn put_name<T: Timeline>(
    alloc: Global,
    program: &Program,
    timeline: &mut T,
    name: &Entry,
) -> Result<(), OutOfMemory>
    requires stands { (table : List Entry) × StandsWith T.stands_for timeline.old program.now table ×
        (length table + 1 < most_names) }
    requires floor { T.floor timeline.old ≡ None }
    requires allowed { IsAllowedName program.now name.now }
    ensures stands { OnOk result ((table : List Entry) → StandsWith T.stands_for timeline.old program.now table →
        StandsWith T.stands_for timeline.new program.now (with_name table name.now)) }
    ensures floor { T.floor timeline.new ≡ None }
{
    put_payload(alloc, program, timeline, name)?;
    put_mark(alloc, program, timeline, name)?;
    Ok(())
}

/// Puts the event of a name, where it has one, into a run of which nothing was let go of.
fn put_payload<T: Timeline>(
    alloc: Global,
    program: &Program,
    timeline: &mut T,
    name: &Entry,
) -> Result<(), OutOfMemory>
    requires stands { (table : List Entry) × StandsWith T.stands_for timeline.old program.now table ×
        (length table < most_names) }
    requires floor { T.floor timeline.old ≡ None }
    requires allowed { IsAllowedName program.now name.now }
    ensures stands { OnOk result ((table : List Entry) → StandsWith T.stands_for timeline.old program.now table →
        StandsWith T.stands_for timeline.new program.now (with_payload name.now table name.now.event)) }
    ensures floor { T.floor timeline.new ≡ None }
{
    let Some((input, value)) = name.event else {
        return Ok(());
    };
    let event = Record::Event {
        origin: name.origin,
        tag: name.tag,
        input,
        value,
    };
    bring(alloc, program, timeline, &event)
}

/// Withdraws a name that is withdrawn, in a run of which nothing was let go of.
fn put_mark<T: Timeline>(
    alloc: Global,
    program: &Program,
    timeline: &mut T,
    name: &Entry,
) -> Result<(), OutOfMemory>
    requires stands { (table : List Entry) × StandsWith T.stands_for timeline.old program.now table ×
        (length table < most_names) }
    requires floor { T.floor timeline.old ≡ None }
    requires allowed { IsAllowedName program.now name.now }
    ensures stands { OnOk result ((table : List Entry) → StandsWith T.stands_for timeline.old program.now table →
        StandsWith T.stands_for timeline.new program.now (with_mark name.now table)) }
    ensures floor { T.floor timeline.new ≡ None }
{
    if !name.withdrawn {
        return Ok(());
    }
    let withdrawal = Record::Withdraw {
        origin: name.origin,
        tag: name.tag,
    };
    bring(alloc, program, timeline, &withdrawal)
}

/// Makes room for a record that the program has no reason against, and puts it into a run of which nothing was let go
/// of.
fn bring<T: Timeline>(
    alloc: Global,
    program: &Program,
    timeline: &mut T,
    record: &Record,
) -> Result<(), OutOfMemory>
    requires stands { (table : List Entry) × StandsWith T.stands_for timeline.old program.now table ×
        (length table < most_names) }
    requires floor { T.floor timeline.old ≡ None }
    requires fits { refusal_of program.now «record».now ≡ None }
    ensures stands { OnOk result ((table : List Entry) → StandsWith T.stands_for timeline.old program.now table →
        StandsWith T.stands_for timeline.new program.now (with_record table «record».now)) }
    ensures floor { T.floor timeline.new ≡ None }
{
    // The contract alone speaks of the program.
    let _ = program;
    timeline.prepare(alloc)?;
    enter_record(timeline, record);
    Ok(())
}
