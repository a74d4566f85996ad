//! Two replicas over two timelines that took the same records in other orders, with repeats, a merge, settling and
//! collecting between: what both reply to each query, and how many outputs each releases.
ghost use Rattle.std.specs.Prelude.{◌≡◌, IsTrue, OnOk};
ghost use Rattle.warp_table.specs.Records.{set_of};

use crate::lines::{record_of, word_of};
use crate::programs::replica_of;
use crate::transcript::{NO_MEMORY, Transcript};
use std::alloc::{AllocError, Global};
use warp_line::Timeline;
use warp_record::Query;
use warp_replica::Replica;
use warp_world::{releases, replies};

/// Queries of which none asks for a place of the log.
const QUERIES: [Query; 8] = [
    Query::Var(0),
    Query::Outputs,
    Query::Output(0),
    Query::Horizon,
    Query::Released,
    Query::Lost,
    Query::Breach(0),
    Query::Breach(1),
];

/// Each line begins with `one` or `other`, and is a record that this replica takes. At an empty line both are settled,
/// the other collects, and what each releases is told; at the end each takes what it lacks of the other's records, and
/// all replies are told.
pub(crate) fn perform<T: Timeline, U: Timeline>(
    alloc: Global,
    out: &mut Transcript,
    program: &str,
    lines: &str,
) {
    match replica_of::<T>(alloc, program) {
        Ok(mut one) => perform_with::<T, U>(alloc, out, &mut one, program, lines),
        Err(_) => out.fail("no replica"),
    }
}

/// The same of this replica and another one.
fn perform_with<T: Timeline, U: Timeline>(
    alloc: Global,
    out: &mut Transcript,
    one: &mut Replica<T>,
    program: &str,
    lines: &str,
) {
    match replica_of::<U>(alloc, program) {
        Ok(mut other) => bring_together(alloc, out, one, &mut other, lines),
        Err(_) => out.fail("no replica"),
    }
}

/// Has both take the records of the lines, and then each other's, and tells what they reply and release.
fn bring_together<T: Timeline, U: Timeline>(
    alloc: Global,
    out: &mut Transcript,
    one: &mut Replica<T>,
    other: &mut Replica<U>,
    lines: &str,
) {
    for line in lines.lines() {
        take_or_pause(alloc, out, one, other, line);
    }
    if !one.same_program(other) {
        return out.fail("another program");
    }
    if meet(alloc, one, other).is_err() {
        return out.fail(NO_MEMORY);
    }
    reply_alike(out, one, other);
    say_released(out, one, other);
}

/// Takes the record of a line, or pauses at an empty one.
fn take_or_pause<T: Timeline, U: Timeline>(
    alloc: Global,
    out: &mut Transcript,
    one: &mut Replica<T>,
    other: &mut Replica<U>,
    line: &str,
) {
    if line.is_empty() {
        return pause(alloc, out, one, other);
    }
    let (name, text) = word_of(line);
    if name == "one" {
        return take(alloc, out, one, text);
    }
    take(alloc, out, other, text);
}

/// Takes the record that a text spells.
fn take<T: Timeline>(alloc: Global, out: &mut Transcript, replica: &mut Replica<T>, text: &str) {
    match record_of(text) {
        Some(record) => {
            if replica.take(alloc, &record).is_err() {
                out.fail("refused");
            }
        }
        None => out.fail("no record"),
    }
}

/// Settles both, has the other collect, and tells what each releases.
fn pause<T: Timeline, U: Timeline>(
    alloc: Global,
    out: &mut Transcript,
    one: &mut Replica<T>,
    other: &mut Replica<U>,
) {
    if one.settle_uncounted(alloc).is_err() {
        return out.fail(NO_MEMORY);
    }
    if other.settle_uncounted(alloc).is_err() {
        return out.fail(NO_MEMORY);
    }
    out.say_reply(&other.collect());
    if one.same_program(other) {
        say_released(out, one, other);
    }
}

/// Each of the two takes what it lacks of the other's records, and is settled.
fn meet<T: Timeline, U: Timeline>(
    alloc: Global,
    one: &mut Replica<T>,
    other: &mut Replica<U>,
) -> Result<(), AllocError>
    requires { one.old.program ≡ other.old.program }
    ensures settled { OnOk result (IsTrue (T.settled one.new.timeline) × IsTrue (U.settled other.new.timeline)) }
    ensures program { OnOk result (one.new.program ≡ other.new.program) }
    ensures records { OnOk result (set_of one.new.records ≡ set_of other.new.records) }
{
    let Ok(_count) = one.merge(alloc, other) else {
        return Err(AllocError);
    };
    let Ok(_more) = other.merge(alloc, one) else {
        return Err(AllocError);
    };
    one.settle_uncounted(alloc)?;
    other.settle_uncounted(alloc)?;
    Ok(())
}

/// Tells what both reply to each query.
fn reply_alike<T: Timeline, U: Timeline>(out: &mut Transcript, one: &Replica<T>, other: &Replica<U>)
    requires settled { IsTrue (T.settled one.now.timeline) × IsTrue (U.settled other.now.timeline) }
    requires program { one.now.program ≡ other.now.program }
    requires records { set_of one.now.records ≡ set_of other.now.records }
{
    for query in QUERIES {
        let (first, second) = replies(one, other, query);
        let reply = one.answer(query);
        let alike = first == reply && second == reply;
        out.say(format_args!("alike {alike}"));
        out.say_reply(&reply);
    }
}

/// Tells how many outputs each of the two releases.
fn say_released<T: Timeline, U: Timeline>(
    out: &mut Transcript,
    one: &Replica<T>,
    other: &Replica<U>,
)
    requires settled { IsTrue (T.settled one.now.timeline) × IsTrue (U.settled other.now.timeline) }
    requires program { one.now.program ≡ other.now.program }
{
    let (first, second) = releases(one, other);
    out.say(format_args!("released {} and {}", first.len(), second.len()));
}
