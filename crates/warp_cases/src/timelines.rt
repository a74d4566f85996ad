//! A timeline by itself. Each line is a call:
//!
//! - `start` makes another one; `prepare` makes room for one name more;
//! - `event ORIGIN TIME MICRO INPUT VALUE` and `withdraw ORIGIN TIME MICRO` put a record, for which room was made
//!   before;
//! - `settle`, and where it is settled `collect TIME MICRO`, and `total`, which tells the first variable and how many
//!   outputs there are.
ghost use Rattle.std.specs.Prelude.{◌≡◌, ◌+◌, ◌<◌, ℕ, None, false, length};
ghost use Rattle.warp_line.specs.Timeline.{Standing, NowStands};
ghost use Rattle.warp_replica.specs.Floor.{comes_behind};
ghost use Rattle.warp_replica.specs.Gives.{tag_of};
ghost use Rattle.warp_step.specs.Counter.{IsUnused};
ghost use Rattle.warp_table.specs.Check.{refusal_of};
ghost use Rattle.warp_table.specs.LogNames.{with_record};
ghost use Rattle.warp_tag.specs.Limits.{most_names};
ghost use Rattle.warp_cases.specs.Timelines.{StandsFew};

use crate::lines::{record_of, tag_of};
use crate::mark::{begin, end};
use crate::programs::program_of;
use crate::transcript::{NO_MEMORY, Transcript, outcome};
use std::alloc::Global;
use std::marker::Brand;
use std::sync::ledger::{Blank, Ledger};
use warp_line::Timeline;
use warp_record::Record;
use warp_replica::Idle;
use warp_step::Program;
use warp_table::Table;

/// The most lines.
const MOST: u32 = 1_000;

/// Makes the calls of the lines over a new timeline of this program.
pub(crate) fn perform<T: Timeline>(
    alloc: Global,
    out: &mut Transcript,
    program: &str,
    lines: &str,
) {
    match program_of(alloc, program) {
        Ok(program) => perform_in::<T>(alloc, out, &program, lines),
        Err(_) => out.fail("no program"),
    }
}

/// The same of a program that is loaded.
fn perform_in<T: Timeline>(alloc: Global, out: &mut Transcript, program: &Program, lines: &str) {
    match T::start(alloc, program) {
        Ok(mut timeline) => make_calls(alloc, out, program, &mut timeline, lines),
        Err(_) => out.fail(NO_MEMORY),
    }
}

/// Makes the calls of the lines.
fn make_calls<T: Timeline>(
    alloc: Global,
    out: &mut Transcript,
    program: &Program,
    timeline: &mut T,
    lines: &str,
)
    requires { StandsFew T.stands_for timeline.old program.now 0 }
{
    let mut calls = 0;
    for line in lines.lines() {
        if calls >= MOST {
            return out.fail("too many lines");
        }
        make_call(alloc, out, program, timeline, calls, line);
        calls += 1;
    }
}

/// Makes the call of a line, behind so many others.
#[tactic(auto, using(crate::proofs::TimelineLemmas::still, crate::proofs::TimelineLemmas::kept, crate::proofs::TimelineLemmas::room, crate::proofs::TimelineLemmas::named, crate::proofs::TimelineLemmas::both))]
fn make_call<T: Timeline>(
    alloc: Global,
    out: &mut Transcript,
    program: &Program,
    timeline: &mut T,
    calls: u32,
    line: &str,
)
    requires few { StandsFew T.stands_for timeline.old program.now calls }
    requires calls { calls < 1000 }
    ensures { StandsFew T.stands_for timeline.new program.now (calls + 1) }
{
    if line == "start" {
        return start::<T>(alloc, out, program);
    }
    if line == "prepare" {
        return prepare(alloc, out, timeline);
    }
    if line == "settle" {
        return settle(alloc, out, program, timeline);
    }
    if line == "total" {
        return total(out, timeline);
    }
    match line.strip_prefix("collect ") {
        Some(text) => collect(alloc, out, timeline, text),
        None => take(alloc, out, program, timeline, line),
    }
}

/// Makes another timeline.
fn start<T: Timeline>(alloc: Global, out: &mut Transcript, program: &Program) {
    begin(alloc);
    let made = T::start(alloc, program);
    end(alloc);
    out.say(outcome(made.is_ok()));
}

/// Makes room for one name more.
fn prepare<T: Timeline>(alloc: Global, out: &mut Transcript, timeline: &mut T)
    requires { (m : Standing) × T.stands_for timeline.old m × (length m.table < most_names) }
    ensures { (m : Standing) → T.stands_for timeline.old m → T.stands_for timeline.new m }
{
    begin(alloc);
    let prepared = timeline.prepare(alloc);
    end(alloc);
    out.say(outcome(prepared.is_ok()));
}

/// Puts the record of a line, where the program has no reason against it and it is not behind.
#[tactic(auto, using(crate::proofs::TimelineLemmas::still, crate::proofs::TimelineLemmas::kept, crate::proofs::TimelineLemmas::named))]
fn take<T: Timeline>(
    alloc: Global,
    out: &mut Transcript,
    program: &Program,
    timeline: &mut T,
    text: &str,
)
    requires { (m : Standing) × T.stands_for timeline.old m × (length m.table < most_names)
        × (m.program ≡ program.now) }
    ensures { (calls : ℕ) → StandsFew T.stands_for timeline.old program.now calls →
        StandsFew T.stands_for timeline.new program.now (calls + 1) }
{
    let Some(record) = record_of(text) else {
        return out.fail("no record");
    };
    if Table::check(program, &record).is_err() || comes_behind(timeline, &record) {
        return out.say("not put");
    }
    // Where room was made before, this asks for none.
    if timeline.prepare(alloc).is_err() {
        return out.fail(NO_MEMORY);
    }
    begin(alloc);
    enter(program, timeline, &record);
    end(alloc);
    out.say("put");
}

/// `put` of a record that this program, which is the timeline's, has no reason against.
fn enter<T: Timeline>(program: &Program, timeline: &mut T, record: &Record)
    requires prepared { T.is_prepared timeline.old }
    requires ahead { comes_behind (T.floor timeline.old) «record».now ≡ false }
    requires fits { refusal_of program.now «record».now ≡ None }
    requires stands { (m : Standing) × T.stands_for timeline.old m × (m.program ≡ program.now) }
    ensures { (calls : ℕ) → StandsFew T.stands_for timeline.old program.now calls →
        StandsFew T.stands_for timeline.new program.now (calls + 1) }
{
    put(timeline, record);
}

/// Whether a record is of a name behind what the timeline let go of.
fn comes_behind<T: Timeline>(timeline: &T, record: &Record) -> bool
    ensures { result ≡ comes_behind (T.floor timeline.now) «record».now }
{
    match *record {
        Record::Event { tag, .. } => timeline.behind(tag),
        Record::Withdraw { tag, .. } => timeline.behind(tag),
        Record::Announce { .. } => false,
        Record::Joint { .. } => false,
    }
}

/// Puts a record that the program has no reason against, and that is not behind, where there is room for it.
fn put<T: Timeline>(timeline: &mut T, record: &Record)
    requires prepared { T.is_prepared timeline.old }
    requires ahead { comes_behind (T.floor timeline.old) «record».now ≡ false }
    requires allowed { (m : Standing) × T.stands_for timeline.old m × (refusal_of m.program «record».now ≡ None) }
    ensures { (m : Standing) → T.stands_for timeline.old m → refusal_of m.program «record».now ≡ None →
        NowStands T.stands_for T.SLACK T.drops (tag_of «record».now) timeline.new m (with_record m.table «record».now) }
{
    match *record {
        Record::Event {
            origin,
            tag,
            input,
            value,
        } => timeline.put(origin, tag, input, value),
        Record::Withdraw { origin, tag } => timeline.withdraw(origin, tag),
        // What it says counts for no event.
        Record::Announce { .. } => {}
        Record::Joint { .. } => {}
    }
}

/// Settles.
fn settle<T: Timeline>(alloc: Global, out: &mut Transcript, program: &Program, timeline: &mut T)
    requires { (m : Standing) × T.stands_for timeline.old m × (m.program ≡ program.now) }
    ensures { (calls : ℕ) → StandsFew T.stands_for timeline.old program.now calls →
        StandsFew T.stands_for timeline.new program.now calls }
{
    begin(alloc);
    let is_settled = settle_in::<T, Brand>(alloc, program, timeline, Blank::new(1));
    end(alloc);
    out.say(if is_settled { "settled" } else { NO_MEMORY });
}

/// Settles; whether there was memory for it. Its ticks are counted in this ledger.
fn settle_in<T: Timeline, L: Ledger>(
    alloc: Global,
    program: &Program,
    timeline: &mut T,
    blank: Blank,
) -> bool
    requires blank { IsUnused blank L.name L.parts }
    requires stands { (m : Standing) × T.stands_for timeline.old m × (m.program ≡ program.now) }
    ensures { (calls : ℕ) → StandsFew T.stands_for timeline.old program.now calls →
        StandsFew T.stands_for timeline.new program.now calls }
{
    let mut idle = Idle::<L>::new(blank);
    timeline.settle(alloc, program, &mut idle).is_ok()
}

/// Collects what is before a tag, where the timeline is settled.
fn collect<T: Timeline>(alloc: Global, out: &mut Transcript, timeline: &mut T, text: &str)
    ensures { (m : Standing) → T.stands_for timeline.old m → T.stands_for timeline.new m }
{
    let Some(tag) = tag_of(text) else {
        return out.fail("no tag");
    };
    if !timeline.is_settled() {
        return out.say("not settled");
    }
    begin(alloc);
    timeline.collect(tag);
    end(alloc);
    out.say("collected");
}

/// Tells the first variable, and how many outputs there are, where the timeline is settled.
fn total<T: Timeline>(out: &mut Transcript, timeline: &T) {
    if !timeline.is_settled() {
        return out.say("not settled");
    }
    let count = timeline.outputs().len();
    match timeline.state().vars().first() {
        Some(value) => out.say(format_args!("total {value}, {count} outputs")),
        None => out.say(format_args!("{count} outputs")),
    }
}
