//! Two replicas of one program. Each line is a call of the first:
//!
//! - `take RECORD`, `settle`, `answer QUERY` where it is settled, `collect` likewise, `ask LINE`;
//! - `rows` settles, and tells how many rows that executed;
//! - `merge` takes what the second has, `exchange` makes the second the first;
//! - `raise` makes it the one that is raised from it, `raise_to V` the one of this version, or of a later one that it has;
//! - `outputs` tells all outputs where it is settled, and that there are no more;
//! - `length` tells how long its log is, `is_settled` whether it is settled, and `behind TIME MICRO` whether a tag is
//!   behind what it let go of.
ghost use Rattle.std.specs.Prelude.{◌≡◌, IsTrue};
ghost use Rattle.warp_step.specs.Counter.{IsUnused};

use crate::lines::{form_of, line_of, query_of, record_of, tag_of, word_of};
use crate::mark::{begin, end};
use crate::meter::Tally;
use crate::programs::replica_of;
use crate::transcript::{NO_MEMORY, Transcript};
use std::alloc::Global;
use std::marker::Brand;
use std::mem;
use std::sync::ledger::{Blank, Ledger};
use warp_line::Timeline;
use warp_record::{Query, Refusal};
use warp_replica::{Replica, Took};

/// The most outputs that are told.
const MOST_OUTPUTS: usize = 100_000;

/// Makes the calls of the lines over two new replicas of this program.
pub(crate) fn perform<T: Timeline>(
    alloc: Global,
    out: &mut Transcript,
    program: &str,
    lines: &str,
) {
    match replica_of::<T>(alloc, program) {
        Ok(mut one) => perform_with(alloc, out, &mut one, program, lines),
        Err(_) => out.fail("no replica"),
    }
}

/// The same over this replica and another one.
fn perform_with<T: Timeline>(
    alloc: Global,
    out: &mut Transcript,
    one: &mut Replica<T>,
    program: &str,
    lines: &str,
) {
    match replica_of::<T>(alloc, program) {
        Ok(mut other) => make_calls(alloc, out, one, &mut other, lines),
        Err(_) => out.fail("no replica"),
    }
}

/// Makes the calls of the lines.
fn make_calls<T: Timeline>(
    alloc: Global,
    out: &mut Transcript,
    one: &mut Replica<T>,
    other: &mut Replica<T>,
    lines: &str,
) {
    for line in lines.lines() {
        make_call(alloc, out, one, other, line);
    }
}

/// Makes the call of a line.
fn make_call<T: Timeline>(
    alloc: Global,
    out: &mut Transcript,
    one: &mut Replica<T>,
    other: &mut Replica<T>,
    line: &str,
) {
    let (word, rest) = word_of(line);
    match word {
        "take" => take(alloc, out, one, rest),
        "ask" => ask(alloc, out, one, rest),
        "settle" => settle(alloc, out, one),
        "rows" => count_rows(alloc, out, one),
        "collect" => collect(alloc, out, one),
        "merge" => merge(alloc, out, one, other),
        "raise" => raise(alloc, out, one),
        "raise_to" => raise_to(alloc, out, one, rest),
        "exchange" => mem::swap(one, other),
        "answer" => answer(alloc, out, one, rest),
        "outputs" => say_outputs(out, one),
        "length" => out.say(format_args!("length {}", one.len())),
        "is_settled" => out.say(format_args!("settled {}", one.is_settled())),
        "behind" => is_behind(out, one, rest),
        _ => out.fail("no call"),
    }
}

/// Tells whether a tag is behind what the replica let go of.
fn is_behind<T: Timeline>(out: &mut Transcript, replica: &Replica<T>, text: &str) {
    match tag_of(text) {
        Some(tag) => out.say(format_args!("behind {}", replica.timeline().behind(tag))),
        None => out.fail("no tag"),
    }
}

/// Takes the record that a text spells.
fn take<T: Timeline>(alloc: Global, out: &mut Transcript, replica: &mut Replica<T>, text: &str) {
    let Some(record) = record_of(text) else {
        return out.fail("no record");
    };
    begin(alloc);
    let took = replica.take(alloc, &record);
    end(alloc);
    match took {
        Ok(Took::New(place)) => out.say(format_args!("taken {place}")),
        Ok(Took::Known(place)) => out.say(format_args!("known {place}")),
        Err(refusal) => out.say(format_args!("refused {}", refusal.number())),
    }
}

/// Makes the replica the one that is raised from it.
fn raise<T: Timeline>(alloc: Global, out: &mut Transcript, replica: &mut Replica<T>) {
    begin(alloc);
    let raised = replica.raise(alloc);
    end(alloc);
    put_raised(out, replica, raised);
}

/// Makes the replica the one that is raised from it to this version.
fn raise_to<T: Timeline>(
    alloc: Global,
    out: &mut Transcript,
    replica: &mut Replica<T>,
    version: &str,
) {
    let Some(form) = form_of(version) else {
        return out.fail("no version");
    };
    begin(alloc);
    let raised = replica.raise_to(alloc, form);
    end(alloc);
    put_raised(out, replica, raised);
}

/// Puts the raised replica in the place of the old one, where there is one.
fn put_raised<T: Timeline>(
    out: &mut Transcript,
    replica: &mut Replica<T>,
    raised: Result<Replica<T>, Refusal>,
) {
    match raised {
        Ok(raised) => {
            *replica = raised;
            out.say("raised");
        }
        Err(refusal) => out.say(format_args!("refused {}", refusal.number())),
    }
}

/// Answers the line that a text spells.
fn ask<T: Timeline>(alloc: Global, out: &mut Transcript, replica: &mut Replica<T>, text: &str) {
    let Some(line) = line_of(text) else {
        return out.fail("no line");
    };
    begin(alloc);
    let reply = replica.ask(alloc, line);
    end(alloc);
    out.say_reply(&reply);
}

/// Answers the query that a text spells, where the replica is settled.
fn answer<T: Timeline>(alloc: Global, out: &mut Transcript, replica: &Replica<T>, text: &str) {
    let Some(query) = query_of(text) else {
        return out.fail("no query");
    };
    if !replica.is_settled() {
        return out.say("not settled");
    }
    begin(alloc);
    let reply = replica.answer(query);
    end(alloc);
    out.say_reply(&reply);
}

/// Settles.
fn settle<T: Timeline>(alloc: Global, out: &mut Transcript, replica: &mut Replica<T>) {
    begin(alloc);
    let settled = replica.settle_uncounted(alloc);
    end(alloc);
    out.say(if settled.is_ok() {
        "settled"
    } else {
        NO_MEMORY
    });
}

/// Settles, and tells how many rows that executed.
fn count_rows<T: Timeline>(alloc: Global, out: &mut Transcript, replica: &mut Replica<T>) {
    match rows_in::<T, Brand>(alloc, replica, Blank::new(1)) {
        Some(count) => out.say(format_args!("{count} rows")),
        None => out.say(NO_MEMORY),
    }
}

/// Settles; how many rows that executed, where there was memory for it. They are counted in this ledger.
fn rows_in<T: Timeline, L: Ledger>(
    alloc: Global,
    replica: &mut Replica<T>,
    blank: Blank,
) -> Option<u64>
    requires { IsUnused blank L.name L.parts }
{
    let mut tally = Tally::<L>::new(blank);
    match replica.settle(alloc, &mut tally) {
        Ok(()) => Some(tally.count),
        Err(_) => None,
    }
}

/// Tells all outputs, where the replica is settled, and that there are no more.
fn say_outputs<T: Timeline>(out: &mut Transcript, replica: &Replica<T>) {
    if !replica.is_settled() {
        return out.say("not settled");
    }
    let count = replica.timeline().outputs().len();
    if count > MOST_OUTPUTS {
        return out.say("too many outputs");
    }
    for number in 0..=count {
        out.say_reply(&replica.answer(Query::Output(number as u32)));
    }
}

/// Collects, where the replica is settled.
fn collect<T: Timeline>(alloc: Global, out: &mut Transcript, replica: &mut Replica<T>) {
    if !replica.is_settled() {
        return out.say("not settled");
    }
    begin(alloc);
    let reply = replica.collect();
    end(alloc);
    out.say_reply(&reply);
}

/// Takes what the other has, where both run one program.
fn merge<T: Timeline>(
    alloc: Global,
    out: &mut Transcript,
    replica: &mut Replica<T>,
    other: &Replica<T>,
) {
    if !replica.same_program(other) {
        return out.say("another program");
    }
    begin(alloc);
    let merged = replica.merge(alloc, other);
    end(alloc);
    let length = replica.len();
    match merged {
        Ok(count) => out.say(format_args!("merged {count} into {length}")),
        Err((count, refusal)) => {
            let number = refusal.number();
            out.say(format_args!("refused {number} after {count} into {length}"));
        }
    }
}
