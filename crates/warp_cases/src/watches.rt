//! What watchers of a replica are told. Each line is a call:
//!
//! - `take RECORD` takes a record, and settles;
//! - `update` shows what is released now;
//! - `vars`, `releases`, `release I`, `horizon`, `breaches`, `log FROM UNTIL`, `released FROM UNTIL` tell what is asked,
//!   and then the first place or number that was not told, and whether `frozen` was.
use crate::lines::{number_of, record_of, word_of};
use crate::mark::{begin, end};
use crate::programs::replica_of;
use crate::transcript::{NO_MEMORY, Transcript};
use std::alloc::Global;
use warp_line::Timeline;
use warp_replica::Replica;
use warp_watch::{Question, Shown, tell};

/// Makes the calls of the lines over a new replica of this program.
pub(crate) fn perform<T: Timeline>(
    alloc: Global,
    out: &mut Transcript,
    program: &str,
    lines: &str,
) {
    match replica_of::<T>(alloc, program) {
        Ok(mut replica) => make_calls(alloc, out, &mut replica, lines),
        Err(_) => out.fail("no replica"),
    }
}

/// Makes the calls of the lines.
fn make_calls<T: Timeline>(
    alloc: Global,
    out: &mut Transcript,
    replica: &mut Replica<T>,
    lines: &str,
) {
    let mut shown = Shown::new(alloc);
    if replica.settle_uncounted(alloc).is_err() {
        return out.fail(NO_MEMORY);
    }
    for line in lines.lines() {
        make_call(alloc, out, replica, &mut shown, line);
    }
}

/// Makes the call of a line.
fn make_call<T: Timeline>(
    alloc: Global,
    out: &mut Transcript,
    replica: &mut Replica<T>,
    shown: &mut Shown,
    line: &str,
) {
    let (word, rest) = word_of(line);
    match word {
        "take" => take(alloc, out, replica, rest),
        "update" => update(alloc, out, replica, shown),
        _ => match question_of(word, rest) {
            Some(question) => ask(alloc, out, replica, shown, question),
            None => out.fail("no call"),
        },
    }
}

/// Takes the record that a text spells, and settles.
fn take<T: Timeline>(alloc: Global, out: &mut Transcript, replica: &mut Replica<T>, text: &str) {
    let Some(record) = record_of(text) else {
        return out.fail("no record");
    };
    begin(alloc);
    let took = replica.take(alloc, &record);
    let settled = replica.settle_uncounted(alloc);
    end(alloc);
    out.say(if took.is_ok() && settled.is_ok() {
        "taken"
    } else {
        "refused"
    });
}

/// Shows what is released, where the replica is settled.
fn update<T: Timeline>(
    alloc: Global,
    out: &mut Transcript,
    replica: &Replica<T>,
    shown: &mut Shown,
) {
    if !replica.is_settled() {
        return out.say("not settled");
    }
    begin(alloc);
    let updated = shown.update(replica);
    end(alloc);
    match updated {
        Ok(()) => out.say(format_args!("shown {} {}", shown.len(), shown.is_frozen())),
        Err(_) => out.say(NO_MEMORY),
    }
}

/// Tells what is asked, where the replica is settled.
fn ask<T: Timeline>(
    alloc: Global,
    out: &mut Transcript,
    replica: &Replica<T>,
    shown: &Shown,
    question: Question,
) {
    if !replica.is_settled() {
        return out.say("not settled");
    }
    begin(alloc);
    let told = tell(alloc, replica, shown, question);
    end(alloc);
    match told {
        Ok(told) => {
            out.say_text(&told.text);
            out.say(format_args!("next {} of {}, {}", told.next, told.len, told.frozen));
        }
        Err(_) => out.say(NO_MEMORY),
    }
}

/// The question that these words ask.
fn question_of(word: &str, rest: &str) -> Option<Question> {
    match word {
        "vars" => Some(Question::Vars),
        "releases" => Some(Question::Releases),
        "release" => Some(Question::Release(number_of(rest)?)),
        "cells" => {
            let (first, count) = span_of(rest)?;
            Some(Question::Cells { first, count })
        }
        "counts" => Some(Question::Counts(number_of(rest)?)),
        "reached" => Some(Question::Reached(number_of(rest)?)),
        "horizon" => Some(Question::Horizon),
        "breaches" => Some(Question::Breaches),
        "log" => {
            let (from, until) = span_of(rest)?;
            Some(Question::Log { from, until })
        }
        "released" => {
            let (from, until) = span_of(rest)?;
            Some(Question::Released { from, until })
        }
        _ => None,
    }
}

/// The two numbers of a span.
fn span_of(text: &str) -> Option<(u32, u32)> {
    let (from, until) = word_of(text);
    Some((number_of(from)?, number_of(until)?))
}
