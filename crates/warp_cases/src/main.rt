//! A program for tests alone. It makes public calls of the other crates, as its words and the lines of standard input
//! ask, and prints what each of them came to. `.ci/cases` runs it and compares; `.ci/memory` refuses its calls memory.
//!
//! The first word says which calls: each file here has those of one kind. Standard input begins with a line that
//! names the program which the calls are over: `twice`, or the text of a program file; or the version of programs alone.
//!
//! Each call stands between two marks (`mark.rt`), so that a library which is loaded before it can refuse the requests
//! for memory of that call, and no other. What is told is kept (`transcript.rt`), and printed when all calls are made:
//! no function here has an exit for a line that could not be printed, and so none that drops what the calls are over.
#![tactic(auto)]

mod arenas;
mod boards;
mod bodies;
mod desks;
mod files;
mod follows;
mod forms;
mod lanes;
mod lines;
mod mark;
mod meetings;
mod meter;
mod pieces;
mod programs;
mod pulls;
mod records;
mod replicas;
mod sessions;
mod steps;
mod streams;
mod timelines;
mod transcript;
mod watches;
mod worlds;

use std::alloc::Global;
use std::io::ErrorKind;
use std::time::Clock;
use std::{env, io};
use transcript::Transcript;
use warp_line::{Plain, Timeline};
use warp_run::Warp;

fn main(rt: HostRuntime) -> io::Result<()> {
    let mut words = env::args(&rt)?;
    let _program = words.next();
    let Some(word) = words.next() else {
        return Err(ErrorKind::InvalidInput.into());
    };
    let alloc = rt.alloc();
    let input = io::read_to_string(alloc, rt.stdin())?;
    let (program, rest) = input.as_str().split_once('\n').unwrap_or(("", ""));
    let mut out = Transcript::new(alloc);
    perform(&rt, alloc, &mut out, word.as_str(), program, rest);
    out.print(&rt)
}

/// Makes the calls of this kind, with these lines.
fn perform<X: Clock>(
    rt: &X,
    alloc: Global,
    out: &mut Transcript,
    word: &str,
    program: &str,
    rest: &str,
) {
    match word {
        "twins" => over::<Plain>(alloc, out, "replicas", program, rest),
        "plain" => over::<Plain>(alloc, out, "timelines", program, rest),
        "world" => worlds::perform_once::<Plain>(alloc, out, program, rest),
        "desks" => desks::perform::<Warp>(alloc, out, program, rest),
        "meetings" => meetings::perform::<Warp, Plain>(alloc, out, program, rest),
        "pulls" => pulls::all::<Warp, X>(rt, alloc, out, program, rest),
        "exhausted" => pulls::exhausted(rt, alloc, out, program, rest),
        "endless" => pulls::endless(rt, alloc, out, program, rest),
        "replicas"
        | "timelines"
        | "worlds"
        | "manner"
        | "sessions"
        | "session"
        | "lanes"
        | "watches" => {
            over::<Warp>(alloc, out, word, program, rest);
        }
        _ => over_none(alloc, out, word, program, rest),
    }
}

/// Makes the calls of this kind over timelines of one type.
fn over<T: Timeline>(alloc: Global, out: &mut Transcript, word: &str, program: &str, rest: &str) {
    match word {
        "replicas" => replicas::perform::<T>(alloc, out, program, rest),
        "timelines" => timelines::perform::<T>(alloc, out, program, rest),
        "worlds" => worlds::perform::<T>(alloc, out, program, rest),
        "manner" => sessions::in_manner::<T>(alloc, out, program, rest),
        "sessions" => sessions::all::<T>(alloc, out, program, rest),
        "session" => sessions::one::<T>(alloc, out, program, rest),
        "watches" => watches::perform::<T>(alloc, out, program, rest),
        _ => lanes::perform::<T>(alloc, out, program, rest),
    }
}

/// Makes the calls of this kind, which are over no timeline.
fn over_none(alloc: Global, out: &mut Transcript, word: &str, program: &str, rest: &str) {
    match word {
        "load" => programs::load_twice(alloc, out, program),
        "twice" => programs::twice_twice(alloc, out),
        "raise" => programs::raise_all(alloc, out, program, rest),
        "forms" => forms::perform(out),
        "steps" => steps::perform(alloc, out, program, rest),
        "arenas" => arenas::perform(alloc, out, rest),
        "bodies" => bodies::perform(alloc, out, program, rest),
        "boards" => boards::perform(alloc, out),
        "board" => boards::fill(alloc, out, program, rest),
        "follows" => follows::perform(alloc, out, program, rest),
        "schedule" => worlds::read(alloc, out, program, rest),
        "same" => files::compare(alloc, out, program, rest),
        "parts" => files::tell_parts(alloc, out, program),
        "errors" => files::tell_errors(out),
        "feed" => records::feed_cuts(alloc, out, rest.as_bytes()),
        "records" => records::read_records(alloc, out, rest),
        "replies" => records::read_replies(alloc, out, rest),
        "pieces" => pieces::perform(alloc, out, program, rest),
        _ => out.fail("no calls"),
    }
}
