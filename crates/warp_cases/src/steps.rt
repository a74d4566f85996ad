//! Steps of a program. Each line is a call:
//!
//! - `state`, `scratch` and `copy` make another state, another scratch, or a copy of the state;
//! - `pending` tells what is pending, `same` whether the state and its copy are the one of its parts, and whether it is
//!   one with another part;
//! - `next` steps at the least tag of what is pending, `event ORIGIN TIME MICRO INPUT VALUE` steps at this tag with
//!   this value given; each tells the outputs, and the variables behind it.
ghost use Rattle.std.specs.Prelude.{◌≡◌, List, IsTrue, not, vec_len};
ghost use Rattle.std.specs.List.{list_all, list_any};
ghost use Rattle.warp_tag.specs.Moment.{is_before, is_same};
ghost use Rattle.warp_step.specs.Counter.{IsUnused};
ghost use Rattle.warp_step.specs.Scratch.{IsRoomOf};
ghost use Rattle.warp_step.specs.Snapshot.{IsStateOf};
ghost use Rattle.warp_step.specs.Step.{AreInputs};

use crate::lines::record_of;
use crate::mark::{begin, end};
use crate::programs::program_of;
use crate::transcript::{NO_MEMORY, Transcript, outcome};
use std::alloc::Global;
use std::marker::Brand;
use std::str;
use std::sync::ledger::{Blank, Ledger};
use warp_record::Record;
use warp_replica::Idle;
use warp_step::{Given, Meter, Out, Program, Scratch, State, Waiting, step};
use warp_tag::Tag;

/// Makes the calls of the lines over a new state of this program.
pub(crate) fn perform(alloc: Global, out: &mut Transcript, program: &str, lines: &str) {
    match program_of(alloc, program) {
        Ok(program) => {
            perform_in::<Brand>(alloc, out, &program, lines.as_bytes(), Blank::new(1));
        }
        Err(_) => out.fail("no program"),
    }
}

/// The same, of the lines of this text. Steps are counted in this ledger.
fn perform_in<L: Ledger>(
    alloc: Global,
    out: &mut Transcript,
    program: &Program,
    text: &[u8],
    blank: Blank,
)
    requires { IsUnused blank L.name L.parts }
{
    let mut meter = Idle::<L>::new(blank);
    let Ok(mut state) = State::start(alloc, program) else {
        return out.fail(NO_MEMORY);
    };
    let Ok(mut scratch) = Scratch::new(alloc, program) else {
        return out.fail(NO_MEMORY);
    };
    make_calls(
        alloc,
        out,
        program,
        &mut state,
        &mut scratch,
        &mut meter,
        text,
    );
}

/// Makes the calls of the lines of a text.
fn make_calls<M: Meter>(
    alloc: Global,
    out: &mut Transcript,
    program: &Program,
    state: &mut State,
    scratch: &mut Scratch,
    meter: &mut M,
    text: &[u8],
)
    requires state { IsStateOf program.now state.old }
    requires scratch { IsRoomOf program.now scratch.old }
{
    let Ok(lines) = str::from_utf8(text) else {
        return out.fail("no text");
    };
    for line in lines.lines() {
        make_call(alloc, out, program, state, scratch, meter, line);
    }
}

/// Makes the call of a line.
fn make_call<M: Meter>(
    alloc: Global,
    out: &mut Transcript,
    program: &Program,
    state: &mut State,
    scratch: &mut Scratch,
    meter: &mut M,
    line: &str,
)
    requires state { IsStateOf program.now state.old }
    requires scratch { IsRoomOf program.now scratch.old }
    ensures state { IsStateOf program.now state.new }
    ensures scratch { IsRoomOf program.now scratch.new }
{
    if line == "state" {
        return make_state(alloc, out, program);
    }
    if line == "scratch" {
        return make_scratch(alloc, out, program);
    }
    if line == "copy" {
        return copy(alloc, out, state);
    }
    if line == "pending" {
        return say_pending(out, state.pending());
    }
    if line == "same" {
        return say_same(alloc, out, state);
    }
    if line == "next" {
        return step_next(alloc, out, program, state, scratch, meter);
    }
    step_with(alloc, out, program, state, scratch, meter, line);
}

/// Makes another state.
fn make_state(alloc: Global, out: &mut Transcript, program: &Program) {
    begin(alloc);
    let made = State::start(alloc, program);
    end(alloc);
    out.say(outcome(made.is_ok()));
}

/// Makes another scratch.
fn make_scratch(alloc: Global, out: &mut Transcript, program: &Program) {
    begin(alloc);
    let made = Scratch::new(alloc, program);
    end(alloc);
    out.say(outcome(made.is_ok()));
}

/// Copies the state, and tells the variables of the copy.
fn copy(alloc: Global, out: &mut Transcript, state: &State) {
    begin(alloc);
    let copy = state.copy(alloc);
    end(alloc);
    match copy {
        Ok(copy) => say_state(out, &copy),
        Err(_) => out.say(NO_MEMORY),
    }
}

/// Steps at the least tag of what is pending.
fn step_next<M: Meter>(
    alloc: Global,
    out: &mut Transcript,
    program: &Program,
    state: &mut State,
    scratch: &mut Scratch,
    meter: &mut M,
)
    requires state { IsStateOf program.now state.old }
    requires scratch { IsRoomOf program.now scratch.old }
    ensures state { IsStateOf program.now state.new }
    ensures scratch { IsRoomOf program.now scratch.new }
{
    match state.next() {
        Some(tag) => step_at(alloc, out, program, state, scratch, meter, tag, &[]),
        None => out.say("nothing is pending"),
    }
}

/// Steps at the tag of an event, with its value given.
fn step_with<M: Meter>(
    alloc: Global,
    out: &mut Transcript,
    program: &Program,
    state: &mut State,
    scratch: &mut Scratch,
    meter: &mut M,
    text: &str,
)
    requires state { IsStateOf program.now state.old }
    requires scratch { IsRoomOf program.now scratch.old }
    ensures state { IsStateOf program.now state.new }
    ensures scratch { IsRoomOf program.now scratch.new }
{
    let Some(record) = record_of(text) else {
        return out.fail("no record");
    };
    let Record::Event {
        tag,
        input,
        value,
        ..
    } = record
    else {
        return out.fail("no event");
    };
    if input as usize >= program.inputs().len() {
        return out.fail("no input");
    }
    let given = Given { input, value };
    step_at(alloc, out, program, state, scratch, meter, tag, &[given]);
}

/// Steps at a tag with what is given there, where the program may.
fn step_at<M: Meter>(
    alloc: Global,
    out: &mut Transcript,
    program: &Program,
    state: &mut State,
    scratch: &mut Scratch,
    meter: &mut M,
    tag: Tag,
    given: &[Given],
)
    requires state { IsStateOf program.now state.old }
    requires scratch { IsRoomOf program.now scratch.old }
    requires inputs { AreInputs program.now given.now }
    ensures state { IsStateOf program.now state.new }
    ensures scratch { IsRoomOf program.now scratch.new }
{
    let is_in_time = tag.time() <= program.stop();
    let has_microstep = tag.micro() <= program.top();
    let is_next = none_before(state.pending(), tag);
    let is_some = !given.is_empty() || one_at(state.pending(), tag);
    if !is_in_time || !has_microstep || !is_next || !is_some {
        return out.say("no step");
    }
    let Ok(mut outputs) = Vec::with_capacity(alloc, program.outputs().len()) else {
        return out.fail(NO_MEMORY);
    };
    begin(alloc);
    step(program, state, scratch, tag, given, &mut outputs, meter);
    end(alloc);
    say_outputs(out, tag, &outputs);
    say_state(out, state);
}

/// Whether no entry is pending before a tag.
fn none_before(pending: &[Waiting], tag: Tag) -> bool
    ensures { result ≡ list_all (λ w. not (is_before w.tag tag)) pending.now }
{
    for waiting in pending {
        if waiting.tag.is_before(tag) {
            return false;
        }
    }
    true
}

/// Whether an entry is pending at a tag.
fn one_at(pending: &[Waiting], tag: Tag) -> bool
    ensures { result ≡ list_any (λ w. is_same w.tag tag) pending.now }
{
    for waiting in pending {
        if waiting.tag.is_same(tag) {
            return true;
        }
    }
    false
}

/// Tells the tag and the outputs of a step.
fn say_outputs(out: &mut Transcript, tag: Tag, outputs: &[Out]) {
    out.say(format_args!("at {} {}", tag.time(), tag.micro()));
    for output in outputs {
        out.say(format_args!("output {} {}", output.port, output.value));
    }
}

/// Tells the variables of a state, how many entries are pending, and how many were lost.
fn say_state(out: &mut Transcript, state: &State) {
    for value in state.vars() {
        out.say(format_args!("variable {value}"));
    }
    let (pending, lost) = (state.pending().len(), state.lost());
    out.say(format_args!("{pending} pending, {lost} lost"));
}

/// Tells what is pending.
fn say_pending(out: &mut Transcript, pending: &[Waiting]) {
    for waiting in pending {
        let (time, micro) = (waiting.tag.time(), waiting.tag.micro());
        let (target, value) = (waiting.target, waiting.value);
        out.say(format_args!("at {time} {micro}: {target:?}, {value}"));
    }
}

/// Tells whether a state and its copy are the one of its parts, and whether it is one with another part.
fn say_same(alloc: Global, out: &mut Transcript, state: &State) {
    let Ok(copy) = state.copy(alloc) else {
        return out.fail(NO_MEMORY);
    };
    let (vars, pending, lost) = (state.vars(), state.pending(), state.lost());
    let is_same = state.is_same_as(vars, pending, lost);
    let copied = copy.is_same_as(vars, pending, lost);
    let is_other = is_another(state, vars, pending, lost);
    out.say(format_args!("the same {is_same}, copied {copied}, another {is_other}"));
}

/// Whether a state is one without variables, with another entry, or with another count of the lost.
fn is_another(state: &State, vars: &[i64], pending: &[Waiting], lost: u64) -> bool {
    state.is_same_as(&[], pending, lost)
        || state.is_same_as(vars, &[Waiting::default()], lost)
        || state.is_same_as(vars, pending, lost ^ 1)
}
