//! Two replicas of one program as desks. Each line is a call:
//!
//! - `pull` has the first take what the second replies to the next question of a puller, and tells what that came to,
//!   and which place comes next;
//! - `hear REPLY` has the first take what this reply to that question leads to, and tells the same;
//! - `exchange` makes the second the first;
//! - of the first, `is_settled` tells whether it is settled, `held` how many names its timeline holds, and
//!   `behind TIME MICRO` whether a tag is behind what it let go of;
//! - any other line is one of a session, which the first is asked.
ghost use Rattle.std.specs.Prelude.{IfSome};
ghost use Rattle.warp_tag.specs.Limits.{widest};
ghost use Rattle.warp_record.specs.Reply.{IsReply};

use crate::lines::{line_of, tag_of};
use crate::programs::replica_of;
use crate::transcript::Transcript;
use std::alloc::Global;
use std::mem;
use warp_exchange::{Desk, Pulled, Puller};
use warp_line::Timeline;
use warp_record::{Line, Reply, read_reply};
use warp_replica::Local;
use warp_run::Warp;
use warp_tag::Form;

/// A timeline whose names can be counted.
pub(crate) trait Holding: Timeline {
    /// How many names it holds.
    fn names_held(&self) -> usize;
}

impl Holding for Warp {
    fn names_held(&self) -> usize {
        self.held()
    }
}

/// Makes the calls of the lines over two new desks of this program.
pub(crate) fn perform<T: Holding>(alloc: Global, out: &mut Transcript, program: &str, lines: &str) {
    match replica_of::<T>(alloc, program) {
        Ok(replica) => {
            let mut one = Local::new(alloc, replica);
            perform_with(alloc, out, &mut one, program, lines);
        }
        Err(_) => out.fail("no replica"),
    }
}

/// The same over this desk and another one.
fn perform_with<T: Holding>(
    alloc: Global,
    out: &mut Transcript,
    one: &mut Local<T>,
    program: &str,
    lines: &str,
) {
    match replica_of::<T>(alloc, program) {
        Ok(replica) => {
            let mut other = Local::new(alloc, replica);
            make_calls(out, one, &mut other, lines);
        }
        Err(_) => out.fail("no replica"),
    }
}

/// Makes the calls of the lines.
fn make_calls<T: Holding>(
    out: &mut Transcript,
    one: &mut Local<T>,
    other: &mut Local<T>,
    lines: &str,
) {
    let mut puller = Puller::new();
    for line in lines.lines() {
        make_call(out, one, other, &mut puller, line);
    }
}

/// Makes the call of a line.
fn make_call<T: Holding>(
    out: &mut Transcript,
    one: &mut Local<T>,
    other: &mut Local<T>,
    puller: &mut Puller,
    line: &str,
) {
    if line == "pull" {
        return pull(out, puller, other, one);
    }
    if line == "exchange" {
        return mem::swap(one, other);
    }
    if line == "is_settled" {
        return out.say(format_args!("settled {}", one.replica().is_settled()));
    }
    if line == "held" {
        return out.say(format_args!("{} names", one.replica().timeline().names_held()));
    }
    if let Some(text) = line.strip_prefix("hear ") {
        return hear(out, puller, read_reply(Form::Four, text.as_bytes()), one);
    }
    match line.strip_prefix("behind ") {
        Some(tag) => is_behind(out, one, tag),
        None => ask(out, one, line),
    }
}

/// Asks the other desk what the puller wants to know, and does what its reply leads to.
fn pull<D: Desk, E: Desk>(out: &mut Transcript, puller: &mut Puller, other: &mut D, desk: &mut E) {
    let reply = other.ask(Line::Ask(puller.ask()));
    hear(out, puller, Some(reply), desk);
}

/// Does what a reply leads to, or a line that is none.
fn hear<D: Desk>(out: &mut Transcript, puller: &mut Puller, reply: Option<Reply>, desk: &mut D)
    requires { IfSome reply (IsReply widest) }
{
    let word = match puller.on_reply(reply, desk) {
        Pulled::Got => "got",
        Pulled::Level => "level",
        Pulled::Held(_) => "held",
        Pulled::Strange => "strange",
    };
    out.say(format_args!("{word}, then {}", puller.next()));
}

/// Tells whether a tag is behind what the desk's timeline let go of.
fn is_behind<T: Timeline>(out: &mut Transcript, desk: &Local<T>, tag: &str) {
    match tag_of(tag) {
        Some(tag) => {
            let is_behind = desk.replica().timeline().behind(tag);
            out.say(format_args!("behind {is_behind}"));
        }
        None => out.fail("no tag"),
    }
}

/// Asks a desk the line that a text spells.
fn ask<D: Desk>(out: &mut Transcript, desk: &mut D, text: &str) {
    match line_of(text) {
        Some(line) => {
            let reply = desk.ask(line);
            out.say_reply(&reply);
        }
        None => out.fail("no line"),
    }
}
