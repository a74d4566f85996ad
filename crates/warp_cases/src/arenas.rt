//! An arena for names of three origins. Each line is a call:
//!
//! - `start` makes another arena; `reserve` makes room for one name more;
//! - `event ORIGIN TIME MICRO INPUT VALUE` and `withdraw ORIGIN TIME MICRO` take a name in, where room was made for it,
//!   and note what is said of it; with `insert` before it, by a look and an insertion in the place of one call;
//! - `find ORIGIN TIME MICRO` tells what is known of a name, `walk` of all, in order; `free TIME MICRO` frees what is
//!   not after a tag;
//! - `links` tells whether each name's links lead to the one before it and to the next one of its origin, and how many
//!   names there are.
ghost use Rattle.std.specs.Prelude.{◌≡◌, ◌<◌, IsSome};
ghost use Rattle.warp_arena.specs.Places.{entry_of};

use crate::lines::{number_of, record_of, tag_of, word_of};
use crate::mark::{begin, end};
use crate::transcript::{NO_MEMORY, Transcript, outcome};
use std::alloc::Global;
use warp_arena::{Arena, Entry, MAX_USED, NodeId};
use warp_record::Record;
use warp_tag::Tag;

/// How many origins the arena has.
const ORIGINS: u32 = 3;

/// Makes the calls of the lines.
pub(crate) fn perform(alloc: Global, out: &mut Transcript, lines: &str) {
    match Arena::start(alloc, ORIGINS) {
        Ok(mut arena) => make_calls(alloc, out, &mut arena, lines),
        Err(_) => out.fail(NO_MEMORY),
    }
}

/// Makes the calls of the lines over this arena.
fn make_calls(alloc: Global, out: &mut Transcript, arena: &mut Arena, lines: &str)
    requires { arena.old.origins ≡ 3 }
{
    for line in lines.lines() {
        make_call(alloc, out, arena, line);
    }
}

/// Makes the call of a line.
fn make_call(alloc: Global, out: &mut Transcript, arena: &mut Arena, line: &str)
    requires { arena.old.origins ≡ 3 }
    ensures { arena.new.origins ≡ 3 }
{
    let (word, rest) = word_of(line);
    if word == "start" {
        return start(alloc, out);
    }
    if word == "reserve" {
        return reserve(alloc, out, arena);
    }
    if word == "free" {
        return free(alloc, out, arena, rest);
    }
    if word == "find" {
        return find(alloc, out, arena, rest);
    }
    if word == "walk" {
        return walk(alloc, out, arena);
    }
    if word == "links" {
        return say_links(out, arena);
    }
    if word == "insert" {
        return take(alloc, out, arena, rest, false);
    }
    take(alloc, out, arena, line, true);
}

/// Makes another arena.
fn start(alloc: Global, out: &mut Transcript) {
    begin(alloc);
    let made = Arena::start(alloc, ORIGINS);
    end(alloc);
    out.say(outcome(made.is_ok()));
}

/// Makes room for one name more.
fn reserve(alloc: Global, out: &mut Transcript, arena: &mut Arena)
    ensures { arena.new.origins ≡ arena.old.origins }
{
    if arena.len() >= MAX_USED {
        return out.say("full");
    }
    begin(alloc);
    let reserved = arena.reserve_one(alloc);
    end(alloc);
    out.say(outcome(reserved.is_ok()));
}

/// Takes in the name of a record, and notes what the record says of it.
fn take(alloc: Global, out: &mut Transcript, arena: &mut Arena, text: &str, by_one_call: bool)
    requires { arena.old.origins ≡ 3 }
    ensures { arena.new.origins ≡ 3 }
{
    let Some(said) = said_of(text) else {
        return out.fail("no name");
    };
    if said.origin >= ORIGINS || arena.len() >= MAX_USED {
        return out.fail("no origin");
    }
    // Where room was made before, this changes nothing.
    if arena.reserve_one(alloc).is_err() {
        return out.fail(NO_MEMORY);
    }
    begin(alloc);
    let node = named(arena, said.origin, said.tag, by_one_call);
    note(arena, node, said.payload);
    end(alloc);
    out.say(format_args!("{} names", arena.len()));
}

/// What a record says of a name: its payload, or where there is none that it is withdrawn.
#[derive(Clone, Copy)]
struct Said {
    origin: u32,
    tag: Tag,
    payload: Option<(u32, i64)>,
}

/// What the record that a text spells says of a name.
fn said_of(text: &str) -> Option<Said> {
    match record_of(text)? {
        Record::Event {
            origin,
            tag,
            input,
            value,
        } => Some(Said {
            origin,
            tag,
            payload: Some((input, value)),
        }),
        Record::Withdraw { origin, tag } => Some(Said {
            origin,
            tag,
            payload: None,
        }),
        Record::Announce { .. } => None,
        Record::Joint { .. } => None,
    }
}

/// The handle of a name, which comes in where it is new: by one call, or by a look and an insertion.
fn named(arena: &mut Arena, origin: u32, tag: Tag, by_one_call: bool) -> NodeId
    requires origin { origin < arena.old.origins }
    requires reserved { 0 < arena.old.free }
    ensures origins { arena.new.origins ≡ arena.old.origins }
    ensures used { IsSome (entry_of result arena.new.places) }
{
    if by_one_call {
        return arena.enter(origin, tag);
    }
    match arena.find(origin, tag) {
        Some(node) => node,
        None => arena.insert(origin, tag),
    }
}

/// Notes this payload of the handle's name, or that it is withdrawn.
fn note(arena: &mut Arena, node: NodeId, payload: Option<(u32, i64)>)
    requires { IsSome (entry_of node arena.old.places) }
    ensures { arena.new.origins ≡ arena.old.origins }
{
    match payload {
        Some((input, value)) => arena.set_event(node, input, value),
        None => arena.set_withdrawn(node),
    }
}

/// Frees what is not after a tag.
fn free(alloc: Global, out: &mut Transcript, arena: &mut Arena, text: &str)
    ensures { arena.new.origins ≡ arena.old.origins }
{
    let Some(tag) = tag_of(text) else {
        return out.fail("no tag");
    };
    begin(alloc);
    let count = arena.free_through(tag);
    end(alloc);
    out.say(format_args!("freed {count}"));
}

/// Tells what is known of a name.
fn find(alloc: Global, out: &mut Transcript, arena: &Arena, text: &str) {
    let (origin, tag) = word_of(text);
    let (Some(origin), Some(tag)) = (number_of(origin), tag_of(tag)) else {
        return out.fail("no name");
    };
    begin(alloc);
    let found = arena.find(origin, tag);
    end(alloc);
    match found {
        Some(node) => say_entry(out, &arena.entry(node)),
        None => out.say("none"),
    }
}

/// Tells what is known of all names, in order.
fn walk(alloc: Global, out: &mut Transcript, arena: &Arena) {
    begin(alloc);
    let mut at = arena.first();
    end(alloc);
    for _ in 0..arena.len() {
        let Some(node) = at else {
            return out.fail("too few");
        };
        say_entry(out, &arena.entry(node));
        at = arena.next(node);
    }
}

/// Tells whether each name's links lead to the one before it and to the next one of its origin.
fn say_links(out: &mut Transcript, arena: &Arena) {
    if !are_linked(arena) {
        return out.say("a link leads elsewhere");
    }
    let count = arena.len();
    let (is_empty, is_full) = (count == 0, count >= MAX_USED);
    out.say(format_args!("{count} linked, empty {is_empty}, full {is_full}"));
}

/// Whether each `prev` leads back, each `next_of_origin` on to the next one of its origin, and `next` to the end.
fn are_linked(arena: &Arena) -> bool {
    let mut nexts = [None; 3];
    let mut before = None;
    let mut at = arena.first();
    for _ in 0..arena.len() {
        let Some(node) = at else {
            return false;
        };
        let next = &mut nexts[arena.entry(node).origin as usize % 3];
        if arena.prev(node) != before || is_another(*next, node) {
            return false;
        }
        *next = Some(arena.next_of_origin(node));
        before = at;
        at = arena.next(node);
    }
    at.is_none() && are_ended(&nexts)
}

/// Whether another name of an origin, or none, is expected in the place of this one.
fn is_another(next: Option<Option<NodeId>>, node: NodeId) -> bool {
    match next {
        Some(own) => own != Some(node),
        None => false,
    }
}

/// Whether no further name of any origin is expected.
fn are_ended(nexts: &[Option<Option<NodeId>>]) -> bool {
    for next in nexts {
        if let Some(Some(_)) = *next {
            return false;
        }
    }
    true
}

/// Tells what is known of a name.
fn say_entry(out: &mut Transcript, entry: &Entry) {
    let (origin, time, micro) = (entry.origin, entry.tag.time(), entry.tag.micro());
    let mark = if entry.withdrawn {
        "withdrawn"
    } else {
        "there"
    };
    match entry.event {
        Some((input, value)) => {
            out.say(format_args!("{origin} {time} {micro} {mark} {input} {value}"));
        }
        None => out.say(format_args!("{origin} {time} {micro} {mark}")),
    }
}
