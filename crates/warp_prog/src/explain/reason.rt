//! What is wrong at a place of a program file, and its words.

use crate::explain::circle::write_circle;
use crate::explain::kinds::{compare_all, kinds_of, other_kind};
use crate::explain::neighbour::Nearest;
use crate::explain::terms::Vocabulary;
use crate::explain::text::push_all;
use crate::file::{PortName, Reactor};
use crate::name::Name;
use crate::named::is_same;
use crate::role::Role;
use crate::shape::json::is_one_of;
use serde_json::Value;
use std::alloc::{AllocError, Global};

/// How many bytes of a value are shown.
const LONGEST_SHOWN: usize = 48;

/// What is wrong at a place.
#[derive(Clone, Copy)]
pub(crate) enum Reason<'f> {
    /// These words.
    Plain(&'static str),
    /// The value is not what stands behind "is".
    Form(&'f Value, &'static str),
    /// The list is not of this form.
    Parts(&'static str),
    /// A word that is none of these.
    Unread(&'f str, Vocabulary),
    /// This key is missing.
    Missing(&'static str),
    /// The number is not one of the second to the third.
    Range(i64, i64, i64),
    /// There are more of these than so many.
    Many(&'static str, usize),
    /// The name stands for nothing of the reactor that its role asks.
    Unknown(&'f Name, Role, &'f Reactor),
    /// No reactor has the name of the port's.
    NoReactor(&'f PortName, &'f [Reactor]),
    /// These words stand behind the name.
    Named(&'f Name, &'static str),
    /// These words stand behind the reference to a port.
    Port(&'f PortName, &'static str),
    /// The reactor at this place has this name too.
    SameReactor(usize),
    /// A link without delay leads from the first reactor to the second, which does not stand later.
    Backward(&'f Name, &'f Name),
    /// Reactions of these reactors, by their numbers: each waits for the next, and the last for the first.
    Circle(&'f [u32], &'f [Reactor]),
    /// The origin of this number has no inputs.
    Unowned(i64),
}

/// Writes what is wrong.
pub(crate) fn write_reason(
    alloc: Global,
    text: &mut String,
    reason: &Reason<'_>,
) -> Result<(), AllocError> {
    match *reason {
        Reason::Plain(words) => text.push_str(words),
        Reason::Form(value, words) => write_form(alloc, text, value, words),
        Reason::Parts(form) => push_all(text, &["this is not ", form]),
        Reason::Unread(word, vocabulary) => write_unread(alloc, text, word, vocabulary),
        Reason::Missing(key) => push_all(text, &["\"", key, "\" is missing"]),
        Reason::Range(number, low, high) => write!(text, "{number} is not in {low} to {high}"),
        Reason::Many(things, most) => write!(text, "there are more than {most} {things}"),
        Reason::Unknown(name, role, reactor) => write_unknown(alloc, text, name, role, reactor),
        Reason::NoReactor(port, reactors) => write_no_reactor(alloc, text, port, reactors),
        Reason::Named(name, words) => write_named(text, name, words),
        Reason::Port(port, words) => write_port(text, port, words),
        Reason::SameReactor(place) => write!(text, "reactors[{place}] has this name too"),
        Reason::Backward(from, to) => write_backward(text, from, to),
        Reason::Circle(circle, reactors) => write_circle(text, circle, reactors),
        Reason::Unowned(origin) => write_unowned(text, origin),
    }
}

fn write_unowned(text: &mut String, origin: i64) -> Result<(), AllocError> {
    write!(
        text,
        "origin {origin} has no inputs: it holds the horizon at (0, 0)"
    )?;
    text.push_str(" until somebody announces for it")
}

fn write_named(text: &mut String, name: &Name, words: &str) -> Result<(), AllocError> {
    push_all(text, &["\"", name.as_str(), "\" ", words])
}

fn write_port(text: &mut String, port: &PortName, words: &str) -> Result<(), AllocError> {
    let reactor = port.reactor.as_str();
    push_all(
        text,
        &["\"", reactor, ".", port.port.as_str(), "\" ", words],
    )
}

fn write_backward(text: &mut String, from: &Name, to: &Name) -> Result<(), AllocError> {
    push_all(text, &["without a delay it leads from \"", from.as_str()])?;
    if is_same(from, to) {
        return text.push_str("\" to itself");
    }
    push_all(text, &["\" back to \"", to.as_str(), "\""])
}

fn write_form(
    alloc: Global,
    text: &mut String,
    value: &Value,
    words: &str,
) -> Result<(), AllocError> {
    let shown = value.to_string(alloc)?;
    if shown.len() > LONGEST_SHOWN {
        return push_all(text, &["this is ", words]);
    }
    write!(text, "{shown} is {words}")
}

fn write_unread(
    alloc: Global,
    text: &mut String,
    word: &str,
    vocabulary: Vocabulary,
) -> Result<(), AllocError> {
    write_word(alloc, text, word, vocabulary.kind)?;
    if let Some(form) = vocabulary.instead_of(word) {
        return push_all(text, &[" (write ", form, ")"]);
    }
    if is_one_of(vocabulary.later, word) {
        return text.push_str(" (version 4 has it)");
    }
    let mut nearest = Nearest::new(alloc, word);
    for other in vocabulary.words {
        nearest.compare(*other);
    }
    nearest.write(text)
}

/// Writes a word as a JSON value that is not what these words say.
fn write_word(alloc: Global, text: &mut String, word: &str, words: &str) -> Result<(), AllocError> {
    let shown = Value::String(String::from_str(alloc, word)?);
    write_form(alloc, text, &shown, words)
}

fn write_unknown(
    alloc: Global,
    text: &mut String,
    name: &Name,
    role: Role,
    reactor: &Reactor,
) -> Result<(), AllocError> {
    let wanted = name.as_str();
    let of = reactor.name.as_str();
    let kinds = kinds_of(role);
    let words = kinds.words;
    write!(text, "\"{wanted}\" is no {words} of \"{of}\"")?;
    if let Some(other) = other_kind(reactor, role, name) {
        return push_all(text, &[" (it is ", other, ")"]);
    }
    let mut nearest = Nearest::new(alloc, wanted);
    compare_all(&mut nearest, reactor, &kinds);
    nearest.write(text)
}

fn write_no_reactor(
    alloc: Global,
    text: &mut String,
    port: &PortName,
    reactors: &[Reactor],
) -> Result<(), AllocError> {
    let wanted = port.reactor.as_str();
    push_all(text, &["there is no reactor \"", wanted, "\""])?;
    let mut nearest = Nearest::new(alloc, wanted);
    for reactor in reactors {
        nearest.compare(reactor.name.as_str());
    }
    nearest.write(text)
}
