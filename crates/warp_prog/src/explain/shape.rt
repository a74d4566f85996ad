//! Where a JSON value has not the shape of a program file.

mod body;
mod part;

use crate::explain::reason::Reason;
use crate::explain::shape::body::body_fails;
use crate::explain::shape::part::{
    ABOVE_REACTORS, BELOW_REACTORS, IN_BEGIN, IN_REACTION, IN_REACTOR, Leaf, Part, fields_fail,
    list_fails,
};
use crate::explain::terms::{BEGIN, REACTION, Vocabulary, file_keys, reactor_keys};
use crate::explain::trail::{Segment, Trail};
use crate::limits::LAST_VERSION;
use crate::shape::json::is_one_of;
use serde_json::Value;

/// Whether a value is no file.
pub(crate) fn shape_fails<'v>(value: &'v Value, at: &mut Trail<'v>) -> bool {
    let is_last = is_of_last_version(value);
    keys_fail(value, file_keys(is_last), at)
        || fields_fail(value, ABOVE_REACTORS, at)
        || begin_fails(value, at)
        || reactors_fail(value, is_last, at)
        || fields_fail(value, BELOW_REACTORS, at)
}

/// Whether a value says that it is a file of version 4.
fn is_of_last_version(value: &Value) -> bool {
    match value.get("version") {
        Some(version) => version.as_i64() == Some(LAST_VERSION),
        None => false,
    }
}

/// Whether there is a beginning that is none.
fn begin_fails<'v>(value: &'v Value, at: &mut Trail<'v>) -> bool {
    match value.get("begin") {
        Some(begin) => {
            (keys_fail(begin, BEGIN, at) || fields_fail(begin, IN_BEGIN, at))
                && at.back(Segment::Key("begin"))
        }
        None => false,
    }
}

/// Whether a value is no object, or one of its keys is none of these.
fn keys_fail<'v>(value: &'v Value, keys: Vocabulary, at: &mut Trail<'v>) -> bool {
    let Some(members) = value.as_object() else {
        return at.fault(Reason::Form(value, "no object"));
    };
    for (key, _) in members.iter() {
        if !is_one_of(keys.words, key.as_str()) {
            return at.fault(Reason::Unread(key.as_str(), keys));
        }
    }
    false
}

/// Whether there is no list of reactors with one at least.
fn reactors_fail<'v>(value: &'v Value, is_last: bool, at: &mut Trail<'v>) -> bool {
    let segment = Segment::Key("reactors");
    let Some(found) = value.get("reactors") else {
        return at.fault(Reason::Missing("reactors"));
    };
    let Some(reactors) = found.as_array() else {
        return at.fault_at(segment, Reason::Form(found, "no list of reactors"));
    };
    if reactors.is_empty() {
        return at.fault_at(segment, Reason::Plain("there is no reactor"));
    }
    for (i, reactor) in reactors.iter().enumerate() {
        if reactor_fails(reactor, is_last, at) {
            return at.back(Segment::Of("reactors", i));
        }
    }
    false
}

fn reactor_fails<'v>(value: &'v Value, is_last: bool, at: &mut Trail<'v>) -> bool {
    keys_fail(value, reactor_keys(is_last), at)
        || fields_fail(value, IN_REACTOR, at)
        || reactions_fail(value, is_last, at)
}

fn reactions_fail<'v>(value: &'v Value, is_last: bool, at: &mut Trail<'v>) -> bool {
    let Some(found) = value.get("reactions") else {
        return false;
    };
    let Some(reactions) = found.as_array() else {
        return at.fault_at(
            Segment::Key("reactions"),
            Reason::Form(found, "no list of reactions"),
        );
    };
    for (i, reaction) in reactions.iter().enumerate() {
        if reaction_fails(reaction, is_last, at) {
            return at.back(Segment::Of("reactions", i));
        }
    }
    false
}

fn reaction_fails<'v>(value: &'v Value, is_last: bool, at: &mut Trail<'v>) -> bool {
    if keys_fail(value, REACTION, at)
        || triggers_fail(value, at)
        || fields_fail(value, IN_REACTION, at)
    {
        return true;
    }
    match value.get("body") {
        Some(body) => body_fails(body, is_last, Segment::Key("body"), at),
        None => false,
    }
}

fn triggers_fail<'v>(value: &'v Value, at: &mut Trail<'v>) -> bool {
    let Some(found) = value.get("on") else {
        return at.fault(Reason::Missing("on"));
    };
    if found.as_array().is_some_and(Vec::is_empty) {
        return at.fault_at(Segment::Key("on"), Reason::Plain("there is no name"));
    }
    list_fails(found, "on", Part::Each(Leaf::Name), at)
}
