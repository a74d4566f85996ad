//! From a JSON value to the tree of a file.
ghost use Rattle.std.specs.Prelude.{◌≡◌, List, Some, None, IfOk, Err, map, option_and_then};
ghost use Rattle.serde_json.specs.Find.{get};
ghost use Rattle.serde_json.specs.View.{view};
ghost use Rattle.warp_prog.specs.Word.{integer_at};
ghost use Rattle.warp_prog.specs.Json.{has_only};
ghost use Rattle.warp_prog.specs.Shape.{file_keys, file_of, first_file_keys, has_later};
ghost use Rattle.warp_prog.specs.View.{file_tree, reactor_tree};

pub(crate) mod array;
mod begin;
mod expression;
pub(crate) mod json;
mod parts;
mod reaction;
pub(crate) mod reactor;
mod statement;
pub(crate) mod word;

use crate::file::{ProgramFile, Reactor};
use crate::later::any_uses_later;
use crate::limits::LAST_VERSION;
use crate::misread::Misread;
use begin::begin_at;
use json::{has_only, items, list};
use reactor::{have_first_keys, reactors};
use serde_json::Value;
use std::alloc::Global;
use word::integer_at;

/// The number under a key.
fn number(value: &Value, key: &str) -> Option<i64>
    ensures { result ≡ option_and_then integer_at (get key.now (view value.now)) }
{
    integer_at(value.get(key)?)
}

/// Whether a value is an object whose keys are all among those of a file.
fn has_file_keys(value: &Value) -> bool
    ensures { result ≡ has_only file_keys (view value.now) }
{
    let keys = [
        "version", "stop", "origins", "begin", "reactors", "links", "inputs", "outputs",
    ];
    has_only(value, &keys)
}

/// Whether they are all among those that a file of any version may have.
fn has_first_keys(value: &Value) -> bool
    ensures { result ≡ has_only first_file_keys (view value.now) }
{
    let keys = [
        "version", "stop", "origins", "reactors", "links", "inputs", "outputs",
    ];
    has_only(value, &keys)
}

/// Whether a value has keys that came with version 4, or these reactors, which it spells, use words that did.
fn has_later(value: &Value, reactors: &[Reactor]) -> bool
    ensures { result ≡ has_later (view value.now) (map reactor_tree reactors.now) }
{
    if !has_first_keys(value) {
        return true;
    }
    let Some(items) = items(value, "reactors") else {
        return true;
    };
    !have_first_keys(items) || any_uses_later(reactors)
}

/// The file that a value is: each key and each value is one of its table, and those that must be there are there. What
/// came with version 4 stands in files of that version alone.
#[tactic(auto, unfolding(crate::specs::Shape::file_of))]
pub(crate) fn file(alloc: Global, value: &Value) -> Result<ProgramFile, Misread>
    ensures ok { IfOk result (λ f. file_of (view value.now) ≡ Some (file_tree f)) }
    ensures err { result ≡ Err Misread.Shape → file_of (view value.now) ≡ None }
{
    if !has_file_keys(value) {
        return Err(Misread::Shape);
    }
    let Some(version) = number(value, "version") else {
        return Err(Misread::Shape);
    };
    let Some(stop) = number(value, "stop") else {
        return Err(Misread::Shape);
    };
    let Some(origins) = number(value, "origins") else {
        return Err(Misread::Shape);
    };
    let begin = begin_at(alloc, value)?;
    let reactors = reactors(alloc, value)?;
    let links = list(alloc, value, "links")?;
    let inputs = list(alloc, value, "inputs")?;
    let outputs = list(alloc, value, "outputs")?;
    if version != LAST_VERSION && has_later(value, &reactors) {
        return Err(Misread::Shape);
    }
    Ok(ProgramFile {
        version,
        stop,
        origins,
        begin,
        reactors,
        links,
        inputs,
        outputs,
    })
}
