//! Reactors of a file.
ghost use Rattle.std.specs.Prelude.{◌≡◌, Some, None, IfOk, Err, option_and_then, map, codes};
ghost use Rattle.serde_json.specs.Find.{get};
ghost use Rattle.serde_json.specs.View.{view, items_view};
ghost use Rattle.warp_prog.specs.Json.{each, has_only, list_at, unless_empty};
ghost use Rattle.warp_prog.specs.Word.{name_at};
ghost use Rattle.warp_prog.specs.Shape.{first_reactor_keys, have_first_keys, reaction_of, reactor_keys, reactor_of};
ghost use Rattle.warp_prog.specs.View.{reaction_tree, reactor_tree};

use crate::file::{Reaction, Reactor};
use crate::misread::Misread;
use crate::name::Name;
use crate::shape::array::arrays_at;
use crate::shape::json::{has_only, items, list};
use crate::shape::reaction::reactions;
use crate::shape::word::name_at;
use serde_json::Value;
use std::alloc::Global;

/// The name, which is there.
pub(crate) fn name(value: &Value) -> Option<Name>
    ensures { result ≡ option_and_then name_at (get (codes "name") (view value.now)) }
{
    name_at(value.get("name")?)
}

/// The reactions under their key.
fn reactions_at(alloc: Global, value: &Value) -> Result<Vec<Reaction>, Misread>
    ensures ok { IfOk result
        (λ rs. list_at reaction_of (codes "reactions") (view value.now) ≡ Some (map reaction_tree rs.items)) }
    ensures err { result ≡ Err Misread.Shape → list_at reaction_of (codes "reactions") (view value.now) ≡ None }
{
    let Some(items) = items(value, "reactions") else {
        return Err(Misread::Shape);
    };
    reactions(alloc, items)
}

/// Whether a value is an object whose keys are all among those of a reactor.
fn has_reactor_keys(value: &Value) -> bool
    ensures { result ≡ has_only reactor_keys (view value.now) }
{
    let keys = [
        "name",
        "vars",
        "arrays",
        "inputs",
        "outputs",
        "actions",
        "timers",
        "reactions",
        "called",
        "hidden",
    ];
    has_only(value, &keys)
}

/// Whether they are all among those that a reactor of any version may have.
fn has_first_keys(value: &Value) -> bool
    ensures { result ≡ has_only first_reactor_keys (view value.now) }
{
    let keys = [
        "name",
        "vars",
        "inputs",
        "outputs",
        "actions",
        "timers",
        "reactions",
    ];
    has_only(value, &keys)
}

/// Whether these are reactors with no key that came with version 4.
pub(crate) fn have_first_keys(items: &[Value]) -> bool
    ensures { result ≡ have_first_keys (items_view items.now) }
{
    for item in items {
        if !has_first_keys(item) {
            return false;
        }
    }
    true
}

/// The reactor that a value is.
#[tactic(auto, unfolding(crate::specs::Shape::reactor_of))]
fn reactor(alloc: Global, value: &Value) -> Result<Reactor, Misread>
    ensures ok { IfOk result (λ r. reactor_of (view value.now) ≡ Some (reactor_tree r)) }
    ensures err { result ≡ Err Misread.Shape → reactor_of (view value.now) ≡ None }
{
    if !has_reactor_keys(value) {
        return Err(Misread::Shape);
    }
    let Some(name) = name(value) else {
        return Err(Misread::Shape);
    };
    let variables = list(alloc, value, "vars")?;
    let arrays = arrays_at(alloc, value)?;
    let inputs = list(alloc, value, "inputs")?;
    let outputs = list(alloc, value, "outputs")?;
    let actions = list(alloc, value, "actions")?;
    let timers = list(alloc, value, "timers")?;
    let reactions = reactions_at(alloc, value)?;
    let called = list(alloc, value, "called")?;
    let hidden = list(alloc, value, "hidden")?;
    Ok(Reactor {
        name,
        variables,
        arrays,
        inputs,
        outputs,
        actions,
        timers,
        reactions,
        called,
        hidden,
    })
}

/// The reactors, each read.
fn each_reactor(alloc: Global, items: &[Value]) -> Result<Vec<Reactor>, Misread>
    ensures ok { IfOk result
        (λ rs. each reactor_of (items_view items.now) ≡ Some (map reactor_tree rs.items)) }
    ensures err { result ≡ Err Misread.Shape → each reactor_of (items_view items.now) ≡ None }
{
    let mut found = Vec::with_capacity(alloc, items.len())?;
    for item in items {
        let next = reactor(alloc, item)?;
        found.push(next)?;
    }
    Ok(found)
}

/// The reactors under their key, of which there is one.
pub(crate) fn reactors(alloc: Global, value: &Value) -> Result<Vec<Reactor>, Misread>
    ensures ok { IfOk result
        (λ rs. option_and_then unless_empty (list_at reactor_of (codes "reactors") (view value.now))
        ≡ Some (map reactor_tree rs.items)) }
    ensures err { result ≡ Err Misread.Shape
        → option_and_then unless_empty (list_at reactor_of (codes "reactors") (view value.now)) ≡ None }
{
    let Some(items) = items(value, "reactors") else {
        return Err(Misread::Shape);
    };
    let found = each_reactor(alloc, items)?;
    if found.is_empty() {
        return Err(Misread::Shape);
    }
    Ok(found)
}
