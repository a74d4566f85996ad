//! Reactions of a file.
ghost use Rattle.std.specs.Prelude.{◌≡◌, Some, None, IfOk, Err, option_and_then, map, codes};
ghost use Rattle.serde_json.specs.Find.{get};
ghost use Rattle.serde_json.specs.View.{view, items_view};
ghost use Rattle.warp_prog.specs.Json.{each, has_only, list_at, unless_empty};
ghost use Rattle.warp_prog.specs.Word.{name_at};
ghost use Rattle.warp_prog.specs.Shape.{body_or_none, reaction_keys, reaction_of};
ghost use Rattle.warp_prog.specs.View.{statement_tree, body_tree, reaction_tree};

use crate::file::{Reaction, Statement};
use crate::misread::Misread;
use crate::name::Name;
use crate::shape::json::{has_only, list};
use crate::shape::statement::body;
use serde_json::Value;
use std::alloc::Global;

/// The names under `on`, which are there.
fn triggers(alloc: Global, value: &Value) -> Result<Vec<Name>, Misread>
    ensures ok { IfOk result
        (λ names. option_and_then unless_empty (list_at name_at (codes "on") (view value.now)) ≡ Some names.items) }
    ensures err { result ≡ Err Misread.Shape
        → option_and_then unless_empty (list_at name_at (codes "on") (view value.now)) ≡ None }
{
    let names = list(alloc, value, "on")?;
    if names.is_empty() {
        return Err(Misread::Shape);
    }
    Ok(names)
}

/// The body; empty where the key is not there.
fn body_or_none(alloc: Global, value: &Value) -> Result<Vec<Statement>, Misread>
    ensures ok { IfOk result
        (λ ss. body_or_none (get (codes "body") (view value.now)) ≡ Some (body_tree (map statement_tree ss.items))) }
    ensures err { result ≡ Err Misread.Shape → body_or_none (get (codes "body") (view value.now)) ≡ None }
{
    match value.get("body") {
        None => Ok(Vec::new(alloc)),
        Some(found) => body(alloc, found),
    }
}

/// Whether a value is an object whose keys are all among those of a reaction.
fn has_reaction_keys(value: &Value) -> bool
    ensures { result ≡ has_only reaction_keys (view value.now) }
{
    has_only(value, &["on", "reads", "writes", "body"])
}

/// The reaction that a value is.
#[tactic(auto, unfolding(crate::specs::Shape::reaction_of))]
fn reaction(alloc: Global, value: &Value) -> Result<Reaction, Misread>
    ensures ok { IfOk result (λ r. reaction_of (view value.now) ≡ Some (reaction_tree r)) }
    ensures err { result ≡ Err Misread.Shape → reaction_of (view value.now) ≡ None }
{
    if !has_reaction_keys(value) {
        return Err(Misread::Shape);
    }
    let triggers = triggers(alloc, value)?;
    let reads = list(alloc, value, "reads")?;
    let writes = list(alloc, value, "writes")?;
    let body = body_or_none(alloc, value)?;
    Ok(Reaction {
        triggers,
        reads,
        writes,
        body,
    })
}

/// The reactions, each read.
pub(crate) fn reactions(alloc: Global, items: &[Value]) -> Result<Vec<Reaction>, Misread>
    ensures ok { IfOk result
        (λ rs. each reaction_of (items_view items.now) ≡ Some (map reaction_tree rs.items)) }
    ensures err { result ≡ Err Misread.Shape → each reaction_of (items_view items.now) ≡ None }
{
    let mut found = Vec::with_capacity(alloc, items.len())?;
    for item in items {
        let next = reaction(alloc, item)?;
        found.push(next)?;
    }
    Ok(found)
}
