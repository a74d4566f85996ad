//! Lists and objects of a file.
ghost use Rattle.std.specs.Prelude.{◌≡◌, List, Option, Some, None, IfOk, Err, map, codes, option_map};
ghost use Rattle.serde_json.specs.Data.{Data};
ghost use Rattle.serde_json.specs.Find.{get};
ghost use Rattle.serde_json.specs.View.{view, items_view, members_view};
ghost use Rattle.warp_prog.specs.Json.{is_one_of, are_keys, has_only, items_at, each, list_at, four_of, pair_of, triple_of};
ghost use Rattle.warp_prog.specs.inner.Read.{first_word};

use crate::misread::Misread;
use serde_json::{Map, Value};
use std::alloc::Global;

/// What one item of a list is read as.
pub(crate) trait FromJson: Sized + Drop {
    ghost shape: { Data → Option Self };

    /// The part that a value is, if it has its shape.
    fn from_json(value: &Value) -> Option<Self>
        ensures { result ≡ shape (view value.now) };
}

/// The items, each read.
pub(crate) fn each<T: FromJson>(alloc: Global, items: &[Value]) -> Result<Vec<T>, Misread>
    ensures ok { IfOk result (λ xs. each T.FromJson.shape (items_view items.now) ≡ Some xs.items) }
    ensures err { result ≡ Err Misread.Shape → each T.FromJson.shape (items_view items.now) ≡ None }
{
    let mut found = Vec::with_capacity(alloc, items.len())?;
    for item in items {
        let Some(part) = T::from_json(item) else {
            return Err(Misread::Shape);
        };
        found.push(part)?;
    }
    Ok(found)
}

/// The items of the list under a key; none where the key is not there.
pub(crate) fn items<'v>(value: &'v Value, key: &str) -> Option<&'v [Value]>
    ensures { option_map (λ vs. items_view vs.now) result ≡ items_at key.now (view value.now) }
{
    match value.get(key) {
        None => Some(&[]),
        Some(found) => found.as_array().map(Vec::as_slice),
    }
}

/// The list under a key, each of its items read; empty where the key is not there.
pub(crate) fn list<T: FromJson>(alloc: Global, value: &Value, key: &str) -> Result<Vec<T>, Misread>
    ensures ok { IfOk result (λ xs. list_at T.FromJson.shape key.now (view value.now) ≡ Some xs.items) }
    ensures err { result ≡ Err Misread.Shape → list_at T.FromJson.shape key.now (view value.now) ≡ None }
{
    let Some(items) = items(value, key) else {
        return Err(Misread::Shape);
    };
    each(alloc, items)
}

/// Whether a key is one of these.
pub(crate) fn is_one_of(keys: &[&str], key: &str) -> bool
    ensures { result ≡ is_one_of (map (λ k. k.now) keys.now) key.now }
{
    for known in keys {
        if *known == key {
            return true;
        }
    }
    false
}

fn are_keys(keys: &[&str], members: &Map<String, Value>) -> bool
    ensures { result ≡ are_keys (map (λ k. k.now) keys.now) (members_view members.now.entries) }
{
    for (key, _) in members.iter() {
        if !is_one_of(keys, key.as_str()) {
            return false;
        }
    }
    true
}

/// Whether a value is an object whose keys are all among these.
pub(crate) fn has_only(value: &Value, keys: &[&str]) -> bool
    ensures { result ≡ has_only (map (λ k. k.now) keys.now) (view value.now) }
{
    match value.as_object() {
        Some(members) => are_keys(keys, members),
        None => false,
    }
}

/// The text that the first item of a list is.
pub(crate) fn first_word<'v>(items: &'v [Value]) -> Option<&'v str>
    ensures { option_map (λ w. w.now) result ≡ first_word (items_view items.now) }
{
    items.first()?.as_str()
}

/// The two values of a list of two.
#[tactic(auto, using(crate::proofs::ItemLemmas::not_two))]
pub(crate) fn pair(value: &Value) -> Option<(&Value, &Value)>
    ensures { option_map (λ p. (view p.0.now, view p.1.now)) result ≡ pair_of (view value.now) }
{
    match value.as_array()?.as_slice() {
        [a, b] => Some((a, b)),
        _ => None,
    }
}

/// The four values of a list of four.
#[tactic(auto, using(crate::proofs::ItemLemmas::not_four))]
pub(crate) fn four(value: &Value) -> Option<(&Value, &Value, &Value, &Value)>
    ensures { option_map (λ p. (view p.0.now, view p.1.now, view p.2.now, view p.3.now)) result
        ≡ four_of (view value.now) }
{
    match value.as_array()?.as_slice() {
        [a, b, c, d] => Some((a, b, c, d)),
        _ => None,
    }
}

/// The three values of a list of three.
#[tactic(auto, using(crate::proofs::ItemLemmas::not_three))]
pub(crate) fn triple(value: &Value) -> Option<(&Value, &Value, &Value)>
    ensures { option_map (λ p. (view p.0.now, view p.1.now, view p.2.now)) result ≡ triple_of (view value.now) }
{
    match value.as_array()?.as_slice() {
        [a, b, c] => Some((a, b, c)),
        _ => None,
    }
}
