//! Arrays of a file, and how people call what is in a reactor.
ghost use Rattle.std.specs.Prelude.{◌≡◌, Some, None, IfOk, Err, map, codes};
ghost use Rattle.serde_json.specs.View.{view, items_view};
ghost use Rattle.warp_prog.specs.Json.{each, list_at};
ghost use Rattle.warp_prog.specs.Shape.{array_of, start_of};
ghost use Rattle.warp_prog.specs.View.{array_tree, start_tree};
ghost use Rattle.warp_prog.specs.Word.{name_or_none, printed_at};

use crate::file::{Array, ArrayStart, CalledPart};
use crate::misread::Misread;
use crate::name::Name;
use crate::printed::Printed;
use crate::shape::json::{FromJson, each, items, pair, triple};
use crate::shape::word::{integer_at, name_at};
use serde_json::Value;
use std::alloc::Global;

/// With what the cells of an array start: a number for all, or a list of numbers for the first ones.
fn start(alloc: Global, value: &Value) -> Result<ArrayStart, Misread>
    ensures ok { IfOk result (λ s. start_of (view value.now) ≡ Some (start_tree s)) }
    ensures err { result ≡ Err Misread.Shape → start_of (view value.now) ≡ None }
{
    match value {
        Value::Array(numbers) => {
            let numbers = each(alloc, numbers.as_slice())?;
            Ok(ArrayStart::Each(numbers))
        }
        _ => match integer_at(value) {
            Some(number) => Ok(ArrayStart::All(number)),
            None => Err(Misread::Shape),
        },
    }
}

/// The array that a value is: its name, how many cells it has, and with what these start.
fn array(alloc: Global, value: &Value) -> Result<Array, Misread>
    ensures ok { IfOk result (λ a. array_of (view value.now) ≡ Some (array_tree a)) }
    ensures err { result ≡ Err Misread.Shape → array_of (view value.now) ≡ None }
{
    let Some((name, count, begin)) = triple(value) else {
        return Err(Misread::Shape);
    };
    let Some(name) = name_at(name) else {
        return Err(Misread::Shape);
    };
    let Some(count) = integer_at(count) else {
        return Err(Misread::Shape);
    };
    let start = start(alloc, begin)?;
    Ok(Array { name, count, start })
}

/// The arrays, each read.
fn each_array(alloc: Global, items: &[Value]) -> Result<Vec<Array>, Misread>
    ensures ok { IfOk result (λ xs. each array_of (items_view items.now) ≡ Some (map array_tree xs.items)) }
    ensures err { result ≡ Err Misread.Shape → each array_of (items_view items.now) ≡ None }
{
    let mut found = Vec::with_capacity(alloc, items.len())?;
    for item in items {
        let next = array(alloc, item)?;
        found.push(next)?;
    }
    Ok(found)
}

/// The arrays under their key; none where it is not there.
pub(crate) fn arrays_at(alloc: Global, value: &Value) -> Result<Vec<Array>, Misread>
    ensures ok { IfOk result
        (λ xs. list_at array_of (codes "arrays") (view value.now) ≡ Some (map array_tree xs.items)) }
    ensures err { result ≡ Err Misread.Shape → list_at array_of (codes "arrays") (view value.now) ≡ None }
{
    let Some(items) = items(value, "arrays") else {
        return Err(Misread::Shape);
    };
    each_array(alloc, items)
}

impl FromJson for i64 {
    ghost use Rattle.warp_prog.specs.Word.{integer_at};

    ghost shape = { integer_at };

    fn from_json(value: &Value) -> Option<i64> {
        integer_at(value)
    }
}

/// The name that a text is; none of the empty text.
fn name_or_none(text: &str) -> Option<Option<Name>>
    ensures { result ≡ name_or_none text.now }
{
    if text.is_empty() {
        return Some(None);
    }
    match Name::read(text) {
        Some(name) => Some(Some(name)),
        None => None,
    }
}

/// The text for people that a value is.
pub(crate) fn printed_at(value: &Value) -> Option<Printed>
    ensures { result ≡ printed_at (view value.now) }
{
    Printed::read(value.as_str()?)
}

impl FromJson for CalledPart {
    ghost use Rattle.warp_prog.specs.Shape.{called_of};

    ghost shape = { called_of };

    fn from_json(value: &Value) -> Option<CalledPart> {
        let Some((name, text)) = pair(value) else {
            return None;
        };
        let Some(name) = name_or_none(name.as_str()?) else {
            return None;
        };
        let Some(text) = printed_at(text) else {
            return None;
        };
        Some(CalledPart { name, text })
    }
}
