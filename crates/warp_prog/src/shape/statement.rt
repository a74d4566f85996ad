//! Statements and bodies of a file.
ghost use Rattle.std.specs.Prelude.{◌≡◌, Option, Some, None, IfOk, Err, option_map, map};
ghost use Rattle.serde_json.specs.Data.{array};
ghost use Rattle.serde_json.specs.View.{view, items_view};
ghost use Rattle.warp_prog.specs.Statements.{assignment, assignment_of, scheduling_of, choice_of, statement_of};
ghost use Rattle.warp_prog.specs.Statements.{cell_set_of, loop_of};
ghost use Rattle.warp_prog.specs.Statements.{body_of, statements_of};
ghost use Rattle.warp_prog.specs.File.{NamedBody};
ghost use Rattle.warp_prog.specs.View.{term_tree, statement_tree, body_tree};
ghost use Rattle.warp_prog.specs.inner.Read.{IsRead, list_tree};

use crate::file::{Expression, Statement};
use crate::misread::Misread;
use crate::name::Name;
use crate::shape::expression::expression;
use crate::shape::json::first_word;
use crate::shape::word::{integer_at, name_at};
use crate::two_results::both;
use serde_json::Value;
use std::alloc::Global;

/// A statement of this word, a name and an expression.
fn assignment(word: &str, name: Name, value: Expression) -> Option<Statement>
    ensures { option_map statement_tree result ≡ assignment word.now name (term_tree value) }
{
    match word {
        "set" => Some(Statement::Set(name, value)),
        "put" => Some(Statement::Put(name, value)),
        _ => None,
    }
}

/// `["set", variable, expression]` and `["put", output, expression]`.
#[tactic(auto, unfolding(crate::specs::Statements::assignment_of))]
fn assign(alloc: Global, word: &str, name: &Value, value: &Value) -> Result<Statement, Misread>
    ensures ok { IfOk result
        (λ s. assignment_of word.now (view name.now) (view value.now) ≡ Some (statement_tree s)) }
    ensures err { result ≡ Err Misread.Shape → assignment_of word.now (view name.now) (view value.now) ≡ None }
{
    let Some(name) = name_at(name) else {
        return Err(Misread::Shape);
    };
    let value = expression(alloc, value)?;
    assignment(word, name, value).ok_or(Misread::Shape)
}

/// `["schedule", action, delay, expression]`.
#[tactic(auto, unfolding(crate::specs::Statements::scheduling_of))]
fn schedule(
    alloc: Global,
    word: &str,
    action: &Value,
    delay: &Value,
    value: &Value,
) -> Result<Statement, Misread>
    ensures ok { IfOk result
        (λ s. scheduling_of word.now (view action.now) (view delay.now) (view value.now) ≡ Some (statement_tree s)) }
    ensures err { result ≡ Err Misread.Shape
        → scheduling_of word.now (view action.now) (view delay.now) (view value.now) ≡ None }
{
    let Some(action) = name_at(action) else {
        return Err(Misread::Shape);
    };
    let Some(delay) = integer_at(delay) else {
        return Err(Misread::Shape);
    };
    let value = expression(alloc, value)?;
    if word != "schedule" {
        return Err(Misread::Shape);
    }
    Ok(Statement::Schedule(action, delay, value))
}

/// `["if", expression, [..], [..]]`, of what the lists are read as.
#[tactic(auto, unfolding(crate::specs::Statements::choice_of))]
fn choose(
    alloc: Global,
    test: &Value,
    first: Result<Vec<Statement>, Misread>,
    second: Result<Vec<Statement>, Misread>,
) -> Result<Statement, Misread>
    ensures { (a b : Option NamedBody) → IsRead list_tree first a → IsRead list_tree second b
        → IsRead statement_tree result (choice_of (view test.now) a b) }
{
    let lists = both(first, second);
    let (lists, test) = both(lists, expression(alloc, test))?;
    let (first, second) = lists;
    Ok(Statement::If(test, first, second))
}

/// `["setat", array, expression, expression]`.
#[tactic(auto, unfolding(crate::specs::Statements::cell_set_of))]
fn set_cell(
    alloc: Global,
    array: &Value,
    index: &Value,
    value: &Value,
) -> Result<Statement, Misread>
    ensures ok { IfOk result
        (λ s. cell_set_of (view array.now) (view index.now) (view value.now) ≡ Some (statement_tree s)) }
    ensures err { result ≡ Err Misread.Shape → cell_set_of (view array.now) (view index.now) (view value.now) ≡ None }
{
    let Some(array) = name_at(array) else {
        return Err(Misread::Shape);
    };
    let (index, value) = both(expression(alloc, index), expression(alloc, value))?;
    Ok(Statement::SetAt(array, index, value))
}

/// `["while", most, expression, [..]]`, of what the list is read as.
#[tactic(auto, unfolding(crate::specs::Statements::loop_of))]
fn turns(
    alloc: Global,
    most: &Value,
    test: &Value,
    body: Result<Vec<Statement>, Misread>,
) -> Result<Statement, Misread>
    ensures { (b : Option NamedBody) → IsRead list_tree body b
        → IsRead statement_tree result (loop_of (view most.now) (view test.now) b) }
{
    let (body, test) = both(body, expression(alloc, test))?;
    let Some(most) = integer_at(most) else {
        return Err(Misread::Shape);
    };
    Ok(Statement::While(most, test, body))
}

/// The statement of a word and its parts.
#[cycle(statement)]
fn parts(alloc: Global, items: &[Value]) -> Result<Statement, Misread>
    ensures ok { IfOk result (λ s. statement_of (array (items_view items.now)) ≡ Some (statement_tree s)) }
    ensures err { result ≡ Err Misread.Shape → statement_of (array (items_view items.now)) ≡ None }
{
    let Some(word) = first_word(items) else {
        return Err(Misread::Shape);
    };
    match items {
        [] => Err(Misread::Shape),
        [_] => Err(Misread::Shape),
        [_, _] => Err(Misread::Shape),
        [_, name, value] => assign(alloc, word, name, value),
        [_, x, y, z] => {
            if word == "if" {
                let first = body(alloc, y);
                let second = body(alloc, z);
                return choose(alloc, x, first, second);
            }
            if word == "while" {
                let list = body(alloc, z);
                return turns(alloc, x, y, list);
            }
            if word == "setat" {
                return set_cell(alloc, x, y, z);
            }
            schedule(alloc, word, x, y, z)
        }
        [_, _, _, _, _, ..] => Err(Misread::Shape),
    }
}

/// The statement that a value is.
#[cycle(statement)]
fn statement(alloc: Global, value: &Value) -> Result<Statement, Misread>
    ensures ok { IfOk result (λ s. statement_of (view value.now) ≡ Some (statement_tree s)) }
    ensures err { result ≡ Err Misread.Shape → statement_of (view value.now) ≡ None }
{
    match value {
        Value::Array(items) => parts(alloc, items.as_slice()),
        _ => Err(Misread::Shape),
    }
}

/// Statements, one after another.
#[cycle(statement)]
fn statements(alloc: Global, items: &[Value]) -> Result<Vec<Statement>, Misread>
    ensures ok { IfOk result
        (λ ss. statements_of (items_view items.now) ≡ Some (body_tree (map statement_tree ss.items))) }
    ensures err { result ≡ Err Misread.Shape → statements_of (items_view items.now) ≡ None }
{
    let mut found = Vec::with_capacity(alloc, items.len())?;
    for item in items {
        let next = statement(alloc, item)?;
        found.push(next)?;
    }
    Ok(found)
}

/// The list of statements that a value is.
#[cycle(statement)]
pub(crate) fn body(alloc: Global, value: &Value) -> Result<Vec<Statement>, Misread>
    ensures ok { IfOk result (λ ss. body_of (view value.now) ≡ Some (body_tree (map statement_tree ss.items))) }
    ensures err { result ≡ Err Misread.Shape → body_of (view value.now) ≡ None }
{
    match value {
        Value::Array(items) => statements(alloc, items.as_slice()),
        _ => Err(Misread::Shape),
    }
}
