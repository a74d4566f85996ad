//! Expressions of a file.
ghost use Rattle.std.specs.Prelude.{◌≡◌, Option, Some, None, IfOk, Err, option_map};
ghost use Rattle.serde_json.specs.Data.{array};
ghost use Rattle.serde_json.specs.View.{view, items_view};
ghost use Rattle.warp_prog.specs.File.{NamedTerm, PresentNamed};
ghost use Rattle.warp_prog.specs.Terms.{unary_of, binary_of, cell_named, of_none, term_of};
ghost use Rattle.warp_prog.specs.View.{term_tree};
ghost use Rattle.warp_prog.specs.Word.{name_at};
ghost use Rattle.warp_prog.specs.inner.Read.{IsRead, with_one, with_two, with_three};

use crate::file::Expression;
use crate::misread::Misread;
use crate::name::Name;
use crate::shape::json::first_word;
use crate::shape::word::name_at;
use crate::two_results::both;
use serde_json::Value;
use std::alloc::Global;
use warp_body::{BinaryOperator, UnaryOperator};

fn unary_operator(word: &str) -> Option<UnaryOperator>
    ensures { result ≡ unary_of word.now }
{
    match word {
        "neg" => Some(UnaryOperator::Negate),
        "not" => Some(UnaryOperator::Not),
        "abs" => Some(UnaryOperator::Absolute),
        _ => None,
    }
}

fn binary_operator(word: &str) -> Option<BinaryOperator>
    ensures { result ≡ binary_of word.now }
{
    match word.as_bytes() {
        b"+" => Some(BinaryOperator::Add),
        b"-" => Some(BinaryOperator::Subtract),
        b"*" => Some(BinaryOperator::Multiply),
        b"/" => Some(BinaryOperator::Divide),
        b"%" => Some(BinaryOperator::Remainder),
        b"=" => Some(BinaryOperator::Equal),
        b"<" => Some(BinaryOperator::Less),
        b"and" => Some(BinaryOperator::And),
        b"or" => Some(BinaryOperator::Or),
        b"min" => Some(BinaryOperator::Minimum),
        b"max" => Some(BinaryOperator::Maximum),
        b"&" => Some(BinaryOperator::BitAnd),
        b"|" => Some(BinaryOperator::BitOr),
        b"^" => Some(BinaryOperator::BitXor),
        b"<<" => Some(BinaryOperator::ShiftLeft),
        b">>" => Some(BinaryOperator::ShiftRight),
        b"mix" => Some(BinaryOperator::Mix),
        _ => None,
    }
}

/// What a word says without parts: the time or the microstep of the tag that is executed.
fn with_none(word: &str) -> Result<Expression, Misread>
    ensures { IsRead term_tree result (of_none word.now) }
{
    match word {
        "time" => Ok(Expression::Time),
        "micro" => Ok(Expression::Microstep),
        _ => Err(Misread::Shape),
    }
}

/// A cell of the array whose name a value is, if its number was read.
fn with_cell(
    alloc: Global,
    name: &Value,
    index: Result<Expression, Misread>,
) -> Result<Expression, Misread>
    ensures { (i : Option NamedTerm) → IsRead term_tree index i
        → IsRead term_tree result (cell_named (name_at (view name.now)) i) }
{
    let index = boxed(alloc, index)?;
    let Some(name) = name_at(name) else {
        return Err(Misread::Shape);
    };
    Ok(Expression::At(name, index))
}

/// Whether what has the name that a value is is present.
fn presence(value: &Value) -> Result<Expression, Misread>
    ensures { IsRead term_tree result (option_map PresentNamed (name_at (view value.now))) }
{
    let Some(name) = name_at(value) else {
        return Err(Misread::Shape);
    };
    Ok(Expression::Present(name))
}

/// A part in a box, if it was read.
fn boxed(alloc: Global, part: Result<Expression, Misread>) -> Result<Box<Expression>, Misread>
    ensures { (a : Option NamedTerm) → IsRead term_tree part a → IsRead (λ b. term_tree b.value) result a }
{
    let part = part?;
    let part = Box::new(alloc, part)?;
    Ok(part)
}

/// An operator over one part, if it was read.
fn with_one(
    alloc: Global,
    word: &str,
    part: Result<Expression, Misread>,
) -> Result<Expression, Misread>
    ensures { (a : Option NamedTerm) → IsRead term_tree part a → IsRead term_tree result (with_one word.now a) }
{
    let part = boxed(alloc, part)?;
    match unary_operator(word) {
        Some(operator) => Ok(Expression::Unary(operator, part)),
        None => Err(Misread::Shape),
    }
}

/// An operator over two parts, if both were read.
fn with_two(
    alloc: Global,
    word: &str,
    first: Result<Expression, Misread>,
    second: Result<Expression, Misread>,
) -> Result<Expression, Misread>
    ensures { (a b : Option NamedTerm) → IsRead term_tree first a → IsRead term_tree second b
        → IsRead term_tree result (with_two word.now a b) }
{
    let (first, second) = both(boxed(alloc, first), boxed(alloc, second))?;
    match binary_operator(word) {
        Some(operator) => Ok(Expression::Binary(operator, first, second)),
        None => Err(Misread::Shape),
    }
}

/// A choice or a product over a divisor, if all three parts were read.
fn with_three(
    alloc: Global,
    word: &str,
    test: Result<Expression, Misread>,
    first: Result<Expression, Misread>,
    second: Result<Expression, Misread>,
) -> Result<Expression, Misread>
    ensures { (c a b : Option NamedTerm) → IsRead term_tree test c → IsRead term_tree first a
        → IsRead term_tree second b → IsRead term_tree result (with_three word.now c a b) }
{
    let parts = both(boxed(alloc, first), boxed(alloc, second));
    let (test, (first, second)) = both(boxed(alloc, test), parts)?;
    match word {
        "if" => Ok(Expression::If(test, first, second)),
        "muldiv" => Ok(Expression::MultiplyDivide(test, first, second)),
        _ => Err(Misread::Shape),
    }
}

/// A list of a word and its parts.
#[cycle(term)]
fn parts(alloc: Global, items: &[Value]) -> Result<Expression, Misread>
    ensures ok { IfOk result (λ e. term_of (array (items_view items.now)) ≡ Some (term_tree e)) }
    ensures err { result ≡ Err Misread.Shape → term_of (array (items_view items.now)) ≡ None }
{
    let Some(word) = first_word(items) else {
        return Err(Misread::Shape);
    };
    match items {
        [_] => with_none(word),
        [_, part] => {
            if word == "present" {
                return presence(part);
            }
            let part = expression(alloc, part);
            with_one(alloc, word, part)
        }
        [_, first, second] => {
            if word == "at" {
                let index = expression(alloc, second);
                return with_cell(alloc, first, index);
            }
            let first = expression(alloc, first);
            let second = expression(alloc, second);
            with_two(alloc, word, first, second)
        }
        [_, test, first, second] => {
            let test = expression(alloc, test);
            let first = expression(alloc, first);
            let second = expression(alloc, second);
            with_three(alloc, word, test, first, second)
        }
        [] => Err(Misread::Shape),
        [_, _, _, _, _, ..] => Err(Misread::Shape),
    }
}

/// The expression that a value is.
#[cycle(term)]
pub(crate) fn expression(alloc: Global, value: &Value) -> Result<Expression, Misread>
    ensures ok { IfOk result (λ e. term_of (view value.now) ≡ Some (term_tree e)) }
    ensures err { result ≡ Err Misread.Shape → term_of (view value.now) ≡ None }
{
    match value {
        Value::Number(number) => {
            let Some(number) = number.as_i64() else {
                return Err(Misread::Shape);
            };
            Ok(Expression::Number(number))
        }
        Value::String(text) => {
            let Some(name) = Name::read(text.as_str()) else {
                return Err(Misread::Shape);
            };
            Ok(Expression::Value(name))
        }
        Value::Array(items) => parts(alloc, items.as_slice()),
        _ => Err(Misread::Shape),
    }
}
