//! Bodies with numbers in the place of names.
ghost use Rattle.std.specs.Prelude.{◌≡◌, IfOk, false, map};
ghost use Rattle.warp_body.specs.Effect.{Body, Choose, Repeat, statement_of, statements_of};
ghost use Rattle.warp_body.specs.Term.{Term, OfTwo, Choice, ProductOver, term_of};
ghost use Rattle.warp_prog.specs.File.{Named};
ghost use Rattle.warp_prog.specs.Numbered.{numbered_term, numbered_statement, numbered_body};
ghost use Rattle.warp_prog.specs.inner.Room.{HasRoom, loop_exceeds, loops_exceed};
ghost use Rattle.warp_prog.specs.View.{reactor_tree, term_tree, statement_tree, body_tree};

use crate::file::{Expression, Reactor, Statement};
use crate::name::Name;
use crate::numbered::place::{
    action_number, cells_named, output_number, place_of, readable, variable_number,
};
use crate::scope::Before;
use crate::two_results::both;
use std::alloc::Global;
use warp_body::{BinaryOperator, Expr, Stmt};
use warp_tag::OutOfMemory;

/// What a name stands for in an expression: a variable if the reactor has one, else what is read by that name.
fn numbered_name(before: &Before, reactor: &Reactor, name: &Name) -> Expr
    requires { HasRoom before.now (reactor_tree reactor.now) }
    ensures { term_of result ≡ numbered_term before.now (reactor_tree reactor.now) (Named name.now) }
{
    match place_of(&reactor.variables, name) {
        Some(place) => Expr::Variable((before.variables + place) as u32),
        None => Expr::Value(readable(before, reactor, name)),
    }
}

/// A part in a box, if it was numbered.
fn boxed(alloc: Global, part: Result<Expr, OutOfMemory>) -> Result<Box<Expr>, OutOfMemory>
    ensures { (a : Term) → IfOk part (λ e. term_of e ≡ a) → IfOk result (λ b. term_of b.value ≡ a) }
{
    let part = part?;
    let part = Box::new(alloc, part)?;
    Ok(part)
}

/// An operator over two parts, if both were numbered.
fn with_two(
    alloc: Global,
    operator: BinaryOperator,
    first: Result<Expr, OutOfMemory>,
    second: Result<Expr, OutOfMemory>,
) -> Result<Expr, OutOfMemory>
    ensures { (a b : Term) → IfOk first (λ e. term_of e ≡ a) → IfOk second (λ e. term_of e ≡ b)
        → IfOk result (λ e. term_of e ≡ OfTwo operator a b) }
{
    let (first, second) = both(boxed(alloc, first), boxed(alloc, second))?;
    Ok(Expr::Binary(operator, first, second))
}

/// A choice, if all three parts were numbered.
fn with_three(
    alloc: Global,
    test: Result<Expr, OutOfMemory>,
    first: Result<Expr, OutOfMemory>,
    second: Result<Expr, OutOfMemory>,
) -> Result<Expr, OutOfMemory>
    ensures { (c a b : Term) → IfOk test (λ e. term_of e ≡ c) → IfOk first (λ e. term_of e ≡ a)
        → IfOk second (λ e. term_of e ≡ b) → IfOk result (λ e. term_of e ≡ Choice c a b) }
{
    let parts = both(boxed(alloc, first), boxed(alloc, second));
    let (test, (first, second)) = both(boxed(alloc, test), parts)?;
    Ok(Expr::If(test, first, second))
}

/// A product over a divisor, if all three parts were numbered.
fn product_over(
    alloc: Global,
    first: Result<Expr, OutOfMemory>,
    second: Result<Expr, OutOfMemory>,
    divisor: Result<Expr, OutOfMemory>,
) -> Result<Expr, OutOfMemory>
    ensures { (a b c : Term) → IfOk first (λ e. term_of e ≡ a) → IfOk second (λ e. term_of e ≡ b)
        → IfOk divisor (λ e. term_of e ≡ c) → IfOk result (λ e. term_of e ≡ ProductOver a b c) }
{
    let parts = both(boxed(alloc, second), boxed(alloc, divisor));
    let (first, (second, divisor)) = both(boxed(alloc, first), parts)?;
    Ok(Expr::MultiplyDivide(first, second, divisor))
}

fn numbered_term(
    alloc: Global,
    before: &Before,
    reactor: &Reactor,
    term: &Expression,
) -> Result<Expr, OutOfMemory>
    requires { HasRoom before.now (reactor_tree reactor.now) }
    ensures { IfOk result (λ e. term_of e ≡ numbered_term before.now (reactor_tree reactor.now) (term_tree term.now)) }
{
    match term {
        Expression::Number(n) => Ok(Expr::Number(*n)),
        Expression::Value(name) => Ok(numbered_name(before, reactor, name)),
        Expression::Present(name) => Ok(Expr::Present(readable(before, reactor, name))),
        Expression::Unary(operator, a) => {
            let a = boxed(alloc, numbered_term(alloc, before, reactor, a))?;
            Ok(Expr::Unary(*operator, a))
        }
        Expression::Binary(operator, a, b) => {
            let a = numbered_term(alloc, before, reactor, a);
            let b = numbered_term(alloc, before, reactor, b);
            with_two(alloc, *operator, a, b)
        }
        Expression::MultiplyDivide(a, b, c) => {
            let a = numbered_term(alloc, before, reactor, a);
            let b = numbered_term(alloc, before, reactor, b);
            let c = numbered_term(alloc, before, reactor, c);
            product_over(alloc, a, b, c)
        }
        Expression::At(name, index) => {
            let cells = cells_named(before, reactor, name);
            let index = boxed(alloc, numbered_term(alloc, before, reactor, index))?;
            Ok(Expr::At(cells.first, cells.count, index))
        }
        Expression::Time => Ok(Expr::Time),
        Expression::Microstep => Ok(Expr::Microstep),
        Expression::If(condition, a, b) => {
            let condition = numbered_term(alloc, before, reactor, condition);
            let a = numbered_term(alloc, before, reactor, a);
            let b = numbered_term(alloc, before, reactor, b);
            with_three(alloc, condition, a, b)
        }
    }
}

/// A choice between two lists, if all of it was numbered.
fn choice(
    condition: Result<Expr, OutOfMemory>,
    first: Result<Vec<Stmt>, OutOfMemory>,
    second: Result<Vec<Stmt>, OutOfMemory>,
) -> Result<Stmt, OutOfMemory>
    ensures { (c : Term) (a b : Body) → IfOk condition (λ e. term_of e ≡ c)
        → IfOk first (λ ss. statements_of ss.items ≡ a) → IfOk second (λ ss. statements_of ss.items ≡ b)
        → IfOk result (λ s. statement_of s ≡ Choose c a b) }
{
    let (condition, rest) = both(condition, both(first, second))?;
    let (first, second) = rest;
    Ok(Stmt::If(condition, first, second))
}

/// A loop of so many turns at most, if all of it was numbered.
fn repeat(
    most: u32,
    test: Result<Expr, OutOfMemory>,
    turn: Result<Vec<Stmt>, OutOfMemory>,
) -> Result<Stmt, OutOfMemory>
    ensures { (c : Term) (b : Body) → IfOk test (λ e. term_of e ≡ c)
        → IfOk turn (λ ss. statements_of ss.items ≡ b) → IfOk result (λ s. statement_of s ≡ Repeat most c b) }
{
    let (test, turn) = both(test, turn)?;
    Ok(Stmt::While(most, test, turn))
}

#[cycle(numbered_statement)]
fn numbered_statement(
    alloc: Global,
    before: &Before,
    reactor: &Reactor,
    statement: &Statement,
) -> Result<Stmt, OutOfMemory>
    requires room { HasRoom before.now (reactor_tree reactor.now) }
    requires loops { loop_exceeds (statement_tree statement.now) ≡ false }
    ensures { let r = reactor_tree reactor.now in
        IfOk result (λ s. statement_of s ≡ numbered_statement before.now r (statement_tree statement.now)) }
{
    match statement {
        Statement::Set(name, term) => {
            let variable = variable_number(before, reactor, name);
            Ok(Stmt::Set(variable, numbered_term(alloc, before, reactor, term)?))
        }
        Statement::Put(name, term) => {
            let port = output_number(before, reactor, name);
            Ok(Stmt::Put(port, numbered_term(alloc, before, reactor, term)?))
        }
        Statement::Schedule(name, delay, term) => {
            let action = action_number(before, reactor, name);
            Ok(Stmt::Schedule(
                action,
                delay.unsigned_abs(),
                numbered_term(alloc, before, reactor, term)?,
            ))
        }
        Statement::If(condition, first, second) => {
            let condition = numbered_term(alloc, before, reactor, condition);
            let first = numbered_body(alloc, before, reactor, first);
            let second = numbered_body(alloc, before, reactor, second);
            choice(condition, first, second)
        }
        Statement::SetAt(name, index, term) => {
            let cells = cells_named(before, reactor, name);
            let index = numbered_term(alloc, before, reactor, index)?;
            let value = numbered_term(alloc, before, reactor, term)?;
            Ok(Stmt::SetAt(cells.first, cells.count, index, value))
        }
        Statement::While(most, test, turn) => {
            let test = numbered_term(alloc, before, reactor, test);
            let turn = numbered_body(alloc, before, reactor, turn);
            repeat(most.unsigned_abs() as u32, test, turn)
        }
    }
}

/// The statements of a body in a reactor.
#[cycle(numbered_statement)]
pub(crate) fn numbered_body(
    alloc: Global,
    before: &Before,
    reactor: &Reactor,
    body: &[Statement],
) -> Result<Vec<Stmt>, OutOfMemory>
    requires room { HasRoom before.now (reactor_tree reactor.now) }
    requires loops { loops_exceed (body_tree (map statement_tree body.now)) ≡ false }
    ensures { let r = reactor_tree reactor.now in
        IfOk result
        (λ ss. statements_of ss.items ≡ numbered_body before.now r (body_tree (map statement_tree body.now))) }
{
    let mut numbered = Vec::with_capacity(alloc, body.len())?;
    for statement in body {
        let next = numbered_statement(alloc, before, reactor, statement)?;
        numbered.push(next)?;
    }
    Ok(numbered)
}
