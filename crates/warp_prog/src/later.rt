//! Words that came with version 4, which no file of another version may have.
ghost use Rattle.std.specs.Prelude.{◌≡◌, map};
ghost use Rattle.std.specs.List.{list_any};
ghost use Rattle.warp_prog.specs.Later.{any_uses_later, body_uses_later, is_later, is_later_unary};
ghost use Rattle.warp_prog.specs.Later.{reactor_uses_later, statement_uses_later, term_uses_later};
ghost use Rattle.warp_prog.specs.View.{reaction_tree, reactor_tree, statement_tree, term_tree};
ghost use Rattle.warp_prog.specs.inner.Rule.{statements_tree};

use crate::file::{Expression, Reactor, Statement};
use warp_body::{BinaryOperator, UnaryOperator};

/// Whether an operator over one part came with version 4.
fn is_later_unary(operator: UnaryOperator) -> bool
    ensures { result ≡ is_later_unary operator }
{
    match operator {
        UnaryOperator::Negate | UnaryOperator::Not => false,
        UnaryOperator::Absolute => true,
    }
}

/// Whether an operator over two parts came with version 4.
fn is_later(operator: BinaryOperator) -> bool
    ensures { result ≡ is_later operator }
{
    match operator {
        BinaryOperator::Add
        | BinaryOperator::Subtract
        | BinaryOperator::Multiply
        | BinaryOperator::Divide
        | BinaryOperator::Remainder
        | BinaryOperator::Equal
        | BinaryOperator::Less
        | BinaryOperator::And
        | BinaryOperator::Or => false,
        BinaryOperator::Minimum
        | BinaryOperator::Maximum
        | BinaryOperator::BitAnd
        | BinaryOperator::BitOr
        | BinaryOperator::BitXor
        | BinaryOperator::ShiftLeft
        | BinaryOperator::ShiftRight
        | BinaryOperator::Mix => true,
    }
}

/// Whether a word of version 4 stands in an expression.
pub(crate) fn term_uses_later(term: &Expression) -> bool
    ensures { result ≡ term_uses_later (term_tree term.now) }
{
    match term {
        Expression::Number(_) | Expression::Value(_) | Expression::Present(_) => false,
        Expression::Unary(operator, a) => is_later_unary(*operator) || term_uses_later(a),
        Expression::Binary(operator, a, b) => {
            is_later(*operator) || term_uses_later(a) || term_uses_later(b)
        }
        Expression::If(test, a, b) => {
            term_uses_later(test) || term_uses_later(a) || term_uses_later(b)
        }
        Expression::MultiplyDivide(..)
        | Expression::At(..)
        | Expression::Time
        | Expression::Microstep => true,
    }
}

/// Whether a word of version 4 stands in a list of statements.
#[cycle(uses_later)]
fn body_uses_later(body: &[Statement]) -> bool
    ensures { result ≡ body_uses_later (statements_tree body.now) }
{
    for statement in body {
        if statement_uses_later(statement) {
            return true;
        }
    }
    false
}

/// Whether a word of version 4 stands in a statement.
#[cycle(uses_later)]
pub(crate) fn statement_uses_later(statement: &Statement) -> bool
    ensures { result ≡ statement_uses_later (statement_tree statement.now) }
{
    match statement {
        Statement::Set(_, term) | Statement::Put(_, term) | Statement::Schedule(_, _, term) => {
            term_uses_later(term)
        }
        Statement::If(test, first, second) => {
            term_uses_later(test) || body_uses_later(first) || body_uses_later(second)
        }
        Statement::SetAt(..) | Statement::While(..) => true,
    }
}

/// Whether a word of version 4 stands in a reactor's reactions.
fn reactor_uses_later(reactor: &Reactor) -> bool
    ensures { result ≡ reactor_uses_later (reactor_tree reactor.now) }
{
    for reaction in &reactor.reactions {
        if body_uses_later(&reaction.body) {
            return true;
        }
    }
    false
}

/// Whether a word of version 4 stands in the reactions of reactors.
pub(crate) fn any_uses_later(reactors: &[Reactor]) -> bool
    ensures { result ≡ any_uses_later (map reactor_tree reactors.now) }
{
    for reactor in reactors {
        if reactor_uses_later(reactor) {
            return true;
        }
    }
    false
}
