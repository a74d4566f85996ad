//! What a body does with names: one walk for both tests of its uses.
ghost use Rattle.std.specs.Prelude.{◌≡◌, not};
ghost use Rattle.warp_prog.specs.Uses.{term_uses, statement_uses, body_uses};
ghost use Rattle.warp_prog.specs.View.{term_tree, statement_tree};
ghost use Rattle.warp_prog.specs.inner.Rule.{meets, breaks, statements_tree};

use crate::explain::reason::Reason;
use crate::explain::trail::{Segment, Trail};
use crate::file::{Expression, Reaction, Reactor, Statement};
use crate::name::Name;
use crate::role::{Role, fits};
use crate::undeclared::{is_declared, undeclared};

/// What is asked of each use.
#[derive(Clone, Copy)]
pub(crate) enum Rule<'f> {
    /// It names a thing of the reactor, of its kind.
    Known(&'f Reactor),
    /// The reaction declares it.
    Declared(&'f Reactor, &'f Reaction),
}

/// Whether a use of a name in this role breaks the rule.
fn use_breaks<'f>(rule: &Rule<'f>, role: Role, name: &'f Name, at: &mut Trail<'f>) -> bool
    ensures { result ≡ not (meets rule.now role name.now) }
{
    match *rule {
        Rule::Known(reactor) => {
            !fits(reactor, role, name) && at.fault(Reason::Unknown(name, role, reactor))
        }
        Rule::Declared(reactor, reaction) => {
            !is_declared(reactor, reaction, role, name) && at.fault(undeclared(role, name))
        }
    }
}

/// The same of a name that is the second item of its list.
fn second_breaks<'f>(rule: &Rule<'f>, role: Role, name: &'f Name, at: &mut Trail<'f>) -> bool
    ensures { result ≡ not (meets rule.now role name.now) }
{
    use_breaks(rule, role, name, at) && at.back(Segment::Item(1))
}

/// Whether a use in the body, to which this segment leads, breaks the rule.
#[cycle(breaks)]
#[tactic(auto, using(crate::proofs::Anys::anys))]
pub(crate) fn breaks<'f>(
    rule: &Rule<'f>,
    body: &'f [Statement],
    segment: Segment,
    at: &mut Trail<'f>,
) -> bool
    ensures { result ≡ breaks rule.now (body_uses (statements_tree body.now)) }
{
    for (i, statement) in body.iter().enumerate() {
        if statement_breaks(rule, statement, at) {
            return at.back_to_item(segment, i);
        }
    }
    false
}

#[cycle(breaks)]
#[tactic(auto, using(crate::proofs::Anys::anys))]
fn statement_breaks<'f>(rule: &Rule<'f>, statement: &'f Statement, at: &mut Trail<'f>) -> bool
    ensures { result ≡ breaks rule.now (statement_uses (statement_tree statement.now)) }
{
    match statement {
        Statement::Set(name, term) => {
            second_breaks(rule, Role::Variable, name, at) || term_breaks(rule, term, 2, at)
        }
        Statement::Put(name, term) => {
            second_breaks(rule, Role::Output, name, at) || term_breaks(rule, term, 2, at)
        }
        Statement::Schedule(name, _, term) => {
            second_breaks(rule, Role::Action, name, at) || term_breaks(rule, term, 3, at)
        }
        Statement::If(test, first, second) => {
            term_breaks(rule, test, 1, at)
                || breaks(rule, first, Segment::Item(2), at)
                || breaks(rule, second, Segment::Item(3), at)
        }
        Statement::SetAt(name, index, term) => {
            second_breaks(rule, Role::Array, name, at)
                || term_breaks(rule, index, 2, at)
                || term_breaks(rule, term, 3, at)
        }
        Statement::While(_, test, turn) => {
            term_breaks(rule, test, 2, at) || breaks(rule, turn, Segment::Item(3), at)
        }
    }
}

/// Whether a use in the expression at this place breaks the rule.
#[cycle(term_breaks)]
#[tactic(auto, using(crate::proofs::Anys::anys))]
fn term_breaks<'f>(rule: &Rule<'f>, term: &'f Expression, place: usize, at: &mut Trail<'f>) -> bool
    ensures { result ≡ breaks rule.now (term_uses (term_tree term.now)) }
{
    parts_break(rule, term, at) && at.back(Segment::Item(place))
}

#[cycle(term_breaks)]
#[tactic(auto, using(crate::proofs::Anys::anys))]
fn parts_break<'f>(rule: &Rule<'f>, term: &'f Expression, at: &mut Trail<'f>) -> bool
    ensures { result ≡ breaks rule.now (term_uses (term_tree term.now)) }
{
    match term {
        Expression::Number(_) | Expression::Time | Expression::Microstep => false,
        Expression::Value(name) => use_breaks(rule, Role::Value, name, at),
        Expression::Present(name) => second_breaks(rule, Role::Cause, name, at),
        Expression::Unary(_, a) => term_breaks(rule, a, 1, at),
        Expression::Binary(_, a, b) => {
            term_breaks(rule, a, 1, at) || term_breaks(rule, b, 2, at)
        }
        Expression::At(name, index) => {
            second_breaks(rule, Role::Array, name, at) || term_breaks(rule, index, 2, at)
        }
        Expression::If(test, a, b) | Expression::MultiplyDivide(test, a, b) => {
            term_breaks(rule, test, 1, at)
                || term_breaks(rule, a, 2, at)
                || term_breaks(rule, b, 3, at)
        }
    }
}
