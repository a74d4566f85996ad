//! Bodies that go past a limit.
ghost use Rattle.std.specs.Prelude.{◌≡◌, ◌≤◌, ◌-◌, ◌*◌, nat_lt, SomeIff};
ghost use Rattle.std.specs.List.{list_any};
ghost use Rattle.warp_prog.specs.Limits.{term_depth, statement_depth, body_depth, statement_terms, body_terms};
ghost use Rattle.warp_prog.specs.Limits.{statement_delays, body_delays, is_too_deep, period_exceeds, body_exceeds};
ghost use Rattle.warp_prog.specs.Limits.{body_mosts, body_wishes, most_exceeds, statement_mosts, statement_wishes};
ghost use Rattle.warp_prog.specs.View.{term_tree, statement_tree};
ghost use Rattle.warp_prog.specs.inner.Rule.{statements_tree};

use crate::file::{Expression, Statement};
use crate::limits::{is_outside, longest_period};
use warp_tag::Form;

/// How deep an expression may be, and a list of statements.
pub(crate) const DEEPEST: usize = 24;

/// How many schedulings may be written in a body.
pub(crate) const MOST_WISHES: usize = 16;

/// How often a loop may turn.
pub(crate) const MOST_TURNS: i64 = 65_536;

/// Whether a body is too deep or schedules too often, an expression in it is too deep, or a delay or the most turns of a
/// loop are outside their range.
pub(crate) fn body_exceeds(body: &[Statement], form: Form) -> bool
    ensures { result ≡ body_exceeds form (statements_tree body.now) }
{
    has_deep_term(body)
        || is_deeper(body, DEEPEST)
        || delay_exceeds(body, form)
        || turns_exceed(body)
        || room_for_wishes(body, MOST_WISHES).is_none()
}

/// Whether an expression in the body is too deep.
#[cycle(has_deep_term)]
#[tactic(auto, using(crate::proofs::Anys::anys))]
fn has_deep_term(body: &[Statement]) -> bool
    ensures { result ≡ list_any is_too_deep (body_terms (statements_tree body.now)) }
{
    for statement in body {
        if statement_has_deep_term(statement) {
            return true;
        }
    }
    false
}

#[cycle(has_deep_term)]
#[tactic(auto, using(crate::proofs::Anys::anys))]
fn statement_has_deep_term(statement: &Statement) -> bool
    ensures { result ≡ list_any is_too_deep (statement_terms (statement_tree statement.now)) }
{
    match statement {
        Statement::Set(_, term) | Statement::Put(_, term) | Statement::Schedule(_, _, term) => {
            is_deeper_term(term, DEEPEST)
        }
        Statement::If(condition, first, second) => {
            is_deeper_term(condition, DEEPEST) || has_deep_term(first) || has_deep_term(second)
        }
        Statement::SetAt(_, index, term) => {
            is_deeper_term(index, DEEPEST) || is_deeper_term(term, DEEPEST)
        }
        Statement::While(_, test, turn) => is_deeper_term(test, DEEPEST) || has_deep_term(turn),
    }
}

/// Whether an expression has more than so many levels.
pub(crate) fn is_deeper_term(term: &Expression, levels: usize) -> bool
    ensures { result ≡ nat_lt levels (term_depth (term_tree term.now)) }
{
    let Some(below) = levels.checked_sub(1) else {
        return true;
    };
    match term {
        Expression::Number(_)
        | Expression::Value(_)
        | Expression::Present(_)
        | Expression::Time
        | Expression::Microstep => false,
        Expression::Unary(_, a) | Expression::At(_, a) => is_deeper_term(a, below),
        Expression::Binary(_, a, b) => is_deeper_term(a, below) || is_deeper_term(b, below),
        Expression::If(condition, a, b) | Expression::MultiplyDivide(condition, a, b) => {
            is_deeper_term(condition, below) || is_deeper_term(a, below) || is_deeper_term(b, below)
        }
    }
}

/// Whether the body has more than so many levels of statements.
#[cycle(is_deeper)]
fn is_deeper(body: &[Statement], levels: usize) -> bool
    ensures { result ≡ nat_lt levels (body_depth (statements_tree body.now)) }
{
    for statement in body {
        if is_deeper_statement(statement, levels) {
            return true;
        }
    }
    false
}

#[cycle(is_deeper)]
fn is_deeper_statement(statement: &Statement, levels: usize) -> bool
    ensures { result ≡ nat_lt levels (statement_depth (statement_tree statement.now)) }
{
    let Some(below) = levels.checked_sub(1) else {
        return true;
    };
    match statement {
        Statement::Set(..) | Statement::Put(..) | Statement::Schedule(..) | Statement::SetAt(..) =>
            false,
        Statement::If(_, first, second) => is_deeper(first, below) || is_deeper(second, below),
        Statement::While(_, _, turn) => is_deeper(turn, below),
    }
}

/// Whether a scheduling in the body has a delay outside its range.
#[cycle(delay_exceeds)]
#[tactic(auto, using(crate::proofs::Anys::anys))]
fn delay_exceeds(body: &[Statement], form: Form) -> bool
    ensures { result ≡ list_any (period_exceeds form) (body_delays (statements_tree body.now)) }
{
    for statement in body {
        if statement_delay_exceeds(statement, form) {
            return true;
        }
    }
    false
}

#[cycle(delay_exceeds)]
#[tactic(auto, using(crate::proofs::Anys::anys))]
fn statement_delay_exceeds(statement: &Statement, form: Form) -> bool
    ensures { result ≡ list_any (period_exceeds form) (statement_delays (statement_tree statement.now)) }
{
    match statement {
        Statement::Set(..) | Statement::Put(..) | Statement::SetAt(..) => false,
        Statement::Schedule(_, delay, _) => is_outside(*delay, 0, longest_period(form)),
        Statement::If(_, first, second) => {
            delay_exceeds(first, form) || delay_exceeds(second, form)
        }
        Statement::While(_, _, turn) => delay_exceeds(turn, form),
    }
}

/// Whether a loop in the body may turn too often, or never.
#[cycle(turns_exceed)]
#[tactic(auto, using(crate::proofs::Anys::anys))]
fn turns_exceed(body: &[Statement]) -> bool
    ensures { result ≡ list_any most_exceeds (body_mosts (statements_tree body.now)) }
{
    for statement in body {
        if statement_turns_exceed(statement) {
            return true;
        }
    }
    false
}

#[cycle(turns_exceed)]
#[tactic(auto, using(crate::proofs::Anys::anys))]
fn statement_turns_exceed(statement: &Statement) -> bool
    ensures { result ≡ list_any most_exceeds (statement_mosts (statement_tree statement.now)) }
{
    match statement {
        Statement::Set(..) | Statement::Put(..) | Statement::Schedule(..) | Statement::SetAt(..) =>
            false,
        Statement::If(_, first, second) => turns_exceed(first) || turns_exceed(second),
        Statement::While(most, _, turn) => is_outside(*most, 1, MOST_TURNS) || turns_exceed(turn),
    }
}

/// The room that is left of so much after the schedulings in the body, those of a loop as often as it may turn; `None`
/// where it is not enough.
#[cycle(room_for_wishes)]
pub(crate) fn room_for_wishes(body: &[Statement], room: usize) -> Option<usize>
    ensures { let n = body_wishes (statements_tree body.now) in SomeIff result (n ≤ room) (room - n) }
{
    let mut left = room;
    for statement in body {
        left = room_for_wishes_of(statement, left)?;
    }
    Some(left)
}

#[cycle(room_for_wishes)]
fn room_for_wishes_of(statement: &Statement, room: usize) -> Option<usize>
    ensures { let n = statement_wishes (statement_tree statement.now) in SomeIff result (n ≤ room) (room - n) }
{
    match statement {
        Statement::Set(..) | Statement::Put(..) | Statement::SetAt(..) => Some(room),
        Statement::Schedule(..) => room.checked_sub(1),
        Statement::If(_, first, second) => {
            let left = room_for_wishes(first, room)?;
            room_for_wishes(second, left)
        }
        Statement::While(most, _, turn) => {
            room_for_turns(most.unsigned_abs() as usize, turn, room)
        }
    }
}

/// The same of so many turns of a body: it is enough where each turn has its share.
#[cycle(room_for_wishes)]
fn room_for_turns(turns: usize, body: &[Statement], room: usize) -> Option<usize>
    ensures { let n = turns * body_wishes (statements_tree body.now) in SomeIff result (n ≤ room) (room - n) }
{
    if turns == 0 {
        return Some(room);
    }
    let each = room / turns;
    let left = room_for_wishes(body, each)?;
    Some(room - turns * (each - left))
}
