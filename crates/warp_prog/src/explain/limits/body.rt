//! Where a body goes past a limit.

use crate::explain::reason::Reason;
use crate::explain::trail::{Segment, Trail};
use crate::file::{Expression, Statement};
use crate::limits::body::{DEEPEST, MOST_TURNS, MOST_WISHES, is_deeper_term};
use crate::limits::{longest_period, range_exceeds};
use warp_tag::Form;

/// Notes where a body goes past a limit.
pub(crate) fn note_body(body: &[Statement], form: Form, at: &mut Trail) {
    let longest = longest_period(form);
    if !statements_fail(body, DEEPEST, longest, Segment::Key("body"), at) {
        let reason = Reason::Many("\"schedule\"", MOST_WISHES);
        at.fault_at(Segment::Key("body"), reason);
    }
}

/// Whether one of the statements does, whose lists may have so many levels, and their delays be so long. This segment
/// leads to them.
#[cycle(statements_fail)]
fn statements_fail(
    body: &[Statement],
    levels: usize,
    longest: i64,
    segment: Segment,
    at: &mut Trail,
) -> bool {
    for (i, statement) in body.iter().enumerate() {
        if statement_fails(statement, levels, longest, at) {
            return at.back_to_item(segment, i);
        }
    }
    false
}

#[cycle(statements_fail)]
fn statement_fails(statement: &Statement, levels: usize, longest: i64, at: &mut Trail) -> bool {
    let Some(below) = levels.checked_sub(1) else {
        return at.fault(Reason::Plain("the lists of statements are more than 24 deep"));
    };
    match statement {
        Statement::Set(_, term) | Statement::Put(_, term) => term_fails(term, 2, at),
        Statement::Schedule(_, delay, term) => {
            range_exceeds(*delay, 0, longest, Segment::Item(2), at) || term_fails(term, 3, at)
        }
        Statement::If(test, first, second) => {
            term_fails(test, 1, at)
                || statements_fail(first, below, longest, Segment::Item(2), at)
                || statements_fail(second, below, longest, Segment::Item(3), at)
        }
        Statement::SetAt(_, index, term) => term_fails(index, 2, at) || term_fails(term, 3, at),
        Statement::While(most, test, turn) => {
            range_exceeds(*most, 1, MOST_TURNS, Segment::Item(1), at)
                || term_fails(test, 2, at)
                || statements_fail(turn, below, longest, Segment::Item(3), at)
        }
    }
}

/// Whether an expression is too deep; it stands at this place of its statement.
fn term_fails(term: &Expression, place: usize, at: &mut Trail) -> bool {
    let reason = Reason::Plain("the expression is more than 24 deep");
    is_deeper_term(term, DEEPEST) && at.fault_at(Segment::Item(place), reason)
}
