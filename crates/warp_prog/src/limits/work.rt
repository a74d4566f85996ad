//! The work of a file: how many nodes of expressions and statements one tag may walk at most, each loop's as often as it
//! may turn. Only files of version 4 have a limit of it.
ghost use Rattle.std.specs.Prelude.{◌≡◌, ◌≤◌, ◌+◌, ◌-◌, ◌*◌, max, map, nat_lt, SomeIff, if◌then◌else◌};
ghost use Rattle.warp_prog.specs.Limits.{total};
ghost use Rattle.warp_prog.specs.View.{file_tree, reaction_tree, reactor_tree, statement_tree, term_tree};
ghost use Rattle.warp_prog.specs.Work.{body_work, most_work, reaction_work, reactor_work, statement_work, term_work};
ghost use Rattle.warp_prog.specs.Work.{IsWork, each_work, greatest, place_of, shown, turns_work, work_exceeds};
ghost use Rattle.warp_prog.specs.inner.Rule.{statements_tree};

use crate::explain::limits::work::note_work;
use crate::explain::trail::Trail;
use crate::file::{Expression, ProgramFile, Reaction, Reactor, Statement};
use crate::limits::form_of_version;
use warp_tag::Form;

/// How much work the reactions of a file are: together, and the one that is the most, the first of several, by its place
/// in its reactor and that of its reactor.
#[derive(Clone, Copy, Debug, Drop, PartialEq, Eq)]
pub struct Work {
    /// All together.
    pub all: u64,
    /// The most that one is; 0 where there is none.
    pub most: u64,
    /// The place of its reactor.
    pub reactor: usize,
    /// Its place among the reactions of its reactor.
    pub reaction: usize,
}

/// How much work all reactions of a file may be together.
pub(crate) const MOST_WORK: u64 = 2_000_000;

/// Whether the reactions of a file are too much work.
pub(crate) fn work_exceeds(file: &ProgramFile, at: &mut Trail) -> bool
    ensures { result ≡ work_exceeds (file_tree file.now) }
{
    match form_of_version(file.version) {
        Form::One | Form::Two | Form::Three => false,
        Form::Four => are_more_work(&file.reactors) && note_work(&file.reactors, at),
    }
}

/// Whether all reactions of these reactors are too much work together.
fn are_more_work(reactors: &[Reactor]) -> bool
    ensures { result ≡ nat_lt most_work (total reactor_work (map reactor_tree reactors.now)) }
{
    room_after_all(reactors, MOST_WORK).is_none()
}

/// The room that is left of so much after the work of these reactors; `None` where it is not enough.
fn room_after_all(reactors: &[Reactor], room: u64) -> Option<u64>
    ensures { let n = total reactor_work (map reactor_tree reactors.now) in SomeIff result (n ≤ room) (room - n) }
{
    let mut left = room;
    for reactor in reactors {
        left = room_after_reactor(reactor, left)?;
    }
    Some(left)
}

/// The same of a reactor's reactions.
pub(crate) fn room_after_reactor(reactor: &Reactor, room: u64) -> Option<u64>
    ensures { let n = reactor_work (reactor_tree reactor.now) in SomeIff result (n ≤ room) (room - n) }
{
    let mut left = room;
    for reaction in &reactor.reactions {
        left = room_after_reaction(reaction, left)?;
    }
    Some(left)
}

/// The same of a reaction.
pub(crate) fn room_after_reaction(reaction: &Reaction, room: u64) -> Option<u64>
    ensures { let n = reaction_work (reaction_tree reaction.now) in SomeIff result (n ≤ room) (room - n) }
{
    room_after_body(&reaction.body, room)
}

/// The same of a list of statements.
#[cycle(room_after_body)]
fn room_after_body(body: &[Statement], room: u64) -> Option<u64>
    ensures { let n = body_work (statements_tree body.now) in SomeIff result (n ≤ room) (room - n) }
{
    let mut left = room;
    for statement in body {
        left = room_after_statement(statement, left)?;
    }
    Some(left)
}

/// The same of a statement.
#[cycle(room_after_body)]
fn room_after_statement(statement: &Statement, room: u64) -> Option<u64>
    ensures { let n = statement_work (statement_tree statement.now) in SomeIff result (n ≤ room) (room - n) }
{
    let left = room.checked_sub(1)?;
    match statement {
        Statement::Set(_, term) | Statement::Put(_, term) | Statement::Schedule(_, _, term) => {
            room_after_term(term, left)
        }
        Statement::If(test, first, second) => {
            let left = room_after_term(test, left)?;
            let left = room_after_body(first, left)?;
            room_after_body(second, left)
        }
        Statement::SetAt(_, index, term) => {
            let left = room_after_term(index, left)?;
            room_after_term(term, left)
        }
        Statement::While(most, test, turn) => {
            let left = room_after_term(test, left)?;
            room_after_turns(most.unsigned_abs(), turn, test, left)
        }
    }
}

/// The same of so many turns of a loop: the test, the list and one more each. It is enough where each turn has its share.
#[cycle(room_after_body)]
fn room_after_turns(turns: u64, turn: &[Statement], test: &Expression, room: u64) -> Option<u64>
    ensures { let n = turns_work turns (term_tree test.now) (statements_tree turn.now) in
        SomeIff result (n ≤ room) (room - n) }
{
    if turns == 0 {
        return Some(room);
    }
    let each = room / turns;
    let left = each.checked_sub(1)?;
    let left = room_after_term(test, left)?;
    let left = room_after_body(turn, left)?;
    Some(room - turns * (each - left))
}

/// The same of an expression.
fn room_after_term(term: &Expression, room: u64) -> Option<u64>
    ensures { let n = term_work (term_tree term.now) in SomeIff result (n ≤ room) (room - n) }
{
    let left = room.checked_sub(1)?;
    match term {
        Expression::Number(_)
        | Expression::Value(_)
        | Expression::Present(_)
        | Expression::Time
        | Expression::Microstep => Some(left),
        Expression::Unary(_, a) | Expression::At(_, a) => room_after_term(a, left),
        Expression::Binary(_, a, b) => {
            let left = room_after_term(a, left)?;
            room_after_term(b, left)
        }
        Expression::If(a, b, c) | Expression::MultiplyDivide(a, b, c) => {
            let left = room_after_term(a, left)?;
            let left = room_after_term(b, left)?;
            room_after_term(c, left)
        }
    }
}

/// The work of the reactions of a file. Of more than a count can show it is the greatest one, as in no file of version 4
/// that is within the limits.
pub(crate) fn work_of(file: &ProgramFile) -> Work
    ensures { IsWork (file_tree file.now) result }
{
    let mut work = Work {
        all: 0,
        most: 0,
        reactor: 0,
        reaction: 0,
    };
    for (i, reactor) in file.reactors.iter().enumerate() {
        add_reactor(&mut work, i, reactor);
    }
    work
}

/// Adds the work of the reactions of the reactor at this place.
fn add_reactor(work: &mut Work, place: usize, reactor: &Reactor)
    ensures all { work.new.all ≡ shown (work.old.all + reactor_work (reactor_tree reactor.now)) }
    ensures most { work.new.most ≡ max work.old.most (greatest (each_work (reactor_tree reactor.now).reactions)) }
    ensures reactor { let most = greatest (each_work (reactor_tree reactor.now).reactions) in
        work.new.reactor ≡ (if nat_lt work.old.most most then place else work.old.reactor) }
    ensures reaction { let works = each_work (reactor_tree reactor.now).reactions in let most = greatest works in
        work.new.reaction ≡ (if nat_lt work.old.most most then place_of most works else work.old.reaction) }
{
    // Read once, so that its range is known to the proof.
    let _so_far = work.all;
    for (i, reaction) in reactor.reactions.iter().enumerate() {
        work.add(place, i, shown_work(reaction));
    }
}

/// The work of a reaction, as far as a count shows it.
fn shown_work(reaction: &Reaction) -> u64
    ensures { result ≡ shown (reaction_work (reaction_tree reaction.now)) }
{
    match room_after_reaction(reaction, u64::MAX) {
        Some(left) => u64::MAX - left,
        None => u64::MAX,
    }
}

impl Work {
    /// Adds the work of the reaction at this place of the reactor at that one.
    fn add(&mut self, reactor: usize, reaction: usize, its: u64)
        ensures all { self.new.all ≡ shown (self.old.all + its) }
        ensures most { self.new.most ≡ max self.old.most its }
        ensures reactor { self.new.reactor ≡ (if nat_lt self.old.most its then reactor else self.old.reactor) }
        ensures reaction { self.new.reaction ≡ (if nat_lt self.old.most its then reaction else self.old.reaction) }
    {
        self.all = self.all.saturating_add(its);
        if its > self.most {
            self.most = its;
            self.reactor = reactor;
            self.reaction = reaction;
        }
    }
}
