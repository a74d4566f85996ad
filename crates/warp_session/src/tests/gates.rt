//! A gate is called before each line of a session comes to the desk, and behind its reply, with the line's number.
ghost use Rattle.warp_tag.specs.declared.form.Form.{Form};

use crate::door::Gate;
use crate::serving::attend;
use crate::tests::memory::Talk;
use std::alloc::Global;
use std::process::Abort;
use std::sync::{Mutex, Wait};
use warp_exchange::Desk;
use warp_record::{Line, Reply};
use warp_tag::Form;

/// What is noted of an ask: by the gate with the numbers of session and ask, and by the desk.
#[derive(Clone, Copy, Debug, PartialEq, Eq)]
enum Note {
    Before(u32, u64),
    Asked,
    After(u32, u64),
}

/// What a gate and a desk note, in order.
#[derive(Drop)]
struct Journal<'a, X: Wait + Abort> {
    rt: &'a X,
    notes: Mutex<Vec<Note>>,
}

impl<'a, X: Wait + Abort> Journal<'a, X> {
    fn new(rt: &'a X, alloc: Global) -> Journal<'a, X> {
        Journal {
            rt,
            notes: Mutex::new(Vec::new(alloc)),
        }
    }

    fn add(&self, note: Note) {
        self.notes
            .lock(self.rt)
            .push(note)
            .expect(self.rt, "memory");
    }

    /// Whether just these were noted.
    fn holds(&self, notes: &[Note]) -> bool {
        self.notes.lock(self.rt).as_slice() == notes
    }
}

impl<'a, X: Wait + Abort> Gate for Journal<'a, X> {
    fn before_ask(&self, session: u32, n: u64) {
        self.add(Note::Before(session, n));
    }

    fn after_reply(&self, session: u32, n: u64) {
        self.add(Note::After(session, n));
    }
}

/// A desk that notes each ask.
#[derive(Drop)]
struct NotingDesk<'a, X: Wait + Abort> {
    journal: &'a Journal<'a, X>,
}

impl<'a, X: Wait + Abort> Desk for NotingDesk<'a, X> {
    ghost State = { Unit {0} };

    ghost state = { λ _. tt };

    ghost gives = { λ _ _ _ _. Unit {0} };

    ghost form_of = { λ _. Form.One };

    fn form(&self) -> Form {
        Form::One
    }

    fn asks_together() -> bool {
        true
    }

    fn ask(&mut self, _line: Line) -> Reply {
        self.journal.add(Note::Asked);
        Reply::NoRow
    }
}

/// What is noted of the two lines of session 3.
const TWO_LINES: [Note; 6] = [
    Note::Before(3, 0),
    Note::Asked,
    Note::After(3, 0),
    Note::Before(3, 1),
    Note::Asked,
    Note::After(3, 1),
];

/// A session of two lines at a desk with this gate.
fn ask_twice<X: Wait + Abort>(rt: &X, alloc: Global, journal: &Journal<'_, X>) {
    let talk = Talk::new(alloc, "var 0\nvar 0\n");
    let (source, sink) = talk.both(rt);
    attend(alloc, NotingDesk { journal }, source, sink, journal, 3);
}

#[test]
fn a_gate_is_called_round_each_ask(rt: HostRuntime) {
    let journal = Journal::new(&rt, rt.alloc());
    ask_twice(&rt, rt.alloc(), &journal);
    assert!(&rt; journal.holds(&TWO_LINES));
}
