//! Steps that the tests share: lines, the program `twice` and what it comes to.

use std::alloc::Global;
use std::fmt::Debug;
use std::process::Abort;
use warp_lanes::Engine;
use warp_line::Timeline;
use warp_record::{Line, Query, Record, Reply};
use warp_replica::Replica;
use warp_step::Program;
use warp_tag::Tag;

/// How often something is waited for, a millisecond each time, before it is given up.
pub(crate) const TURNS: u32 = 10_000;

/// A tag with microstep 0.
pub(crate) fn at(rt: &impl Abort, time: u64) -> Tag {
    Tag::new(time, 0).expect(rt, "a tag")
}

/// The event of this origin's input.
pub(crate) fn event(rt: &impl Abort, origin: u32, time: u64, value: i64) -> Line {
    Line::Put(Record::Event {
        origin,
        tag: at(rt, time),
        input: origin,
        value,
    })
}

/// The program `twice`.
pub(crate) fn twice(rt: &impl Abort, alloc: Global) -> Program {
    Program::twice(alloc).expect(rt, "memory")
}

/// A replica of it.
pub(crate) fn replica<T: Timeline + Drop>(rt: &impl Abort, alloc: Global) -> Replica<T> {
    Replica::<T>::new(alloc, twice(rt, alloc)).expect(rt, "memory")
}

/// What an engine answers to `var 0`, once all is executed.
pub(crate) fn total<T: Timeline>(rt: &impl Abort, alloc: Global, engine: &mut Engine<T>) -> Reply {
    engine.settle(alloc).expect(rt, "memory");
    engine.replica().answer(Query::Var(0))
}

/// What was found is what was wanted.
pub(crate) fn same<X: PartialEq + Debug>(rt: &impl Abort, found: &X, wanted: &X) {
    assert_eq!(rt; found, wanted);
}

/// Lets go of a value: what owns several is proved quicker where it does this by a call.
pub(crate) fn end<X: Drop>(value: X) {
    drop(value);
}
