//! What no clause says of rooms: that with ample memory each call does what it may, on worked rows of the program `twice`.
use crate::{ClientId, Input, Keeping, Outcome, Room, Sent, Unheard, Unsent, Worked};
use std::alloc::Global;
use std::fmt::Debug;
use std::process::Abort;
use warp_line::{Plain, Timeline};
use warp_record::{Count, Line, Query, Record, Refusal, Reply};
use warp_replica::Replica;
use warp_step::Program;
use warp_tag::Tag;
use warp_watch::{Question, Told};

/// The query for the total of `twice`.
const TOTAL: Line = Line::Ask(Query::Var(0));

/// How many inputs of an origin are taken at a time.
const MOST_INPUTS: u32 = 2;

/// A tag.
fn tag(rt: &impl Abort, time: u64, micro: u32) -> Tag {
    Tag::new(time, micro).expect(rt, "a tag")
}

/// An event of origin 0 doubles the total and adds its value, one of origin 1 subtracts its value.
fn event(rt: &impl Abort, origin: u32, time: u64, value: i64) -> Line {
    Line::Put(Record::Event {
        origin,
        tag: tag(rt, time, 0),
        input: origin,
        value,
    })
}

/// A room of `twice`: at most two lines of a client wait, and three answers.
fn room<T: Timeline + Drop>(rt: &impl Abort, alloc: Global) -> Room<T> {
    let program = Program::twice(alloc).expect(rt, "memory");
    let replica = Replica::<T>::new(alloc, program).expect(rt, "memory");
    Room::new(alloc, replica, 2, 3)
}

/// What was found is what was wanted.
fn same<X: PartialEq + Debug>(rt: &impl Abort, found: &X, wanted: &X) {
    assert_eq!(rt; found, wanted);
}

/// A client comes.
fn come<T: Timeline>(rt: &impl Abort, alloc: Global, room: &mut Room<T>) -> ClientId {
    room.come(alloc).expect(rt, "memory")
}

/// A line of the client is heard, or not.
fn hear<T: Timeline>(
    rt: &impl Abort,
    room: &mut Room<T>,
    who: ClientId,
    line: Line,
    wanted: Result<(), Unheard>,
) {
    same(rt, &room.hear(who, line), &wanted);
}

/// Works for so many lines and so many steps.
fn work<T: Timeline>(
    rt: &impl Abort,
    alloc: Global,
    room: &mut Room<T>,
    lines: u32,
    steps: u64,
    wanted: Worked,
) {
    same(rt, &room.work(alloc, lines, steps), &wanted);
}

/// Nothing is handed on that is of a log of more records than so many.
fn none<T: Timeline>(rt: &impl Abort, room: &mut Room<T>, limit: u32) {
    let is_none = room.hand(limit).is_none();
    assert!(rt; is_none);
}

/// The next answer is this client's, and this reply.
fn hand<T: Timeline>(rt: &impl Abort, room: &mut Room<T>, limit: u32, who: ClientId, reply: Reply) {
    comes_to(rt, room, limit, who, Outcome::Replied(reply));
}

/// The next answer is this client's, and this.
fn comes_to<T: Timeline>(
    rt: &impl Abort,
    room: &mut Room<T>,
    limit: u32,
    who: ClientId,
    outcome: Outcome,
) {
    let one = room.hand(limit).expect(rt, "an answer");
    same(rt, &one.who, &who);
    same(rt, &one.answer.outcome, &outcome);
}

/// The clients have their turns, a query waits until all is executed, and answers until they may be handed on.
fn in_turn<T: Timeline>(rt: &impl Abort, alloc: Global, room: &mut Room<T>) {
    let first = come(rt, alloc, room);
    let second = come(rt, alloc, room);
    hear(rt, room, first, event(rt, 0, 5, 3), Ok(()));
    hear(rt, room, first, TOTAL, Ok(()));
    hear(rt, room, first, TOTAL, Err(Unheard::Full));
    hear(rt, room, second, event(rt, 1, 6, 4), Ok(()));
    work(rt, alloc, room, 8, 8, Worked::More);
    work(rt, alloc, room, 8, 1, Worked::More);
    none(rt, room, 0);
    hand(rt, room, 1, first, Reply::Taken(1));
    none(rt, room, 1);
    work(rt, alloc, room, 8, 8, Worked::Idle);
    hand(rt, room, 2, second, Reply::Taken(2));
    hand(rt, room, 2, first, Reply::Var { log: 2, value: -1 });
    none(rt, room, 9);
}

/// So many answers wait and no more; and a client that leaves takes its own with it.
fn come_and_go<T: Timeline>(rt: &impl Abort, alloc: Global, room: &mut Room<T>) {
    let first = come(rt, alloc, room);
    let second = come(rt, alloc, room);
    hear(rt, room, first, TOTAL, Ok(()));
    hear(rt, room, second, TOTAL, Ok(()));
    hear(rt, room, second, TOTAL, Ok(()));
    work(rt, alloc, room, 3, 8, Worked::More);
    hear(rt, room, first, TOTAL, Ok(()));
    work(rt, alloc, room, 3, 8, Worked::Held);
    same(rt, &room.leave(first), &true);
    same(rt, &room.leave(first), &false);
    hear(rt, room, first, TOTAL, Err(Unheard::Gone));
    let third = come(rt, alloc, room);
    same(rt, &third.key, &first.key);
    hand(rt, room, 0, second, Reply::Var { log: 0, value: 0 });
    same(rt, &room.waiting(third), &0);
}

/// What is told to this question.
fn told<T: Timeline>(
    rt: &impl Abort,
    alloc: Global,
    room: &mut Room<T>,
    question: Question,
) -> Told {
    room.tell(alloc, question).expect(rt, "it is settled")
}

/// A question is told where all is executed, and records are handed from a place on.
fn told_and_handed<T: Timeline>(rt: &impl Abort, alloc: Global, room: &mut Room<T>) {
    let who = come(rt, alloc, room);
    hear(rt, room, who, event(rt, 0, 5, 3), Ok(()));
    work(rt, alloc, room, 1, 0, Worked::More);
    let waits = room.tell(alloc, Question::Vars).is_err();
    assert!(rt; waits);
    work(rt, alloc, room, 1, 1, Worked::Idle);
    let told = told(rt, alloc, room, Question::Vars);
    assert_eq!(rt; told.text.as_slice(), b"vars 1 3\n".as_slice());
    let mut list = Vec::new(alloc);
    let copied = room.records_behind(0, 9, &mut list).is_ok();
    assert!(rt; copied);
    same(rt, &list.len(), &1);
}

/// A line of the client is heard, and comes to this.
fn asks<T: Timeline>(
    rt: &impl Abort,
    alloc: Global,
    room: &mut Room<T>,
    who: ClientId,
    line: Line,
    outcome: Outcome,
) {
    hear(rt, room, who, line, Ok(()));
    let _worked = room.work(alloc, 1, 8);
    comes_to(rt, room, 9, who, outcome);
}

/// The announcement of origin 0 up to a time, with so many events.
fn announces(rt: &impl Abort, time: u64, events: u32) -> Line {
    Line::Put(Record::Announce {
        origin: 0,
        tag: tag(rt, time, 0),
        events: Count::new(events).expect(rt, "a count"),
        withdrawn: Count::new(0).expect(rt, "a count"),
    })
}

/// A record was taken at this place.
fn taken(place: u32) -> Outcome {
    Outcome::Replied(Reply::Taken(place))
}

/// The input of origin 0 with this number is sent, with this time for the asked tag.
fn send<T: Timeline>(
    rt: &impl Abort,
    alloc: Global,
    room: &mut Room<T>,
    input: u32,
    time: u64,
) -> Result<Sent, Unsent> {
    let input = Input {
        origin: 0,
        input,
        value: 3,
    };
    room.send(alloc, input, tag(rt, time, 0), MOST_INPUTS)
}

/// An input was sent to this place, at this tag.
fn sent(place: u32, tag: Tag) -> Result<Sent, Unsent> {
    Ok(Sent { place, tag })
}

/// Records of a kept origin are kept out where they announce, come late or differ; what is there stays known.
fn kept_out<T: Timeline>(rt: &impl Abort, alloc: Global, room: &mut Room<T>) {
    let kept = Keeping::of(&[0]).expect(rt, "an origin");
    same(rt, &room.keep(kept), &Ok(()));
    let who = come(rt, alloc, room);
    asks(rt, alloc, room, who, event(rt, 0, 5, 3), taken(1));
    asks(rt, alloc, room, who, announces(rt, 6, 1), Outcome::Kept);
    asks(rt, alloc, room, who, event(rt, 0, 5, 4), Outcome::Differs);
    same(rt, &room.close(alloc, tag(rt, 6, 0)), &Ok(()));
    same(rt, &room.len(), &2);
    let known = Outcome::Replied(Reply::Known(1));
    asks(rt, alloc, room, who, event(rt, 0, 5, 3), known);
    asks(rt, alloc, room, who, event(rt, 0, 4, 3), Outcome::Late);
    let gone = Line::Put(Record::Withdraw {
        origin: 0,
        tag: tag(rt, 5, 0),
    });
    asks(rt, alloc, room, who, gone, Outcome::Late);
    asks(rt, alloc, room, who, event(rt, 0, 6, 3), taken(3));
    asks(rt, alloc, room, who, event(rt, 1, 1, 1), taken(4));
}

/// With all kept, one closing of each origin brings the horizon to its tag, and one up to the same tag changes nothing.
fn closed<T: Timeline>(rt: &impl Abort, alloc: Global, room: &mut Room<T>) {
    same(rt, &room.keep(Keeping::All), &Ok(()));
    let who = come(rt, alloc, room);
    asks(rt, alloc, room, who, event(rt, 1, 2, 7), taken(1));
    same(rt, &room.close(alloc, tag(rt, 9, 0)), &Ok(()));
    same(rt, &room.close(alloc, tag(rt, 9, 0)), &Ok(()));
    same(rt, &room.len(), &3);
    let horizon = Outcome::Replied(Reply::Horizon {
        log: 3,
        tag: tag(rt, 9, 0),
    });
    asks(rt, alloc, room, who, Line::Ask(Query::Horizon), horizon);
}

/// Inputs get the first free microstep of the first open time, so many at a time, and of kept origins alone.
fn stamped<T: Timeline>(rt: &impl Abort, alloc: Global, room: &mut Room<T>) {
    same(rt, &send(rt, alloc, room, 0, 4), &Err(Unsent::NotKept));
    same(rt, &room.keep(Keeping::All), &Ok(()));
    same(rt, &send(rt, alloc, room, 0, 4), &sent(1, tag(rt, 4, 0)));
    same(rt, &send(rt, alloc, room, 0, 4), &sent(2, tag(rt, 4, 1)));
    same(rt, &send(rt, alloc, room, 0, 4), &Err(Unsent::Crowded));
    same(rt, &room.close(alloc, tag(rt, 7, 1)), &Ok(()));
    same(rt, &send(rt, alloc, room, 0, 4), &sent(5, tag(rt, 7, 1)));
    same(rt, &send(rt, alloc, room, 0, 4), &Err(Unsent::Crowded));
    let refused = send(rt, alloc, room, 9, 8);
    same(rt, &refused, &Err(Unsent::Refused(Refusal::NoInput)));
    same(rt, &room.len(), &5);
}

/// What a journal broke or doubled is not kept.
fn not_kept<T: Timeline>(rt: &impl Abort, alloc: Global, room: &mut Room<T>) {
    let who = come(rt, alloc, room);
    asks(rt, alloc, room, who, event(rt, 1, 5, 3), taken(1));
    asks(rt, alloc, room, who, event(rt, 1, 5, 4), taken(2));
    same(rt, &room.keep(Keeping::All), &Err(1));
    asks(rt, alloc, room, who, announces(rt, 6, 0), taken(3));
    asks(rt, alloc, room, who, event(rt, 0, 5, 3), taken(4));
    same(rt, &room.keep(Keeping::All), &Err(0));
}

/// The rows of kept origins, each over a room of its own.
fn kept<T: Timeline + Drop>(rt: &impl Abort, alloc: Global) {
    let mut one = room::<T>(rt, alloc);
    kept_out(rt, alloc, &mut one);
    drop(one);
    let mut other = room::<T>(rt, alloc);
    closed(rt, alloc, &mut other);
    drop(other);
    let mut third = room::<T>(rt, alloc);
    stamped(rt, alloc, &mut third);
    drop(third);
    let mut last = room::<T>(rt, alloc);
    not_kept(rt, alloc, &mut last);
}

/// The rows, each over a room of its own.
fn rows<T: Timeline + Drop>(rt: &impl Abort, alloc: Global) {
    let mut one = room::<T>(rt, alloc);
    in_turn(rt, alloc, &mut one);
    drop(one);
    let mut other = room::<T>(rt, alloc);
    come_and_go(rt, alloc, &mut other);
    drop(other);
}

/// The rows of questions.
fn questions<T: Timeline + Drop>(rt: &impl Abort, alloc: Global) {
    let mut room = room::<T>(rt, alloc);
    told_and_handed(rt, alloc, &mut room);
}

#[test]
fn turns_answers_and_clients(rt: HostRuntime) {
    rows::<Plain>(&rt, rt.alloc());
}

#[test]
fn kept_origins(rt: HostRuntime) {
    kept::<Plain>(&rt, rt.alloc());
}

#[test]
fn questions_and_records(rt: HostRuntime) {
    questions::<Plain>(&rt, rt.alloc());
}
