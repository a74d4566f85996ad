//! Steps that the tests of lanes share: lines, engines of the program `twice`, turns, and what a port is told.
ghost use Rattle.std.specs.Prelude.{◌≡◌, ◌≤◌, [], ◌∷◌, false, length};
ghost use Rattle.warp_lanes.specs.Engine.{AreFresh, IsFresh, ids_of, most_lanes};

use crate::{Answer, Engine, Lane, Port, Turn, lane};
use std::alloc::Global;
use std::fmt::Debug;
use std::process::Abort;
use warp_board::{Writer, board};
use warp_line::Timeline;
use warp_record::{Count, Line, Query, Record, Reply};
use warp_replica::Replica;
use warp_step::Program;
use warp_tag::Tag;

/// The query for the total of `twice`.
pub(crate) const TOTAL: Line = Line::Ask(Query::Var(0));

/// A tag with microstep 0.
pub(crate) fn at(rt: &impl Abort, time: u64) -> Tag {
    Tag::new(time, 0).expect(rt, "a tag")
}

/// The event of this origin's input.
pub(crate) fn event(rt: &impl Abort, origin: u32, time: u64, value: i64) -> Line {
    Line::Put(Record::Event {
        origin,
        tag: at(rt, time),
        input: origin,
        value,
    })
}

/// That so many events of the origin come before this time, and no withdrawal.
pub(crate) fn announcement(rt: &impl Abort, origin: u32, time: u64, events: u32) -> Line {
    Line::Put(Record::Announce {
        origin,
        tag: at(rt, time),
        events: Count::new(events).expect(rt, "a count"),
        withdrawn: Count::new(0).expect(rt, "a count"),
    })
}

/// A new lane.
pub(crate) fn fresh_lane(rt: &impl Abort, alloc: Global) -> (Port, Lane)
    ensures fresh { IsFresh result.1 }
    ensures same { result.1.lane ≡ result.0.lane }
{
    lane(alloc).expect(rt, "memory")
}

/// The writer of a new board that no test looks at.
pub(crate) fn unseen_writer(rt: &impl Abort, alloc: Global) -> Writer
    ensures rows { result.rows ≡ [] }
    ensures flag { result.frozen ≡ false }
{
    let (_, writer, _) = board(alloc, 1).expect(rt, "memory");
    writer
}

/// A replica of this program.
fn replica<T: Timeline + Drop>(rt: &impl Abort, alloc: Global, program: Program) -> Replica<T> {
    Replica::<T>::new(alloc, program).expect(rt, "memory")
}

/// A replica of the program `twice`.
pub(crate) fn twice<T: Timeline + Drop>(rt: &impl Abort, alloc: Global) -> Replica<T> {
    replica(rt, alloc, Program::twice(alloc).expect(rt, "memory"))
}

/// An engine of the program `twice` that serves these lanes.
pub(crate) fn engine<T: Timeline + Drop>(
    rt: &impl Abort,
    alloc: Global,
    lanes: Vec<Lane>,
    writer: Writer,
) -> Engine<T>
    requires fresh { AreFresh lanes.items }
    requires most { length lanes.items ≤ most_lanes }
    requires rows { writer.rows ≡ [] }
    requires flag { writer.frozen ≡ false }
    ensures lanes { result.lanes ≡ lanes.items }
    ensures writer { result.writer ≡ writer }
{
    Engine::new(twice(rt, alloc), lanes, writer)
}

/// A writer's engine of one lane, and the lane's port.
pub(crate) fn engine_of_one<T: Timeline + Drop>(
    rt: &impl Abort,
    alloc: Global,
    writer: Writer,
) -> (Engine<T>, Port)
    requires rows { writer.rows ≡ [] }
    requires flag { writer.frozen ≡ false }
    ensures lane { ids_of result.0.lanes ≡ result.1.lane ∷ [] }
    ensures writer { result.0.writer ≡ writer }
{
    let (port, lane) = fresh_lane(rt, alloc);
    let lanes = vec![in alloc; lane].expect(rt, "memory");
    (engine(rt, alloc, lanes, writer), port)
}

/// An engine of two lanes whose board no test looks at, and their ports.
pub(crate) fn engine_of_two<T: Timeline + Drop>(
    rt: &impl Abort,
    alloc: Global,
) -> (Engine<T>, (Port, Port))
    ensures { ids_of result.0.lanes ≡ result.1.0.lane ∷ result.1.1.lane ∷ [] }
{
    let (port, first) = fresh_lane(rt, alloc);
    let (other, second) = fresh_lane(rt, alloc);
    let lanes = vec![in alloc; first, second].expect(rt, "memory");
    let engine = engine(rt, alloc, lanes, unseen_writer(rt, alloc));
    (engine, (port, other))
}

/// What was found is what was wanted.
pub(crate) fn same<X: PartialEq + Debug>(rt: &impl Abort, found: &X, wanted: &X) {
    assert_eq!(rt; found, wanted);
}

/// Lets go of a value: what owns several is proved quicker where it does this by a call.
pub(crate) fn end<X: Drop>(value: X) {
    drop(value);
}

/// The port sends this line, which does not come back.
pub(crate) fn send(rt: &impl Abort, port: &mut Port, line: Line)
    ensures { port.new.lane ≡ port.old.lane }
{
    assert!(rt; port.send(line).is_ok());
}

/// A turn at one of its lanes.
pub(crate) fn turn<T: Timeline>(
    rt: &impl Abort,
    alloc: Global,
    engine: &mut Engine<T>,
    lane: usize,
) -> Turn
    ensures writer { engine.new.writer ≡ engine.old.writer }
    ensures ids { ids_of engine.new.lanes ≡ ids_of engine.old.lanes }
{
    let is_there = lane < engine.lane_count();
    assert!(rt; is_there);
    engine.turn(alloc, lane)
}

/// The next answer of the port.
pub(crate) fn fetched(rt: &impl Abort, port: &mut Port) -> Answer {
    port.reply().expect(rt, "an answer")
}

/// The port sends this line, and its lane, the first one, is served: what the port is told.
pub(crate) fn told<T: Timeline>(
    rt: &impl Abort,
    alloc: Global,
    engine: &mut Engine<T>,
    port: &mut Port,
    line: Line,
) -> Reply
    ensures { engine.new.writer ≡ engine.old.writer }
{
    send(rt, port, line);
    same(rt, &turn(rt, alloc, engine, 0), &Turn::Served);
    let answer = fetched(rt, port);
    same(rt, &port.waiting(), &0);
    answer.reply
}
