//! Draining the lane of a port that has ended.
ghost use Rattle.std.specs.Prelude.{◌≡◌, Some, slice_get};
ghost use Rattle.warp_lanes.specs.Engine.{ids_of};

use crate::tests::steps::{TOTAL, end, engine_of_one, event, same, send, unseen_writer};
use crate::{Answer, Engine, Port, PortEnd};
use std::alloc::Global;
use std::process::Abort;
use warp_line::{Plain, Timeline};
use warp_record::Reply;

/// Drains a lane: what is handed out.
pub(crate) fn drain<T: Timeline>(
    rt: &impl Abort,
    alloc: Global,
    engine: &mut Engine<T>,
    lane: usize,
    end: PortEnd,
) -> Vec<Answer>
    requires { slice_get (ids_of engine.old.lanes) lane ≡ Some end.lane }
    ensures { ids_of engine.new.lanes ≡ ids_of engine.old.lanes }
{
    engine.drain(alloc, lane, end).expect(rt, "memory")
}

/// The port sends an event and a query, and ends.
fn send_and_end(rt: &impl Abort, mut port: Port) -> PortEnd
    ensures { result.lane ≡ port.lane }
{
    send(rt, &mut port, event(rt, 0, 5, 3));
    send(rt, &mut port, TOTAL);
    port.finish().expect(rt, "the lane is there")
}

/// One of the answers is this.
fn holds(rt: &impl Abort, answers: &[Answer], place: usize, reply: Reply) {
    let answer = answers.get(place).expect(rt, "an answer");
    same(rt, &answer.len, &1);
    same(rt, &answer.reply, &reply);
}

/// Both answers are handed out.
fn handed(rt: &impl Abort, answers: &[Answer]) {
    same(rt, &answers.len(), &2);
    holds(rt, answers, 0, Reply::Taken(1));
    holds(rt, answers, 1, Reply::Var { log: 1, value: 3 });
}

/// The lane of a port that ended at once is drained.
fn end_at_once<T: Timeline + Drop>(rt: &impl Abort, alloc: Global) {
    let (mut engine, port) = engine_of_one::<T>(rt, alloc, unseen_writer(rt, alloc));
    let ended = send_and_end(rt, port);
    handed(rt, &drain(rt, alloc, &mut engine, 0, ended));
    end(engine);
}

#[test]
fn a_port_that_ends_at_once(rt: HostRuntime) {
    end_at_once::<Plain>(&rt, rt.alloc());
}
