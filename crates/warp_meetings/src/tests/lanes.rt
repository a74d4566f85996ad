//! Engines with lanes of their own, what a port is told, and draining.
ghost use Rattle.std.specs.Prelude.{◌≡◌, ◌≤◌, [], ◌∷◌, Some, length, slice_get};
ghost use Rattle.warp_lanes.specs.Engine.{AreFresh, IsFresh, ids_of, most_lanes};

use crate::tests::steps::{replica, same};
use std::alloc::Global;
use std::process::Abort;
use warp_board::board;
use warp_lanes::{Answer, Engine, Lane, Port, PortEnd, Turn, lane};
use warp_line::Timeline;
use warp_record::{Line, Reply};

/// A new lane.
pub(crate) fn fresh_lane(rt: &impl Abort, alloc: Global) -> (Port, Lane)
    ensures fresh { IsFresh result.1 }
    ensures same { result.1.lane ≡ result.0.lane }
{
    lane(alloc).expect(rt, "memory")
}

/// An engine of the program `twice` that serves these lanes, and whose board no test looks at.
pub(crate) fn engine_of<T: Timeline + Drop>(
    rt: &impl Abort,
    alloc: Global,
    lanes: Vec<Lane>,
) -> Engine<T>
    requires fresh { AreFresh lanes.items }
    requires most { length lanes.items ≤ most_lanes }
    ensures { result.lanes ≡ lanes.items }
{
    let (_, writer, _) = board(alloc, 1).expect(rt, "memory");
    Engine::new(replica(rt, alloc), lanes, writer)
}

/// An engine of two lanes, and their ports.
pub(crate) fn engine_of_two<T: Timeline + Drop>(
    rt: &impl Abort,
    alloc: Global,
) -> (Engine<T>, (Port, Port))
    ensures { ids_of result.0.lanes ≡ result.1.0.lane ∷ result.1.1.lane ∷ [] }
{
    let (port, first) = fresh_lane(rt, alloc);
    let (other, second) = fresh_lane(rt, alloc);
    let lanes = vec![in alloc; first, second].expect(rt, "memory");
    (engine_of(rt, alloc, lanes), (port, other))
}

/// Drains a lane: what is handed out.
pub(crate) fn drain<T: Timeline>(
    rt: &impl Abort,
    alloc: Global,
    engine: &mut Engine<T>,
    lane: usize,
    end: PortEnd,
) -> Vec<Answer>
    requires { slice_get (ids_of engine.old.lanes) lane ≡ Some end.lane }
    ensures { ids_of engine.new.lanes ≡ ids_of engine.old.lanes }
{
    engine.drain(alloc, lane, end).expect(rt, "memory")
}

/// The port sends this line, and its lane, the first one, is served: what the port is told.
pub(crate) fn told<T: Timeline>(
    rt: &impl Abort,
    alloc: Global,
    engine: &mut Engine<T>,
    port: &mut Port,
    line: Line,
) -> Reply {
    assert!(rt; port.send(line).is_ok());
    let is_there = 0 < engine.lane_count();
    assert!(rt; is_there);
    same(rt, &engine.turn(alloc, 0), &Turn::Served);
    port.reply().expect(rt, "an answer").reply
}
