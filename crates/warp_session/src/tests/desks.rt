//! A desk whose lane is full: it says so at once, does not wait for a place, and leaves the lane as it is.
ghost use Rattle.std.specs.Prelude.{◌≡◌};
ghost use Rattle.warp_lanes.specs.Engine.{IsFresh};

use crate::port_desk::PortDesk;
use std::alloc::Global;
use std::process::Abort;
use std::sync::Wait;
use std::time::Clock;
use warp_board::{Board, Reader, board};
use warp_exchange::Desk;
use warp_lanes::{Engine, Lane, Port, PortEnd, lane};
use warp_line::Plain;
use warp_record::{Line, Query, Refusal, Reply};
use warp_replica::Replica;
use warp_step::Program;
use warp_tag::Form;

const LINE: Line = Line::Ask(Query::Outputs);

/// How many lines a lane has places for.
const LANE_PLACES: usize = 64;

/// So many lines are sent as the lane holds.
fn fill(rt: &impl Abort, port: &mut Port)
    ensures { port.new.lane ≡ port.old.lane }
{
    for _ in 0..LANE_PLACES {
        assert_eq!(rt; port.send(LINE), Ok(()));
    }
}

/// A desk of this port is busy; it is ended, and the lane is there.
fn is_busy<'a, X: Wait + Clock + Abort>(
    rt: &'a X,
    board: &'a Board,
    port: Port,
    reader: Reader,
) -> PortEnd
    requires { reader.board ≡ board.now }
    ensures { result.lane ≡ port.lane }
{
    let mut desk = PortDesk::new(rt, board, port, reader, Form::One);
    assert_eq!(rt; desk.ask(LINE), Reply::Refused(Refusal::Busy));
    let (end, _) = desk.finish();
    end.expect(rt, "the lane is there")
}

/// How many answers an engine hands out that drains this lane.
fn answers(rt: &impl Abort, alloc: Global, lane: Lane, end: PortEnd) -> usize
    requires fresh { IsFresh lane }
    requires lane { end.lane ≡ lane.lane }
{
    let program = Program::twice(alloc).expect(rt, "memory");
    let replica = Replica::<Plain>::new(alloc, program).expect(rt, "memory");
    let (_, writer, _) = board(alloc, 1).expect(rt, "memory");
    let lanes = vec![in alloc; lane].expect(rt, "memory");
    let mut engine = Engine::new(replica, lanes, writer);
    engine.drain(alloc, 0, end).expect(rt, "memory").len()
}

#[test]
fn a_full_lane_is_busy(rt: HostRuntime) {
    let (board, _writer, reader) = board(rt.alloc(), 1).expect(&rt, "memory");
    let (mut port, lane) = lane(rt.alloc()).expect(&rt, "memory");
    fill(&rt, &mut port);
    let end = is_busy(&rt, &board, port, reader);
    assert_eq!(&rt; answers(&rt, rt.alloc(), lane, end), LANE_PLACES);
}
