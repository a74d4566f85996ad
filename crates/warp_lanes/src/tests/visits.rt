//! Visits: what waits at a lane is answered together, and the board shows what that released.
ghost use Rattle.std.specs.Prelude.{◌≡◌, [], false, length};

use crate::tests::boards::has_size;
use crate::tests::steps::{
    TOTAL, announcement, end, engine, event, fetched, fresh_lane, same, send,
};
use crate::{Engine, Port, Turn};
use std::alloc::Global;
use std::process::Abort;
use warp_board::{Board, Writer, board};
use warp_line::{Plain, Timeline};
use warp_record::{Line, Reply};

/// What the query is answered behind the batch.
const ZERO: Reply = Reply::Var { log: 64, value: 0 };

/// A line of the batch: what both origins announce, and then 62 events, which that covers.
fn line_at(rt: &impl Abort, place: u32) -> Line {
    match place {
        0 => announcement(rt, 0, 100, 62),
        1 => announcement(rt, 1, 100, 0),
        _ => event(rt, 0, u64::from(place), 0),
    }
}

/// The port sends as many lines as its lane has places for.
fn send_batch(rt: &impl Abort, port: &mut Port) {
    for place in 0..64 {
        let line = line_at(rt, place);
        send(rt, port, line);
    }
}

/// So many records were taken, one after another, from this place on.
fn all_taken(rt: &impl Abort, port: &mut Port, first: u32, count: u32) {
    for place in 0..count {
        let answer = fetched(rt, port);
        same(rt, &answer.reply, &Reply::Taken(first.wrapping_add(place)));
        same(rt, &answer.len, &first.wrapping_add(place));
    }
}

/// The next answer is that to the query.
fn zero(rt: &impl Abort, port: &mut Port) {
    let answer = fetched(rt, port);
    same(rt, &answer.reply, &ZERO);
    same(rt, &port.waiting(), &0);
}

/// A visit of a lane ends so.
fn visit<T: Timeline>(
    rt: &impl Abort,
    alloc: Global,
    engine: &mut Engine<T>,
    lane: usize,
    board: &Board,
    turn: Turn,
)
    requires { engine.old.writer.board ≡ board.now }
    ensures { engine.new.writer.board ≡ board.now }
{
    let is_there = lane < engine.lane_count();
    assert!(rt; is_there);
    same(rt, &engine.visit(alloc, lane, board), &turn);
}

/// An engine of two lanes, and their ports.
fn engine_of_both<T: Timeline + Drop>(
    rt: &impl Abort,
    alloc: Global,
    writer: Writer,
) -> (Engine<T>, (Port, Port))
    requires rows { writer.rows ≡ [] }
    requires flag { writer.frozen ≡ false }
    ensures { result.0.writer ≡ writer }
{
    let (port, first) = fresh_lane(rt, alloc);
    let (other, second) = fresh_lane(rt, alloc);
    let lanes = vec![in alloc; first, second].expect(rt, "memory");
    (engine(rt, alloc, lanes, writer), (port, other))
}

/// A line more waits until an answer is fetched, and the other lane is left alone until its own visit.
fn visit_again<T: Timeline>(
    rt: &impl Abort,
    alloc: Global,
    engine: &mut Engine<T>,
    ports: (&mut Port, &mut Port),
    board: &Board,
)
    requires { engine.old.writer.board ≡ board.now }
{
    let (port, other) = ports;
    send(rt, port, TOTAL);
    visit(rt, alloc, engine, 0, board, Turn::Stalled);
    all_taken(rt, port, 1, 1);
    visit(rt, alloc, engine, 0, board, Turn::Served);
    all_taken(rt, port, 2, 63);
    zero(rt, port);
    visit(rt, alloc, engine, 0, board, Turn::Empty);
    assert!(rt; other.reply().is_none());
    visit(rt, alloc, engine, 1, board, Turn::Served);
    zero(rt, other);
}

/// A full lane is visited, and then 65 lines were sent.
fn visit_both<T: Timeline + Drop>(rt: &impl Abort, alloc: Global) {
    let (board, writer, mut reader) = board(alloc, 64).expect(rt, "memory");
    let (mut engine, (mut port, mut other)) = engine_of_both::<T>(rt, alloc, writer);
    send_batch(rt, &mut port);
    send(rt, &mut other, TOTAL);
    visit(rt, alloc, &mut engine, 0, &board, Turn::Served);
    has_size(rt, &board, &mut reader, 62, false);
    visit_again(rt, alloc, &mut engine, (&mut port, &mut other), &board);
    engine.valid();
    end((engine, (port, other)));
    end((board, reader));
}

#[test]
fn a_full_lane_is_visited(rt: HostRuntime) {
    visit_both::<Plain>(&rt, rt.alloc());
}
