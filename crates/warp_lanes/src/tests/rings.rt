//! The rings of a lane in one thread: where a line comes back, and where a turn stalls.
use crate::tests::steps::{TOTAL, end, engine_of_two, fetched, fresh_lane, same, send, turn};
use crate::{Engine, Port, Turn};
use std::alloc::Global;
use std::process::Abort;
use warp_line::{Plain, Timeline};
use warp_record::Reply;

/// What each of the lines is answered.
const ZERO: Reply = Reply::Var { log: 0, value: 0 };

/// The port sends 64 lines, and the next one comes back.
fn fill(rt: &impl Abort, port: &mut Port) {
    for sent in 0..64 {
        same(rt, &port.waiting(), &sent);
        send(rt, port, TOTAL);
    }
    same(rt, &port.send(TOTAL), &Err(TOTAL));
    same(rt, &port.waiting(), &64);
    assert!(rt; port.reply().is_none());
}

/// All 64 are served, and then none is there.
fn serve_all<T: Timeline>(rt: &impl Abort, alloc: Global, engine: &mut Engine<T>) {
    for _ in 0..64 {
        same(rt, &turn(rt, alloc, engine, 0), &Turn::Served);
    }
    same(rt, &turn(rt, alloc, engine, 1), &Turn::Empty);
}

/// The next answer is there.
fn fetch(rt: &impl Abort, port: &mut Port) {
    let answer = fetched(rt, port);
    same(rt, &answer.len, &0);
    same(rt, &answer.reply, &ZERO);
}

/// A turn with no place for its answer leaves the command; once an answer is fetched it is served.
fn stall<T: Timeline>(rt: &impl Abort, alloc: Global, engine: &mut Engine<T>, port: &mut Port) {
    send(rt, port, TOTAL);
    for _ in 0..2 {
        same(rt, &turn(rt, alloc, engine, 0), &Turn::Stalled);
        same(rt, &port.waiting(), &65);
    }
    fetch(rt, port);
    same(rt, &turn(rt, alloc, engine, 0), &Turn::Served);
}

/// The other 64 answers are there, and no more.
fn fetch_all(rt: &impl Abort, port: &mut Port) {
    for _ in 0..64 {
        fetch(rt, port);
    }
    assert!(rt; port.reply().is_none());
    same(rt, &port.waiting(), &0);
}

/// An engine of two lanes serves a port that does all this.
fn fill_and_stall<T: Timeline + Drop>(rt: &impl Abort, alloc: Global) {
    let (mut engine, (mut port, idle)) = engine_of_two::<T>(rt, alloc);
    fill(rt, &mut port);
    serve_all(rt, alloc, &mut engine);
    stall(rt, alloc, &mut engine, &mut port);
    fetch_all(rt, &mut port);
    end((engine, (port, idle)));
}

#[test]
fn full_lanes(rt: HostRuntime) {
    fill_and_stall::<Plain>(&rt, rt.alloc());
}

#[test]
fn a_port_whose_lane_is_gone_has_no_end(rt: HostRuntime) {
    let (mut port, lane) = fresh_lane(&rt, rt.alloc());
    send(&rt, &mut port, TOTAL);
    drop(lane);
    assert!(rt; port.finish().is_none());
}
