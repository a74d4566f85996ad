//! Ports in threads of their own, and the engine beside them.
ghost use Rattle.std.specs.Prelude.{◌≡◌, ◌≤◌, [], ◌∷◌, Some, length, slice_get};
ghost use Rattle.warp_lanes.specs.Engine.{AreFresh, ids_of, most_lanes};

use crate::tests::lanes::{drain, engine_of, engine_of_two, fresh_lane, told};
use crate::tests::steps::{TURNS, at, end, event, same, total};
use std::alloc::Global;
use std::process::Abort;
use std::thread;
use std::thread::Threads;
use std::time::{Clock, Duration};
use warp_lanes::{Answer, Engine, Lane, Port, PortEnd, Turn};
use warp_line::Timeline;
use warp_record::{Line, Query, Reply};
use warp_run::Warp;
use warp_tag::Out;

/// Sends a line, and waits for its answer, which is its place; 0 where it gives up, or the answer is another.
fn place_of<R: Clock>(rt: &R, port: &mut Port, line: Line) -> u32
    ensures { port.new.lane ≡ port.old.lane }
{
    let _ = port.send(line);
    for _turn in 0..TURNS {
        if let Some(answer) = port.reply() {
            return place_in(&answer);
        }
        thread::sleep(rt, Duration::from_millis(1));
    }
    0
}

/// The place that an answer tells; 0 where it tells none.
fn place_in(answer: &Answer) -> u32 {
    match answer.reply {
        Reply::Taken(place) => place,
        _ => 0,
    }
}

/// One turn at each lane: how many of them were served.
fn serve_all<T: Timeline>(alloc: Global, engine: &mut Engine<T>) -> u32
    ensures { ids_of engine.new.lanes ≡ ids_of engine.old.lanes }
{
    let mut served = 0u32;
    for lane in 0..engine.lane_count() {
        if engine.turn(alloc, lane) == Turn::Served {
            served = served.wrapping_add(1);
        }
    }
    served
}

/// Serves so many commands, or gives up.
fn serve<T: Timeline, R: Clock>(
    rt: &R,
    alloc: Global,
    mut engine: Engine<T>,
    commands: u32,
) -> (Engine<T>, u32)
    ensures { ids_of result.0.lanes ≡ ids_of engine.lanes }
{
    let mut served = 0u32;
    for _turn in 0..TURNS {
        served = served.wrapping_add(serve_all(alloc, &mut engine));
        if served >= commands {
            break;
        }
        thread::sleep(rt, Duration::from_millis(1));
    }
    (engine, served)
}

/// What a port was told, and its end.
#[derive(Drop)]
struct Ended {
    place: u32,
    end: PortEnd,
}

/// Sends a line, waits for its answer, and ends the port.
fn ask_and_end<R: Clock + Abort>(rt: &R, mut port: Port, line: Line) -> Ended
    ensures { result.end.lane ≡ port.lane }
{
    let place = place_of(rt, &mut port, line);
    let end = port.finish().expect(rt, "the lane is there");
    Ended { place, end }
}

/// A port in a thread of its own, beside the engine, which serves two commands.
fn ask_beside<T: Timeline, R: Threads + Clock + Abort + Sync>(
    rt: &R,
    alloc: Global,
    port: Port,
    line: Line,
    engine: Engine<T>,
) -> (Ended, (Engine<T>, u32))
    ensures end { result.0.end.lane ≡ port.lane }
    ensures ids { ids_of result.1.0.lanes ≡ ids_of engine.lanes }
{
    thread::join(
        rt,
        move || ask_and_end(rt, port, line),
        move || serve(rt, alloc, engine, 2),
    )
}

/// Two ports in threads of their own, beside the engine.
fn ask_both<T: Timeline, R: Threads + Clock + Abort + Sync>(
    rt: &R,
    alloc: Global,
    first: (Port, Line),
    second: (Port, Line),
    engine: Engine<T>,
) -> (Ended, (Ended, (Engine<T>, u32)))
    ensures first { result.0.end.lane ≡ first.0.lane }
    ensures second { result.1.0.end.lane ≡ second.0.lane }
    ensures ids { ids_of result.1.1.0.lanes ≡ ids_of engine.lanes }
{
    let (port, line) = first;
    let (other, last) = second;
    thread::join(
        rt,
        move || ask_and_end(rt, port, line),
        move || ask_beside(rt, alloc, other, last, engine),
    )
}

/// The two were told one place each, and their lanes are drained, of which nothing is left.
fn drain_both<T: Timeline>(
    rt: &impl Abort,
    alloc: Global,
    engine: &mut Engine<T>,
    first: Ended,
    second: Ended,
)
    requires first { slice_get (ids_of engine.old.lanes) 0 ≡ Some first.end.lane }
    requires second { slice_get (ids_of engine.old.lanes) 1 ≡ Some second.end.lane }
{
    same(rt, &first.place.min(second.place), &1);
    same(rt, &first.place.max(second.place), &2);
    same(rt, &drain(rt, alloc, engine, 0, first.end).len(), &0);
    same(rt, &drain(rt, alloc, engine, 1, second.end).len(), &0);
}

/// Two ports send an event each, are answered, end and are drained, and both events count in the order of their tags.
fn meet_over<T: Timeline + Drop, R: Threads + Clock + Abort + Sync>(
    rt: &R,
    alloc: Global,
    first: (Port, Line),
    second: (Port, Line),
    engine: Engine<T>,
)
    requires { ids_of engine.lanes ≡ first.0.lane ∷ second.0.lane ∷ [] }
{
    let (one, (other, (mut engine, served))) = ask_both(rt, alloc, first, second, engine);
    same(rt, &served, &2);
    drain_both(rt, alloc, &mut engine, one, other);
    same(
        rt,
        &total(rt, alloc, &mut engine),
        &Reply::Var { log: 2, value: -5 },
    );
    end(engine);
}

/// The same over a new engine.
fn meet<T: Timeline + Drop, R: Threads + Clock + Abort + Sync>(rt: &R, alloc: Global) {
    let (engine, (port, other)) = engine_of_two::<T>(rt, alloc);
    let one = (port, event(rt, 0, 5, 3));
    let another = (other, event(rt, 1, 2, 4));
    meet_over(rt, alloc, one, another, engine);
}

#[test]
fn two_ports_meet(rt: HostRuntime) {
    meet::<Warp, HostRuntime>(&rt, rt.alloc());
}

/// How many ports there are in the second test, as many as an engine may have lanes.
const PORTS: u64 = 16;

/// A port, its number, and what it was told of its four events.
#[derive(Drop)]
struct Asker {
    port: Port,
    number: u64,
    places: [u32; 4],
}

/// Sends the four events of this port, and waits for each answer.
fn ask_four<R: Clock + Abort>(rt: &R, mut asker: Asker) -> Asker {
    for i in 0..4 {
        let time = 4 * (asker.number % PORTS) + 1 + i as u64;
        asker.places[i] = place_of(rt, &mut asker.port, event(rt, 0, time, 1));
    }
    asker
}

/// Each port asks in a thread of its own.
fn ask_each<R: Threads + Clock + Abort + Sync>(rt: &R, askers: Vec<Asker>) -> Vec<Asker> {
    thread::map_vec(rt, askers, &|asker| ask_four(rt, asker)).expect(rt, "memory")
}

/// All ports in threads of their own, beside the engine, which serves their 64 commands.
fn ask_all<T: Timeline, R: Threads + Clock + Abort + Sync>(
    rt: &R,
    alloc: Global,
    askers: Vec<Asker>,
    engine: Engine<T>,
) -> (Vec<Asker>, (Engine<T>, u32)) {
    thread::join(
        rt,
        move || ask_each(rt, askers),
        move || serve(rt, alloc, engine, 64),
    )
}

/// Each place from 1 to 64 was told once.
fn has_each_place(rt: &impl Abort, askers: &[Asker]) {
    let mut times = [0u8; 65];
    for asker in askers {
        for place in asker.places {
            let count = &mut times[place as usize % 65];
            *count = count.wrapping_add(1);
        }
    }
    same(rt, &times[0], &0);
    for place in 1..65 {
        same(rt, &times[place], &1);
    }
}

/// What the first port is told after all.
fn tells_all<T: Timeline>(rt: &impl Abort, alloc: Global, engine: &mut Engine<T>, port: &mut Port) {
    let reply = told(rt, alloc, engine, port, Line::Ask(Query::Var(0)));
    same(rt, &reply, &Reply::Var { log: 64, value: -1 });
    let reply = told(rt, alloc, engine, port, Line::Ask(Query::Outputs));
    same(rt, &reply, &Reply::Outputs { log: 64, count: 64 });
    let reply = told(rt, alloc, engine, port, Line::Ask(Query::Output(62)));
    let output = Out {
        tag: at(rt, 63),
        port: 0,
        value: i64::MAX,
    };
    same(rt, &reply, &Reply::Output { log: 64, output });
}

/// As many lanes and their ports.
fn make_lanes(rt: &impl Abort, alloc: Global) -> (Vec<Asker>, Vec<Lane>)
    ensures fresh { AreFresh result.1.items }
    ensures most { length result.1.items ≤ most_lanes }
{
    let mut askers = Vec::new(alloc);
    let mut lanes = Vec::new(alloc);
    for number in 0..PORTS {
        let (port, lane) = fresh_lane(rt, alloc);
        let asker = Asker {
            port,
            number,
            places: [0; 4],
        };
        askers.push(asker).expect(rt, "memory");
        lanes.push(lane).expect(rt, "memory");
    }
    (askers, lanes)
}

/// What all ports were told, and what the engine holds.
fn has_all<T: Timeline>(
    rt: &impl Abort,
    alloc: Global,
    engine: &mut Engine<T>,
    askers: &mut [Asker],
) {
    same(rt, &askers.len(), &16);
    has_each_place(rt, askers);
    let first = askers.first_mut().expect(rt, "a port");
    tells_all(rt, alloc, engine, &mut first.port);
}

/// Sixteen ports send four events each, and each event counts.
fn meet_all<T: Timeline + Drop, R: Threads + Clock + Abort + Sync>(rt: &R, alloc: Global) {
    let (askers, lanes) = make_lanes(rt, alloc);
    let engine = engine_of::<T>(rt, alloc, lanes);
    let (mut askers, (mut engine, served)) = ask_all(rt, alloc, askers, engine);
    same(rt, &served, &64);
    has_all(rt, alloc, &mut engine, &mut askers);
}

#[test]
fn sixteen_ports_meet(rt: HostRuntime) {
    meet_all::<Warp, HostRuntime>(&rt, rt.alloc());
}
