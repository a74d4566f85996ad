//! Two lanes with 20,000 drawn lines each, under a drawn schedule in one thread.
use crate::tests::judge::{Judge, judge_both};
use crate::tests::steps::{TOTAL, at, end, engine_of_two, event, same, turn};
use crate::{Answer, Engine, Port, Turn};
use std::alloc::Global;
use std::process::Abort;
use warp_line::{Plain, Timeline};
use warp_record::{Line, Look, Query, Record};

/// How many lines each port sends.
pub(crate) const LINES: usize = 20_000;

/// The most steps of the schedule: some 130,000 are needed.
const STEPS: u32 = 1_000_000;

/// Numbers that look random, from a fixed seed.
#[derive(Drop)]
struct Dice {
    state: u64,
}

impl Dice {
    /// A number below 2 to the power of 31.
    fn roll(&mut self) -> u64 {
        self.state = self
            .state
            .wrapping_mul(6_364_136_223_846_793_005)
            .wrapping_add(1_442_695_040_888_963_407);
        self.state >> 33
    }
}

/// The query that a draw comes to.
fn query(draw: u64) -> Query {
    match draw % 4 {
        0 => Query::Outputs,
        1 => Query::Log((draw / 4 % 16_000) as u32),
        _ => Query::Var(0),
    }
}

/// The line that a draw comes to: mostly an event of one of 32 names, with one of 600 values, some of them again;
/// withdrawals of four of these names; an event of no origin that there is; queries.
fn line(rt: &impl Abort, draw: u64) -> Line {
    let origin = (draw % 2) as u32;
    let time = draw / 2 % 16;
    let value = (draw / 32 % 600) as i64 - 300;
    match draw / 19_200 % 16 {
        0 => Line::Put(Record::Withdraw {
            origin,
            tag: at(rt, time % 2),
        }),
        1 => event(rt, 2, time, value),
        2 => Line::Collect,
        3 => Line::Look(Look::Board),
        4..=7 => Line::Ask(query(draw / 64)),
        _ => event(rt, origin, time, value),
    }
}

/// A port, the lines that it sent, and what it was told of them.
#[derive(Drop)]
pub(crate) struct Side {
    port: Port,
    dice: Dice,
    next: u64,
    pub(crate) sent: Vec<Line>,
    pub(crate) told: Vec<Answer>,
    came_back: u32,
}

impl Side {
    fn new(alloc: Global, port: Port, seed: u64) -> Side {
        Side {
            port,
            dice: Dice { state: seed },
            next: seed,
            sent: Vec::new(alloc),
            told: Vec::new(alloc),
            came_back: 0,
        }
    }

    /// Sends the next line, if there is one; where it comes back it is the next one again.
    fn send(&mut self, rt: &impl Abort) {
        if self.sent.len() >= LINES {
            return;
        }
        let line = line(rt, self.next);
        match self.port.send(line) {
            Ok(()) => {
                self.sent.push(line).expect(rt, "memory");
                self.next = self.dice.roll();
            }
            Err(back) => {
                same(rt, &back, &line);
                self.came_back = self.came_back.wrapping_add(1);
            }
        }
    }

    /// Fetches an answer, if there is one.
    fn fetch(&mut self, rt: &impl Abort) {
        if let Some(answer) = self.port.reply() {
            self.told.push(answer).expect(rt, "memory");
        }
    }

    /// Whether each line was sent and answered.
    fn is_done(&self) -> bool {
        self.told.len() >= LINES
    }

    /// Each line was sent and answered, and some came back before.
    fn has_ended(&self, rt: &impl Abort) {
        same(rt, &self.sent.len(), &LINES);
        same(rt, &self.told.len(), &LINES);
        same(rt, &self.port.waiting(), &0);
        assert!(rt; self.came_back > 0);
    }
}

/// How many turns ended in each way.
#[derive(Drop)]
struct Ends {
    served: u32,
    empty: u32,
    stalled: u32,
}

impl Ends {
    fn count(&mut self, turn: Turn) {
        let count = match turn {
            Turn::Served => &mut self.served,
            Turn::Empty => &mut self.empty,
            Turn::Stalled => &mut self.stalled,
        };
        *count = count.wrapping_add(1);
    }
}

/// One step: a port sends or fetches, or a lane is served.
fn step<T: Timeline>(
    rt: &impl Abort,
    alloc: Global,
    engine: &mut Engine<T>,
    side: &mut Side,
    lane: usize,
    turns: &mut Ends,
    draw: u64,
) {
    match draw % 3 {
        0 => side.send(rt),
        1 => side.fetch(rt),
        _ => turns.count(turn(rt, alloc, engine, lane)),
    }
}

/// Steps until both ports have ended.
fn run<T: Timeline>(
    rt: &impl Abort,
    alloc: Global,
    engine: &mut Engine<T>,
    first: &mut Side,
    second: &mut Side,
    turns: &mut Ends,
) {
    let mut dice = Dice { state: 7 };
    for _step in 0..STEPS {
        if first.is_done() && second.is_done() {
            return;
        }
        let draw = dice.roll();
        if draw % 2 == 0 {
            step(rt, alloc, engine, first, 0, turns, draw / 2);
        } else {
            step(rt, alloc, engine, second, 1, turns, draw / 2);
        }
    }
}

/// Runs both, and sees that each kind of turn came.
fn run_both<T: Timeline>(
    rt: &impl Abort,
    alloc: Global,
    engine: &mut Engine<T>,
    first: &mut Side,
    second: &mut Side,
) {
    let mut turns = Ends {
        served: 0,
        empty: 0,
        stalled: 0,
    };
    run(rt, alloc, engine, first, second, &mut turns);
    first.has_ended(rt);
    second.has_ended(rt);
    same(rt, &(turns.served as usize), &(2 * LINES));
    assert!(rt; turns.empty > 0 && turns.stalled > 0);
}

/// The replica's log is the list that the test kept.
fn has_log<T: Timeline>(rt: &impl Abort, engine: &Engine<T>, judge: &Judge) {
    let log = judge.log();
    same(rt, &(engine.replica().len() as usize), &log.len());
    let mut place = 0u32;
    for record in log {
        place = place.wrapping_add(1);
        same(rt, &engine.replica().entry(place), &Some(*record));
    }
    assert!(rt; place > 10_000);
}

/// What both were told is right, and the log too.
fn judged<T: Timeline>(
    rt: &impl Abort,
    alloc: Global,
    engine: &Engine<T>,
    first: &Side,
    second: &Side,
) {
    has_log(rt, engine, &judge_both(rt, alloc, first, second));
}

/// Two ports and an engine.
fn two_lanes<T: Timeline + Drop>(rt: &impl Abort, alloc: Global) {
    let (mut engine, (port, other)) = engine_of_two::<T>(rt, alloc);
    let mut first = Side::new(alloc, port, 20);
    let mut second = Side::new(alloc, other, 26);
    run_both(rt, alloc, &mut engine, &mut first, &mut second);
    judged(rt, alloc, &engine, &first, &second);
    end(engine);
    end((first, second));
}

#[test]
fn two_lanes_are_one_history(rt: HostRuntime) {
    two_lanes::<Plain>(&rt, rt.alloc());
}
