//! The timeline that rolls back and the one that runs from the start, beside each other: after each of 1,000 mixed
//! records both answer every query alike.

ghost use Rattle.std.specs.Prelude.{◌<◌};

use crate::tests::steps::{end, replica, same};
use std::alloc::Global;
use std::process::Abort;
use warp_line::{Plain, Timeline};
use warp_record::{Count, Line, Query, Record, Reply};
use warp_replica::Replica;
use warp_run::Warp;
use warp_tag::Tag;

/// How many records are drawn.
const RECORDS: u32 = 1_000;

/// Numbers that look random, from a fixed seed.
#[derive(Drop)]
struct Dice {
    state: u64,
}

impl Dice {
    /// A number below this one, which is not 0.
    fn roll(&mut self, most: u64) -> u64
        requires { 0 < most }
        ensures { result < most }
    {
        self.state = self
            .state
            .wrapping_mul(6_364_136_223_846_793_005)
            .wrapping_add(1_442_695_040_888_963_407);
        (self.state >> 33) % most
    }

    /// A tag at one of this many times.
    fn tag(&mut self, rt: &impl Abort, times: u64) -> Tag
        requires { 0 < times }
    {
        Tag::new(self.roll(times), self.roll(2) as u32).expect(rt, "a tag")
    }

    /// A small count.
    fn count(&mut self, rt: &impl Abort) -> Count {
        Count::new(self.roll(4) as u32).expect(rt, "a count")
    }

    /// A record of origin 0 or 1, or seldom of one that the program does not have: mostly an event of one of some 400
    /// names, with one of 9 values; else a withdrawal, or an announcement of an early tag.
    fn record(&mut self, rt: &impl Abort) -> Record {
        let origin = if self.roll(40) == 0 {
            2
        } else {
            self.roll(2) as u32
        };
        match self.roll(8) {
            0 => Record::Withdraw {
                origin,
                tag: self.tag(rt, 100),
            },
            1 => Record::Announce {
                origin,
                tag: self.tag(rt, 5),
                events: self.count(rt),
                withdrawn: self.count(rt),
            },
            _ => Record::Event {
                origin,
                tag: self.tag(rt, 100),
                input: origin,
                value: self.roll(9) as i64 - 4,
            },
        }
    }
}

/// What the drawn records came to, so that the test shows what it was to see.
#[derive(Drop)]
struct Seen {
    taken: u32,
    known: u32,
    refused: u32,
    released: u32,
    broken: u32,
}

impl Seen {
    /// Counts a reply.
    fn count(&mut self, reply: &Reply) {
        let count = match reply {
            Reply::Taken(_) => &mut self.taken,
            Reply::Known(_) => &mut self.known,
            Reply::Refused(_) => &mut self.refused,
            Reply::Released { count, .. } if *count > 0 => &mut self.released,
            Reply::Breach { broken: true, .. } => &mut self.broken,
            _ => return,
        };
        *count = count.saturating_add(1);
    }

    /// Each of these came, and most records were taken.
    fn was_all(&self, rt: &impl Abort) {
        assert!(rt; self.taken > 500 && self.known > 0 && self.refused > 0);
        assert!(rt; self.released > 0 && self.broken > 0);
    }
}

/// Both replicas answer this line alike.
fn both_answer<T: Timeline, U: Timeline>(
    rt: &impl Abort,
    alloc: Global,
    one: &mut Replica<T>,
    other: &mut Replica<U>,
    line: &Line,
    seen: &mut Seen,
) {
    let reply = one.ask(alloc, *line);
    same(rt, &reply, &other.ask(alloc, *line));
    seen.count(&reply);
}

/// The queries of a log of this length, which has this last output.
fn queries(len: u32) -> [Query; 10] {
    [
        Query::Var(0),
        Query::Outputs,
        Query::Output(0),
        Query::Output(len / 2),
        Query::Horizon,
        Query::Released,
        Query::Lost,
        Query::Breach(0),
        Query::Breach(1),
        Query::Log(len),
    ]
}

/// Both answer each query alike.
fn are_alike<T: Timeline, U: Timeline>(
    rt: &impl Abort,
    alloc: Global,
    one: &mut Replica<T>,
    other: &mut Replica<U>,
    seen: &mut Seen,
) {
    for query in queries(one.len()) {
        both_answer(rt, alloc, one, other, &Line::Ask(query), seen);
    }
}

/// Both take as many drawn records, and are alike after each; now and then both collect.
fn take_drawn<T: Timeline, U: Timeline>(
    rt: &impl Abort,
    alloc: Global,
    one: &mut Replica<T>,
    other: &mut Replica<U>,
    seen: &mut Seen,
) {
    let mut dice = Dice { state: 5 };
    for number in 0..RECORDS {
        let record = dice.record(rt);
        both_answer(rt, alloc, one, other, &Line::Put(record), seen);
        if number % 97 == 96 {
            both_answer(rt, alloc, one, other, &Line::Collect, seen);
        }
        are_alike(rt, alloc, one, other, seen);
    }
}

/// Two new replicas take the same drawn records.
fn compare<T: Timeline + Drop, U: Timeline + Drop>(rt: &impl Abort, alloc: Global) {
    let mut one = replica::<T>(rt, alloc);
    let mut other = replica::<U>(rt, alloc);
    let mut seen = Seen {
        taken: 0,
        known: 0,
        refused: 0,
        released: 0,
        broken: 0,
    };
    take_drawn(rt, alloc, &mut one, &mut other, &mut seen);
    seen.was_all(rt);
    end((one, other));
}

#[test]
fn both_timelines_answer_alike(rt: HostRuntime) {
    compare::<Warp, Plain>(&rt, rt.alloc());
}
