//! Judges what two ports were told, by a list of the records that were taken and by sums of the test's own.
//!
//! The answers of both stand in the order of their lengths, the one that was `taken` before the others of its length.
//! In this order each must be what the list before it gives, and say its length.
ghost use Rattle.std.specs.Prelude.{◌<◌};

use crate::Answer;
use crate::tests::history::{LINES, Side};
use crate::tests::steps::same;
use std::alloc::Global;
use std::process::Abort;
use warp_record::{Line, Query, Record, Refusal, Reply};
use warp_tag::Tag;

/// How many times there are, each with a name of either origin.
const TIMES: usize = 16;

/// How many values an event may have, from -300.
const VALUES: usize = 600;

/// The number of the first slot of a withdrawal.
const WITHDRAWALS: usize = 32 * VALUES;

/// The records that were taken, the place of each by its slot, 0 for none, and what is known of each of the 32 names.
#[derive(Drop)]
pub(crate) struct Judge {
    log: Vec<Record>,
    places: Vec<u32>,
    values: [Option<i64>; 32],
    withdrawn: [bool; 32],
}

/// The number of a name.
fn name(origin: u32, tag: Tag) -> usize
    ensures { result < 32 }
{
    TIMES * (origin as usize % 2) + tag.time() as usize % TIMES
}

/// The slot of a record, which no other has.
fn slot(record: &Record) -> usize {
    match *record {
        Record::Event {
            origin,
            tag,
            value,
            ..
        } => VALUES * name(origin, tag)
            + usize::try_from(value.wrapping_add(300)).unwrap_or(0) % VALUES,
        Record::Withdraw { origin, tag } => WITHDRAWALS + name(origin, tag),
        Record::Announce { .. } => 0,
        Record::Joint { .. } => 0,
    }
}

impl Judge {
    fn new(rt: &impl Abort, alloc: Global) -> Judge {
        Judge {
            log: Vec::new(alloc),
            places: vec![in alloc; 0u32; WITHDRAWALS + 32].expect(rt, "memory"),
            values: [None; 32],
            withdrawn: [false; 32],
        }
    }

    /// The records that were taken.
    pub(crate) fn log(&self) -> &[Record] {
        &self.log
    }

    /// How many records were taken.
    fn len(&self) -> u32 {
        u32::try_from(self.log.len()).unwrap_or(u32::MAX)
    }

    /// What is new of a name.
    fn note(&mut self, record: &Record) {
        match *record {
            Record::Event {
                origin,
                tag,
                value,
                ..
            } => {
                let greatest = &mut self.values[name(origin, tag)];
                if *greatest < Some(value) {
                    *greatest = Some(value);
                }
            }
            Record::Withdraw { origin, tag } => self.withdrawn[name(origin, tag)] = true,
            Record::Announce { .. } => {}
            Record::Joint { .. } => {}
        }
    }

    /// What a record of these two origins is answered.
    fn put(&mut self, rt: &impl Abort, record: &Record) -> Reply {
        let next = self.len().wrapping_add(1);
        let place = self.places.get_mut(slot(record)).expect(rt, "a slot");
        if *place > 0 {
            return Reply::Known(*place);
        }
        *place = next;
        self.note(record);
        self.log.push(*record).expect(rt, "memory");
        Reply::Taken(next)
    }

    /// The value that counts at a name.
    fn value(&self, name: usize) -> Option<i64>
        requires { name < 32 }
    {
        if self.withdrawn[name] {
            return None;
        }
        self.values[name]
    }

    /// The total, and how many times have an output.
    fn total(&self) -> (i64, u64) {
        let (mut total, mut outputs) = (0i64, 0u64);
        for time in 0..TIMES {
            let (a, b) = (self.value(time), self.value(TIMES + time));
            if let Some(a) = a {
                total = total.wrapping_mul(2).wrapping_add(a);
            }
            total = total.wrapping_sub(b.unwrap_or(0));
            if a.is_some() || b.is_some() {
                outputs = outputs.wrapping_add(1);
            }
        }
        (total, outputs)
    }

    /// What a query is answered.
    fn ask(&self, query: Query) -> Reply {
        let log = self.len();
        match query {
            Query::Outputs => Reply::Outputs {
                log,
                count: self.total().1,
            },
            Query::Log(place) => match self.log.get((place as usize).wrapping_sub(1)) {
                Some(record) => Reply::Log {
                    log,
                    record: *record,
                },
                None => Reply::Nothing { log },
            },
            _ => Reply::Var {
                log,
                value: self.total().0,
            },
        }
    }

    /// What a line is answered.
    fn reply(&mut self, rt: &impl Abort, line: &Line) -> Reply {
        match *line {
            Line::Put(Record::Event { origin: 2, .. }) => Reply::Refused(Refusal::NoOrigin),
            Line::Put(record) => self.put(rt, &record),
            Line::Ask(query) => self.ask(query),
            Line::Collect => Reply::Collected { log: self.len() },
            Line::Look(_) => Reply::Refused(Refusal::NoBoard),
        }
    }

    /// The next line and its answer.
    fn judge(&mut self, rt: &impl Abort, line: &Line, answer: &Answer) {
        let reply = self.reply(rt, line);
        same(rt, &answer.reply, &reply);
        same(rt, &answer.len, &self.len());
    }
}

/// Where an answer stands among all.
fn order(answer: &Answer) -> (u32, bool) {
    (answer.len, !matches!(&answer.reply, Reply::Taken(_)))
}

/// Whether the first of two answers comes first.
fn is_first(one: Option<&Answer>, other: Option<&Answer>) -> bool {
    match (one, other) {
        (Some(one), Some(other)) => order(one) <= order(other),
        (one, _) => one.is_some(),
    }
}

/// Judges the answer of a port at this place, which it has.
fn judge_at(rt: &impl Abort, judge: &mut Judge, side: &Side, place: usize) {
    let line = side.sent.get(place).expect(rt, "a line");
    let answer = side.told.get(place).expect(rt, "an answer");
    judge.judge(rt, line, answer);
}

/// Judges all that two ports were told.
pub(crate) fn judge_both(rt: &impl Abort, alloc: Global, one: &Side, other: &Side) -> Judge {
    let mut judge = Judge::new(rt, alloc);
    let (mut i, mut j) = (0usize, 0usize);
    for _ in 0..2 * LINES {
        if is_first(one.told.get(i), other.told.get(j)) {
            judge_at(rt, &mut judge, one, i);
            i = i.wrapping_add(1);
        } else {
            judge_at(rt, &mut judge, other, j);
            j = j.wrapping_add(1);
        }
    }
    judge
}
