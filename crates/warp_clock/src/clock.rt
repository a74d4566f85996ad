//! Which tick it is. Ticks are counted by whole numbers from one base, so no rounding adds up.
ghost use Rattle.std.specs.Prelude.{◌≡◌, ◌≤◌, ◌<◌, ◌+◌, ◌-◌};
ghost use Rattle.warp_tag.specs.Limits.{last_time, widest};
ghost use Rattle.warp_clock.specs.Clock.{IsClock, begun, due_of, end_of, furthest, is_over, millis_of};
ghost use Rattle.warp_clock.specs.Clock.{open_of, reached, span_of, stood, tells, tick_of, ticks_in, turned};

use crate::hertz::Hertz;
use std::marker::Model;
use warp_tag::MAX_STOP;

/// The last moment that there is: what is due then is never due.
const NEVER: u64 = u64::MAX;

/// A second, in microseconds.
const SECOND: u64 = 1_000_000;

/// A millisecond, in microseconds.
const MILLISECOND: u64 = 1_000;

/// What a clock does behind a pause, in which it was not turned.
#[derive(Clone, Copy, Debug, PartialEq, Eq)]
pub enum Pause {
    /// It goes on from where it stood, by at most the grace a turn.
    Stand,
    /// It passes all ticks of the pause at once.
    Jump,
}

/// The ticks of a clock.
#[derive(Clone, Copy, Debug)]
pub struct Ticks {
    /// The tick at which it begins: 0, or one past the greatest tick that a log has.
    pub first: u64,
    /// The least tick that is open then: all before it were closed.
    pub opened: u64,
    /// The last one, the program's stop. One past `MAX_STOP` counts as that.
    pub last: u64,
    /// For how many ticks more a tick stays open.
    pub grace: u32,
}

/// What a turn of a clock came to.
#[derive(Clone, Copy, Debug, PartialEq, Eq)]
pub struct Turned {
    /// How many ticks were passed: the last of them is the tick that it is.
    pub passed: u64,
    /// For how long the clock stood, in microseconds.
    pub stood: u64,
}

/// A clock. The count of ticks goes on past the last one until its grace is over.
#[derive(Drop)]
pub struct Clock {
    hertz: u64,
    first: u64,
    opened: u64,
    last: u64,
    grace: u64,
    pause: Pause,
    base: u64,
    heard: u64,
}

impl Model for Clock {
    ghost use Rattle.std.specs.Prelude.{◌≤◌};
    ghost use Rattle.warp_clock.specs.Clock.{ClockState, IsClock};

    ghost Value = { ClockState };

    ghost view = { λ c.
        record {
          hertz = c.hertz;
          first = c.first;
          opened = c.opened;
          last = c.last;
          grace = c.grace;
          pause = c.pause;
          base = c.base;
          heard = c.heard;
        } };

    ghost invariant = { λ c.
        IsClock (record {
          hertz = c.hertz;
          first = c.first;
          opened = c.opened;
          last = c.last;
          grace = c.grace;
          pause = c.pause;
          base = c.base;
          heard = c.heard;
        }) × (c.grace ≤ 4294967295) };
}

/// How many whole ticks there are in so many microseconds.
fn ticks_in(hertz: u64, span: u64) -> u64
    requires { hertz ≤ 1000 }
    ensures { result ≡ ticks_in hertz span }
{
    (u128::from(span) * u128::from(hertz) / u128::from(SECOND)) as u64
}

/// How many microseconds so many ticks take, rounded up.
fn span_of(hertz: u64, ticks: u64) -> u64
    requires least { 1 ≤ hertz }
    requires most { hertz ≤ 1000 }
    requires few { ticks ≤ 4310592295 }
    ensures { result ≡ span_of hertz ticks }
{
    (ticks * SECOND + (hertz - 1)) / hertz
}

impl Clock {
    /// A clock that begins now, in microseconds.
    pub fn new(hertz: Hertz, ticks: Ticks, pause: Pause, now: u64) -> Clock
        ensures { result ≡ begun hertz ticks pause now }
    {
        let last = ticks.last.min(MAX_STOP);
        let grace = u64::from(ticks.grace);
        Clock {
            hertz: u64::from(hertz.number()),
            first: ticks.first.min(last + grace + 1),
            opened: ticks.opened.min(last + 1),
            last,
            grace,
            pause,
            base: now,
            heard: now,
        }
    }

    /// It is now, in microseconds: the clock goes on to the tick of that moment, never back. Where it stands behind a pause
    /// it passes at most as many ticks as its grace has, and one at least; the rest is dropped, once, by moving its base.
    pub fn turn(&mut self, now: u64) -> Turned
        ensures told { result ≡ tells now self.old }
        ensures turned { self.new ≡ turned now self.old }
    {
        let before = self.tick();
        let moment = now.max(self.heard);
        let stood = self.stood(moment);
        self.base += stood;
        self.heard = moment;
        Turned {
            passed: self.tick().saturating_sub(before),
            stood,
        }
    }

    /// The tick that it is: past the last one it stands there.
    pub fn tick(&self) -> u64
        ensures value { result ≡ tick_of self.now }
        ensures range { IsClock self.now }
    {
        self.last.min(self.reached_at(self.heard))
    }

    /// The least tick that is open: one is closed once more ticks than the grace were counted behind it.
    pub fn open_from(&self) -> u64
        ensures value { result ≡ open_of self.now }
        ensures most { result ≤ last_time widest }
    {
        let counted = self.reached_at(self.heard);
        self.opened.max(counted.saturating_sub(self.grace))
    }

    /// Whether no tick is open any more.
    pub fn is_over(&self) -> bool
        ensures { result ≡ is_over self.now }
    {
        self.open_from() == self.last + 1
    }

    /// When the next tick is counted, in microseconds; `u64::MAX` where none is.
    pub fn due(&self) -> u64
        ensures { result ≡ due_of self.now }
    {
        let reached = self.reached_at(self.heard);
        if reached == self.end() {
            return NEVER;
        }
        let span = span_of(self.hertz, reached + 1 - self.first);
        self.base.saturating_add(span)
    }

    /// How many milliseconds it is since tick 0, at the moment that was heard last. It stays where numbers of 64 bits end.
    pub fn milliseconds(&self) -> u64
        ensures { result ≡ millis_of self.now }
    {
        let before = span_of(self.hertz, self.first);
        before.saturating_add(self.heard - self.base) / MILLISECOND
    }

    /// How many ticks there are a second.
    pub(crate) fn hertz(&self) -> u64
        ensures value { result ≡ self.now.hertz }
        ensures most { result ≤ 1000 }
    {
        self.hertz
    }

    /// Where the count of ticks ends.
    fn end(&self) -> u64
        ensures value { result ≡ end_of self.now }
        ensures most { result ≤ 4310592295 }
    {
        self.last + self.grace + 1
    }

    /// How far ticks are counted at this moment.
    fn reached_at(&self, moment: u64) -> u64
        ensures value { result ≡ reached (record self.now { heard = moment }) }
        ensures least { self.now.first ≤ result }
        ensures most { result ≤ 4310592295 }
    {
        let passed = ticks_in(self.hertz, moment.saturating_sub(self.base));
        self.end().min(self.first.saturating_add(passed))
    }

    /// For how long it stood, where it is turned at this moment, which is not before the one that was heard last.
    fn stood(&self, moment: u64) -> u64
        requires { self.now.heard ≤ moment }
        ensures value { result ≡ stood moment self.now }
        ensures fits { self.now.base + result ≤ moment }
    {
        if self.pause == Pause::Jump {
            return 0;
        }
        let furthest = self.reached_at(self.heard) + self.grace.max(1);
        if self.reached_at(moment) <= furthest {
            return 0;
        }
        moment.saturating_sub(
            self.base
                .saturating_add(span_of(self.hertz, furthest - self.first)),
        )
    }
}
