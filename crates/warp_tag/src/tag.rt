//! Tags and landings: their ranges, their order, and where a delay leads.
ghost use Rattle.std.specs.Prelude.{◌≡◌, ℕ, ◌≤◌, SomeIff, ◌+◌, ◌*◌, nat_eq};
ghost use Rattle.warp_tag.specs.Limits.{last_microstep, last_time, longest_delay, longest_period, longest_stop, widest};
ghost use Rattle.std.specs.Ordering.{eq_of_both, on};
ghost use Rattle.std.specs.Cmp.Rules.{comparing, hashing};
ghost use Rattle.std.specs.Hash as fed;
ghost use Rattle.std.proofs.Common.{rules};

use std::hash::{Hash, Hasher};
use std::marker::Model;

/// The last time that a program of any form can have as its stop, in the program's own unit.
pub const MAX_STOP: u64 = 15_624_999;

/// The last time of a tag: one past the last stop, so that "everything up to the stop" has an end.
pub const MAX_TIME: u64 = 15_625_000;

/// The last microstep of a time, in the widest form.
pub const LAST_MICROSTEP: u32 = 255;

/// The longest delay, offset or period that a program of any form can name.
pub const MAX_PERIOD: u64 = 15_624_999;

/// The longest delay that a call of `Tag::after` is given: two delays of a program, added.
pub const MAX_DELAY: u64 = 31_249_998;

/// How many microsteps a time has room for in the number of a tag.
const MICROSTEPS: u32 = 256;

/// A time, 0 to `MAX_TIME`, and a microstep, 0 to `LAST_MICROSTEP`, in any form. Tags are ordered by time, then by
/// microstep.
///
/// It is kept as one number of 32 bits, 256 times the time plus the microstep, since a log keeps a tag of each record
/// at several places, and numbers are compared at once.
#[derive(Clone, Copy, Debug, Default)]
pub struct Tag {
    number: u32,
}

impl Model for Tag {
    ghost use Rattle.std.specs.Prelude.{◌≤◌, ◌+◌, ◌*◌, ◌/◌, ◌%◌};
    ghost use Rattle.warp_tag.specs.Moment.{Moment, IsInRange};

    ghost Value = { Moment };

    ghost view = { λ t. record { time = t.number / 256; microstep = t.number % 256 } };

    ghost invariant = { λ t. IsInRange (record { time = t.number / 256; microstep = t.number % 256 }) };

    ghost inverse = { λ m. record { number = m.time * 256 + m.microstep } };
}

impl PartialEq for Tag {
    ghost eq = { eq_of_both (on (λ t. t.time) nat_eq) (on (λ t. t.microstep) nat_eq) };

    ghost laws = { Prim.search (comparing, rules) };

    fn eq(&self, other: &Tag) -> bool {
        self.number == other.number
    }
}

impl Eq for Tag {
    ghost laws = { Prim.search (comparing, rules) };
}

impl Hash for Tag {
    ghost hash_input = { λ t. fed.u32 (t.time * 256 + t.microstep) };

    ghost respects_eq = { Prim.search (hashing, rules) };

    fn hash<H: Hasher>(&self, state: &mut H) {
        state.write_u32(self.number);
    }
}

/// Where a delay lands.
#[derive(Clone, Copy, Debug, PartialEq, Eq)]
pub enum Landing {
    /// At this tag.
    At(Tag),
    /// Later than the program's stop.
    PastStop,
    /// Behind the last microstep of its time.
    PastMicro,
}

impl Tag {
    ghost use Rattle.warp_tag.specs.Moment.{Moment, IsInRange, is_before, is_same};
    ghost use Rattle.warp_tag.specs.Landing.{landing};

    /// The tag of this time and microstep; `None` exactly where one of them is out of range.
    pub fn new(time: u64, micro: u32) -> Option<Tag>
        ensures { SomeIff result (IsInRange (record { time = time; microstep = micro }))
            (record { time = time; microstep = micro }) }
    {
        if time <= MAX_TIME && micro <= LAST_MICROSTEP {
            Some(Tag::of(time, micro))
        } else {
            None
        }
    }

    /// The tag at which a time begins, at microstep 0.
    pub fn beginning_of(time: u64) -> Tag
        requires { time ≤ last_time widest }
        ensures { result ≡ record { time = time; microstep = 0 } }
    {
        Tag::of(time, 0)
    }

    /// The tag of this time and microstep, which are in range.
    fn of(time: u64, micro: u32) -> Tag
        requires { IsInRange (record { time = time; microstep = micro }) }
        ensures { result ≡ record { time = time; microstep = micro } }
    {
        Tag {
            number: time as u32 * MICROSTEPS + micro,
        }
    }

    /// The time, in the program's own unit.
    pub fn time(self) -> u64
        ensures value { result ≡ self.time }
        ensures range { IsInRange self }
    {
        u64::from(self.number / MICROSTEPS)
    }

    /// The microstep.
    pub fn micro(self) -> u32
        ensures value { result ≡ self.microstep }
        ensures range { IsInRange self }
    {
        self.number % MICROSTEPS
    }

    /// Whether this tag comes before the other: by time, then by microstep.
    pub fn is_before(self, other: Tag) -> bool
        ensures { result ≡ is_before self other }
    {
        self.number < other.number
    }

    /// Whether the two tags are one.
    pub fn is_same(self, other: Tag) -> bool
        ensures { result ≡ is_same self other }
    {
        self == other
    }

    /// Where a delay lands from this tag in a program with this stop and this last microstep: at the later time with
    /// microstep 0, or, for no delay, at the next microstep (Lohstroh et al. 2021). The tag is not past them, and the
    /// delay is at most `MAX_DELAY`.
    pub fn after(self, delay: u64, stop: u64, top: u32) -> Landing
        requires delay { delay ≤ longest_delay widest }
        requires stop { stop ≤ longest_stop widest }
        requires top { top ≤ last_microstep widest }
        requires time { self.time ≤ stop }
        requires microstep { self.microstep ≤ top }
        ensures { result ≡ landing stop top self delay }
    {
        if delay > 0 {
            let time = self.time() + delay;
            if time <= stop {
                Landing::At(Tag::beginning_of(time))
            } else {
                Landing::PastStop
            }
        } else if self.micro() < top {
            let micro = self.micro() + 1;
            Landing::At(Tag::of(self.time(), micro))
        } else {
            Landing::PastMicro
        }
    }
}

/// A law: the constants are the limits of the definitions.
pub fn tag_limits()
    ensures stop { longest_stop widest ≡ MAX_STOP }
    ensures time { last_time widest ≡ MAX_TIME }
    ensures microstep { last_microstep widest ≡ LAST_MICROSTEP }
    ensures period { longest_period widest ≡ MAX_PERIOD }
    ensures delay { longest_delay widest ≡ MAX_DELAY }
{}
