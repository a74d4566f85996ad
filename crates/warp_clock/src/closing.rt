//! When a round of announcements is due.
ghost use Rattle.std.specs.Prelude.{◌≡◌, ◌+◌, nat_le};
ghost use Rattle.warp_clock.specs.Closing.{bound_of, is_behind, is_due, round_of, with_closed};

use crate::clock::Clock;
use std::marker::Model;
use warp_tag::Tag;

/// When a round of announcements is due, and up to which tag.
#[derive(Drop)]
pub struct Closing {
    every: u64,
    closed: Tag,
}

impl Model for Closing {
    ghost use Rattle.std.specs.Prelude.{◌≤◌};
    ghost use Rattle.warp_clock.specs.Closing.{ClosingState};

    ghost Value = { ClosingState };

    ghost view = { λ k. record { every = k.every; closed = k.closed } };

    ghost invariant = { λ k. k.every ≤ 4294967295 };
}

impl Closing {
    /// All was announced up to this tag. Where something lies open two rounds are so many ticks apart, or more.
    pub fn new(every: u32, closed: Tag) -> Closing
        ensures { result ≡ record { every = every; closed = closed } }
    {
        Closing {
            every: u64::from(every),
            closed,
        }
    }

    /// The tag up to which all was announced.
    pub fn up_to(&self) -> Tag
        ensures { result ≡ self.now.closed }
    {
        self.closed
    }

    /// The tag up to which a round of announcements is due now. `lies_open` says whether a name or an unreleased output lies
    /// before the first open tick (`Clock::open_from`) and not before what was announced. Where nothing does, a round is due
    /// each second of ticks, so that a log tells how far its clock came; and one at the end.
    pub fn due(&self, clock: &Clock, lies_open: bool) -> Option<Tag>
        ensures { result ≡ round_of lies_open clock.now self.now }
    {
        let bound = Tag::beginning_of(clock.open_from());
        if self.is_due(clock, bound, lies_open) {
            Some(bound)
        } else {
            None
        }
    }

    /// Whether a round up to this tag is due.
    fn is_due(&self, clock: &Clock, bound: Tag, lies_open: bool) -> bool
        requires { bound ≡ bound_of clock.now }
        ensures { result ≡ is_due lies_open clock.now self.now }
    {
        if !self.closed.is_before(bound) {
            return false;
        }
        let is_wanted = lies_open && self.is_behind(self.every, bound);
        clock.is_over() || is_wanted || self.is_behind(clock.hertz(), bound)
    }

    /// Whether so many ticks before this tag were not announced.
    fn is_behind(&self, ticks: u64, bound: Tag) -> bool
        ensures { result ≡ nat_le (self.now.closed.time + ticks) bound.time }
    {
        self.closed.time().saturating_add(ticks) <= bound.time()
    }

    /// All was announced up to this tag.
    pub fn closed(&mut self, tag: Tag)
        ensures { self.new ≡ with_closed tag self.old }
    {
        if self.closed.is_before(tag) {
            self.closed = tag;
        }
    }
}
