//! An announcement with how many names are before its tag so far, and what follows from such counts.
ghost use Rattle.std.specs.Prelude.{◌≡◌, ◌+◌, ◌<◌, ◌≤◌, ◌^◌, ◌||◌};
ghost use Rattle.warp_table.specs.inner.Tally.{IsSpare, IsSpared, before_of, has_doubled, is_exceeded, is_met};
ghost use Rattle.warp_table.specs.inner.Tally.{less_one, no_names, number_of, with_more, with_name, with_one};
ghost use Rattle.warp_table.specs.inner.Tally.{with_tally};

use crate::tags::Tagged;
use warp_tag::Tag;

/// What is noted of a name.
#[derive(Clone, Copy)]
pub(crate) enum EventOrWithdrawal {
    Event,
    Withdrawal,
}

/// A number of events' names and one of withdrawals' names.
#[derive(Clone, Copy)]
pub(crate) struct Numbers {
    pub(crate) events: usize,
    pub(crate) withdrawn: usize,
}

impl Numbers {
    /// None of either.
    pub(crate) fn none() -> Numbers
        ensures { result ≡ no_names }
    {
        Numbers {
            events: 0,
            withdrawn: 0,
        }
    }

    /// The same numbers.
    pub(crate) fn copy(&self) -> Numbers
        ensures { result ≡ self.now }
    {
        Numbers {
            events: self.events,
            withdrawn: self.withdrawn,
        }
    }

    /// The number of this kind.
    pub(crate) fn of(&self, kind: EventOrWithdrawal) -> usize
        ensures { result ≡ number_of kind self.now }
    {
        match kind {
            EventOrWithdrawal::Event => self.events,
            EventOrWithdrawal::Withdrawal => self.withdrawn,
        }
    }

    /// One more of this kind.
    pub(crate) fn add(&mut self, kind: EventOrWithdrawal)
        requires { number_of kind self.old + 1 < 2 ^ 64 }
        ensures { self.new ≡ with_one kind self.old }
    {
        match kind {
            EventOrWithdrawal::Event => self.events += 1,
            EventOrWithdrawal::Withdrawal => self.withdrawn += 1,
        }
    }

    /// One less of this kind.
    pub(crate) fn take(&mut self, kind: EventOrWithdrawal)
        requires { 0 < number_of kind self.old }
        ensures { self.new ≡ less_one kind self.old }
    {
        match kind {
            EventOrWithdrawal::Event => self.events -= 1,
            EventOrWithdrawal::Withdrawal => self.withdrawn -= 1,
        }
    }

    /// Of each kind the lesser number.
    pub(crate) fn least(&self, other: Numbers) -> Numbers
        ensures events { (result.events ≤ self.now.events) × (result.events ≤ other.events) }
        ensures withdrawn { (result.withdrawn ≤ self.now.withdrawn) × (result.withdrawn ≤ other.withdrawn) }
    {
        Numbers {
            events: lesser(self.events, other.events),
            withdrawn: lesser(self.withdrawn, other.withdrawn),
        }
    }
}

/// The lesser one of two numbers.
fn lesser(one: usize, other: usize) -> usize
    ensures { (result ≤ one) × (result ≤ other) }
{
    if one < other { one } else { other }
}

/// How many more names may be counted before it changes whether as many came as were announced, or more.
fn spare(announced: u32, counted: usize) -> usize
    ensures { IsSpare result announced counted }
{
    let announced = announced as usize;
    if counted < announced {
        announced - counted - 1
    } else if counted == announced {
        0
    } else {
        usize::MAX
    }
}

/// An announcement, and how many names are before its tag so far.
#[derive(Clone, Copy)]
pub(crate) struct Tally {
    pub(crate) tag: Tag,
    pub(crate) events: u32,
    pub(crate) withdrawn: u32,
    pub(crate) events_before: usize,
    pub(crate) withdrawn_before: usize,
}

impl Tally {
    /// Whether so many names at least are before its tag as it says.
    pub(crate) fn is_met(&self) -> bool
        ensures { result ≡ is_met self.now }
    {
        self.events as usize <= self.events_before
            && self.withdrawn as usize <= self.withdrawn_before
    }

    /// Whether more names are before its tag than it says.
    pub(crate) fn is_exceeded(&self) -> bool
        ensures { result ≡ is_exceeded self.now }
    {
        self.events_before > self.events as usize || self.withdrawn_before > self.withdrawn as usize
    }

    /// Whether the name of two payloads, if there is one, is before its tag.
    pub(crate) fn has_doubled(&self, doubled: Option<Tag>) -> bool
        ensures { result ≡ has_doubled doubled self.now }
    {
        match doubled {
            Some(tag) => tag.is_before(self.tag),
            None => false,
        }
    }

    /// Counts one more name of this kind before its tag.
    pub(crate) fn count(&mut self, kind: EventOrWithdrawal)
        requires { before_of kind self.old + 1 < 2 ^ 64 }
        ensures { self.new ≡ with_name kind self.old }
    {
        match kind {
            EventOrWithdrawal::Event => self.events_before += 1,
            EventOrWithdrawal::Withdrawal => self.withdrawn_before += 1,
        }
    }

    /// Counts so many more names before its tag.
    pub(crate) fn add(&mut self, more: Numbers)
        requires events { self.old.events_before + more.events < 2 ^ 64 }
        requires withdrawn { self.old.withdrawn_before + more.withdrawn < 2 ^ 64 }
        ensures { self.new ≡ with_more more self.old }
    {
        self.events_before += more.events;
        self.withdrawn_before += more.withdrawn;
    }

    /// How many more names of each kind may be counted before any verdict on it changes.
    pub(crate) fn spare(&self) -> Numbers
        ensures { IsSpared result self.now }
    {
        Numbers {
            events: spare(self.events, self.events_before),
            withdrawn: spare(self.withdrawn, self.withdrawn_before),
        }
    }
}

/// What follows from the announcements of an origin.
#[derive(Clone, Copy)]
pub(crate) struct Verdict {
    /// The greatest tag of those that are reached, the beginning where none is.
    pub(crate) reached: Tag,
    /// Whether one of them is exceeded.
    pub(crate) is_broken: bool,
}

impl Verdict {
    /// With the counts of one more announcement.
    pub(crate) fn with(self, tally: &Tally) -> Verdict
        ensures { result ≡ with_tally self tally.now }
    {
        let is_later = tally.is_met() && self.reached.is_before(tally.tag);
        Verdict {
            reached: if is_later { tally.tag } else { self.reached },
            is_broken: self.is_broken || tally.is_exceeded(),
        }
    }

    /// Broken also where this is so.
    pub(crate) fn broken_where(self, is_broken: bool) -> Verdict
        ensures { result ≡ record self { is_broken = self.is_broken || is_broken } }
    {
        Verdict {
            reached: self.reached,
            is_broken: self.is_broken || is_broken,
        }
    }
}

impl Tagged for Tally {
    ghost tag_of = { λ t. t.tag };

    fn tag(&self) -> Tag {
        self.tag
    }
}
