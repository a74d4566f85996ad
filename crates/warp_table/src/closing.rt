//! What a host asks that speaks for origins: what is known of a name, which tags are closed to an origin, how many names
//! are before a tag, and whether a name has two payloads.
//!
//! Announcements stand in order of tags, so the last one tells what is closed; and the tags of an origin's names do from
//! the first count on. So nothing here costs a pass over all announcements or names but an origin's first count, which
//! puts its tags in order.
ghost use Rattle.std.specs.Prelude.{◌≡◌, ◌↔◌, IfOk, IsTrue};
ghost use Rattle.warp_table.specs.Closed.{AreCountsBefore, AreJointCountsBefore, ClosesAt, IsDoubled};
ghost use Rattle.warp_table.specs.Names.{Tells};
ghost use Rattle.warp_table.specs.Records.{set_of};
ghost use Rattle.warp_table.specs.inner.Closed.{ClosesAlone, ClosesJointly};

use crate::joint::count_kept;
use crate::names::Name;
use crate::table::{Table, entry_of, later};
use crate::tally::EventOrWithdrawal;
use warp_tag::{Entry, OutOfMemory, Tag};

/// How many names there are before a tag. A name is an origin and a tag.
#[derive(Clone, Copy)]
pub struct CountsBefore {
    /// How many of them have an event, withdrawn or not.
    pub events: u64,
    /// How many of them have a withdrawal, with an event or without.
    pub withdrawn: u64,
}

impl Table {
    /// What is known of the origin's name with this tag; `None` where no record of it is there.
    pub fn find_name(&self, origin: u32, tag: Tag) -> Option<Entry>
        ensures { Tells (set_of self.now) origin tag result }
    {
        let name = Name { origin, tag };
        let known = self.names.known(name)?;
        Some(entry_of(&self.records, &name, &known))
    }

    /// Up to which tag the origin's tags are closed: the greatest tag of the announcements that speak of it, its own and
    /// joint ones, reached or not; the beginning where there is none.
    pub fn closed_to(&self, origin: u32) -> Tag
        ensures { ClosesAt (set_of self.now) origin result }
    {
        later(self.closed_alone(origin), self.closed_jointly())
    }

    /// The greatest tag that the origin announced of its own, the beginning where there is none.
    fn closed_alone(&self, origin: u32) -> Tag
        ensures { ClosesAlone (set_of self.now) origin result }
    {
        match self.announcers.get(origin as usize) {
            Some(announcer) => announcer.last_announced(),
            None => Tag::default(),
        }
    }

    /// The greatest tag of a joint announcement, the beginning where there is none.
    fn closed_jointly(&self) -> Tag
        ensures { ClosesJointly (set_of self.now) result }
    {
        self.joint.last()
    }

    /// How many names of the origin are before the tag, of those that have an event and of those that have a withdrawal.
    /// The table stays as it is, also on an `Err`.
    pub fn counts_before(&mut self, origin: u32, tag: Tag) -> Result<CountsBefore, OutOfMemory>
        ensures same { self.new ≡ self.old }
        ensures counts { IfOk result
            (λ counts. AreCountsBefore (set_of self.old) origin tag counts.events counts.withdrawn) }
    {
        if self.announcers.len() <= origin as usize {
            return Ok(CountsBefore {
                events: 0,
                withdrawn: 0,
            });
        }
        let counts = self.announcers[origin as usize].counts_before(tag)?;
        Ok(CountsBefore {
            events: counts.events as u64,
            withdrawn: counts.withdrawn as u64,
        })
    }

    /// How many names of all origins are before the tag, of those that have an event and of those that have a
    /// withdrawal. The table stays as it is, also on an `Err`.
    pub fn joint_counts_before(&mut self, tag: Tag) -> Result<CountsBefore, OutOfMemory>
        ensures same { self.new ≡ self.old }
        ensures counts { IfOk result
            (λ counts. AreJointCountsBefore (set_of self.old) tag counts.events counts.withdrawn) }
    {
        let events = count_kept(&mut self.announcers, EventOrWithdrawal::Event, tag)?;
        let withdrawn = count_kept(&mut self.announcers, EventOrWithdrawal::Withdrawal, tag)?;
        Ok(CountsBefore {
            events: events as u64,
            withdrawn: withdrawn as u64,
        })
    }

    /// Whether a name of the origin has two payloads.
    pub fn is_doubled(&self, origin: u32) -> bool
        ensures { IsTrue result ↔ IsDoubled (set_of self.now) origin }
    {
        match self.announcers.get(origin as usize) {
            Some(announcer) => announcer.doubled().is_some(),
            None => false,
        }
    }
}
