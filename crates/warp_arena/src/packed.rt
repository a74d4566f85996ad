//! An entry as a node keeps it: in 24 bytes, where an `Entry` takes 40.
ghost use Rattle.std.specs.Prelude.{◌≡◌};

use std::marker::Model;
use warp_tag::{Entry, Tag, is_lesser};

/// An entry in 24 bytes. The payload's input and value count only where there is an event.
#[derive(Drop)]
pub(crate) struct Packed {
    value: i64,
    origin: u32,
    tag: Tag,
    input: u32,
    has_event: bool,
    withdrawn: bool,
}

impl Model for Packed {
    ghost use Rattle.std.specs.Prelude.{Some, None, if◌then◌else◌};
    ghost use Rattle.warp_tag.specs.declared.entry.Entry.{Entry};

    ghost Value = { Entry };

    ghost view = { λ p. record {
      origin = p.origin;
      tag = p.tag;
      event = if p.has_event then Some (p.input, p.value) else None;
      withdrawn = p.withdrawn;
    } };
}

impl Packed {
    ghost use Rattle.warp_arena.specs.Places.{named};
    ghost use Rattle.warp_arena.specs.Shape.{no_node};
    ghost use Rattle.warp_tag.specs.Table.{fresh, has_name, name_before, with_event, with_withdrawal};

    /// The name of this origin and tag, of which this event is known, if there is one.
    #[inline(always)]
    pub fn named(origin: u32, tag: Tag, event: Option<(u32, i64)>) -> Packed
        ensures { result ≡ named origin tag event }
    {
        let (has_event, input, value) = match event {
            Some((input, value)) => (true, input, value),
            None => (false, 0, 0),
        };
        Packed {
            value,
            origin,
            tag,
            input,
            has_event,
            withdrawn: false,
        }
    }

    /// The entry of a node that no list holds, whose name is the least of all.
    #[inline(always)]
    pub fn blank() -> Packed
        ensures { result ≡ no_node.entry }
    {
        Packed::named(0, Tag::new(0, 0).unwrap(), None)
    }

    /// The entry.
    pub fn entry(&self) -> Entry
        ensures { result ≡ self.now }
    {
        // Written like this it is no branch, where callers test again.
        let mut event = Some((self.input, self.value));
        if !self.has_event {
            event = None;
        }
        Entry {
            origin: self.origin,
            tag: self.tag,
            event,
            withdrawn: self.withdrawn,
        }
    }

    /// The origin of the name.
    pub fn origin(&self) -> u32
        ensures { result ≡ self.now.origin }
    {
        self.origin
    }

    /// The tag of the name.
    pub fn tag(&self) -> Tag
        ensures { result ≡ self.now.tag }
    {
        self.tag
    }

    /// Whether the entry's name comes before the name of this origin and tag: by tag, then by origin.
    pub fn comes_before(&self, origin: u32, tag: Tag) -> bool
        ensures { result ≡ name_before self.now.origin self.now.tag (fresh origin tag) }
    {
        self.tag.is_before(tag) || (self.tag.is_same(tag) && self.origin < origin)
    }

    /// Whether the entry's name comes after the name of this origin and tag.
    pub fn comes_after(&self, origin: u32, tag: Tag) -> bool
        ensures { result ≡ name_before origin tag self.now }
    {
        tag.is_before(self.tag) || (tag.is_same(self.tag) && origin < self.origin)
    }

    /// Whether the entry is of the name of this origin and tag.
    pub fn is_of(&self, origin: u32, tag: Tag) -> bool
        ensures { result ≡ has_name origin tag self.now }
    {
        tag.is_same(self.tag) && origin == self.origin
    }

    /// Notes an event of the name. Of several payloads the greatest counts, by input, then by value.
    pub fn note_event(&mut self, input: u32, value: i64)
        ensures { self.new ≡ with_event input value self.old }
    {
        let is_greatest = !self.has_event || is_lesser((self.input, self.value), (input, value));
        if is_greatest {
            self.input = input;
            self.value = value;
            self.has_event = true;
        }
    }

    /// Withdraws the name for good.
    pub fn withdraw(&mut self)
        ensures { self.new ≡ with_withdrawal self.old }
    {
        self.withdrawn = true;
    }
}
