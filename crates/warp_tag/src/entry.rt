//! What is known of one name of a table, and how that changes.
ghost use Rattle.std.specs.Prelude.{◌≡◌, ℕ, false, IsTrue};
ghost use Rattle.warp_tag.specs.Table.{is_lesser};

use crate::tag::Tag;

/// Whether the first payload (input, value) counts less than the second: by input, then by value. Of several payloads
/// of one name the greatest counts.
pub fn is_lesser(one: (u32, i64), other: (u32, i64)) -> bool
    ensures { result ≡ is_lesser one other }
{
    one.0 < other.0 || (one.0 == other.0 && one.1 < other.1)
}

/// What is known of one name of a table: the name is an origin and a tag.
#[derive(Clone, Copy, Debug, PartialEq, Eq)]
pub struct Entry {
    /// The origin of the name.
    pub origin: u32,
    /// The tag of the name.
    pub tag: Tag,
    /// The greatest payload (input, value) of an event with this name, if one came.
    pub event: Option<(u32, i64)>,
    /// Whether the name is withdrawn, which holds for good.
    pub withdrawn: bool,
}

impl Entry {
    ghost use Rattle.warp_tag.specs.Table.{fresh, has_name, live_event, name_before, with_event, with_withdrawal};

    /// The name of this origin and tag, of which nothing is known yet.
    pub fn fresh(origin: u32, tag: Tag) -> Entry
        ensures { result ≡ fresh origin tag }
    {
        Entry {
            origin,
            tag,
            event: None,
            withdrawn: false,
        }
    }

    /// Whether the entry's name comes before the name of this origin and tag: by tag, then by origin.
    pub fn comes_before(&self, origin: u32, tag: Tag) -> bool
        ensures { result ≡ name_before self.now.origin self.now.tag (fresh origin tag) }
    {
        self.tag.is_before(tag) || (self.tag.is_same(tag) && self.origin < origin)
    }

    /// Whether the entry's name comes after the name of this origin and tag.
    pub fn comes_after(&self, origin: u32, tag: Tag) -> bool
        ensures { result ≡ name_before origin tag self.now }
    {
        tag.is_before(self.tag) || (tag.is_same(self.tag) && origin < self.origin)
    }

    /// Whether the entry is of the name of this origin and tag.
    pub fn is_of(&self, origin: u32, tag: Tag) -> bool
        ensures { result ≡ has_name origin tag self.now }
    {
        tag.is_same(self.tag) && origin == self.origin
    }

    /// Notes an event of the name, and answers whether the name's live event changed. Of several payloads the
    /// greatest counts, by input, then by value.
    pub fn note_event(&mut self, input: u32, value: i64) -> bool
        ensures entry { self.new ≡ with_event input value self.old }
        ensures same { result ≡ false → live_event self.new ≡ live_event self.old }
        ensures changes { IsTrue result → live_event self.new ≡ live_event self.old → ⊥ }
    {
        let counts = match self.event {
            Some(known) => is_lesser(known, (input, value)),
            None => true,
        };
        if counts {
            self.event = Some((input, value));
        }
        counts && !self.withdrawn
    }

    /// Withdraws the name for good, and answers whether its live event changed: whether there was one.
    pub fn withdraw(&mut self) -> bool
        ensures entry { self.new ≡ with_withdrawal self.old }
        ensures same { result ≡ false → live_event self.new ≡ live_event self.old }
        ensures changes { IsTrue result → live_event self.new ≡ live_event self.old → ⊥ }
    {
        let was_live = self.event.is_some() && !self.withdrawn;
        self.withdrawn = true;
        was_live
    }
}
