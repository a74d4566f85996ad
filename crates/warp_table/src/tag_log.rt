//! The tags of an origin's names: as they came, until an announcement asks how many are before its tag, and in order
//! from then on.
//!
//! So a name of an origin that announced nothing costs a push here, in any order of tags.
ghost use Rattle.std.specs.Prelude.{◌≡◌, ◌+◌, ◌<◌, ◌^◌, [], IfOk, IsTrue, OnOk, OnErr, false, length};
ghost use Rattle.warp_table.specs.inner.Heard.{count_before as tags_before, with_tag, with_tags};

use crate::tags::Tags;
use std::alloc::{AllocError, Global};
use std::marker::Model;
use warp_tag::Tag;

/// These tags in order.
fn put_in_order(came: &[Tag], alloc: Global) -> Result<Tags, AllocError>
    ensures { IfOk result (λ tags. tags ≡ with_tags came.now []) }
{
    let mut in_order = Tags::new(alloc);
    let mut placed = 0;
    while placed < came.len() {
        in_order.insert(came[placed])?;
        placed += 1;
    }
    Ok(in_order)
}

/// Tags, seen as their list in order.
#[derive(Drop)]
pub(crate) struct TagLog {
    /// As they came, where nobody asked yet.
    came: Vec<Tag>,
    in_order: Tags,
    /// Whether they are in order.
    is_ordered: bool,
}

impl Model for TagLog {
    ghost use Rattle.std.specs.Prelude.{◌≡◌, [], List, false, true};
    ghost use Rattle.warp_tag.specs.Moment.{Moment};
    ghost use Rattle.warp_table.specs.inner.Heard.{with_tags};

    ghost Value = { List Moment };

    ghost view = { λ l. with_tags l.came.items l.in_order };

    ghost invariant = { λ l. (l.is_ordered ≡ true → l.came.items ≡ []) × (l.is_ordered ≡ false → l.in_order ≡ []) };
}

impl TagLog {
    /// None yet. They grow in `alloc`.
    pub(crate) fn new(alloc: Global) -> TagLog
        ensures { result ≡ [] }
    {
        TagLog {
            came: Vec::new(alloc),
            in_order: Tags::new(alloc),
            is_ordered: false,
        }
    }

    /// Puts in a tag. An `Err` changes nothing.
    #[inline(always)]
    pub(crate) fn insert(&mut self, tag: Tag) -> Result<(), AllocError>
        ensures ok { OnOk result (self.new ≡ with_tag tag self.old) }
        ensures err { OnErr result (self.new ≡ self.old) }
        ensures room { OnOk result (length self.old + 1 < 2 ^ 64) }
    {
        if self.is_ordered {
            self.in_order.insert(tag)?;
            return Ok(());
        }
        self.came.push(tag)?;
        Ok(())
    }

    /// Puts in a tag that is beyond all of those that stand in order, where there is room at once: whether it did.
    #[inline(always)]
    pub(crate) fn insert_last(&mut self, tag: Tag) -> bool
        ensures came { IsTrue result → self.new ≡ with_tag tag self.old }
        ensures other { result ≡ false → self.new ≡ self.old }
    {
        if self.is_ordered {
            return self.in_order.insert_last(tag);
        }
        if self.came.len() == self.came.capacity() {
            return false;
        }
        self.came.push_reserved(tag);
        true
    }

    /// How many there are.
    pub(crate) fn len(&self) -> usize
        ensures { result ≡ length self.now }
    {
        if self.is_ordered {
            return self.in_order.len();
        }
        self.came.len()
    }

    /// How many of them are before this one. They stay.
    pub(crate) fn count_before(&mut self, tag: Tag) -> Result<usize, AllocError>
        ensures same { self.new ≡ self.old }
        ensures count { IfOk result (λ count. count ≡ tags_before tag self.old) }
    {
        if self.is_ordered {
            return Ok(self.in_order.count_before(tag));
        }
        let alloc = *self.came.allocator();
        let in_order = put_in_order(&self.came, alloc)?;
        let count = in_order.count_before(tag);
        self.in_order = in_order;
        self.came = Vec::new(alloc);
        self.is_ordered = true;
        Ok(count)
    }
}
